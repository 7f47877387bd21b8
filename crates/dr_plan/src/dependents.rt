//! The graph of dependents: each dependency turned round.

ghost use Rattle.std.specs.Prelude.{◌≡◌, ◌<◌, ◌^◌, ◌⊎◌, ◌↔◌, ℕ, length, map, Contains, IfOk, OnOk};
ghost use Rattle.dr_inventory.specs.Sound.{AllBelow};
ghost use Rattle.dr_plan.specs.Cycles.{IsGraph, DependsOn};
ghost use Rattle.dr_plan.specs.Walks.{IsTurned};

use dr_base::Rows;
use std::alloc::{AllocError, Global};

// Lists this machine in the row of one that it depends on.
fn note(rows: &mut [Vec<u32>], dependency: u32, machine: u32) -> Result<(), AllocError>
    requires { dependency < length rows.old }
    ensures { OnOk result ((a b : ℕ) → DependsOn (map (λ row. row.items) rows.new) a b ↔ (DependsOn (map (λ row. row.items) rows.old) a b ⊎ ((a ≡ dependency) × (b ≡ machine)))) }
{
    rows[dependency as usize].push(machine)?;
    Ok(())
}

// Lists this machine in the rows of all that it depends on.
fn note_all(rows: &mut [Vec<u32>], dependencies: &[u32], machine: u32) -> Result<(), AllocError>
    requires { AllBelow (length rows.old) dependencies.now }
    ensures { OnOk result ((a b : ℕ) → DependsOn (map (λ row. row.items) rows.new) a b ↔ (DependsOn (map (λ row. row.items) rows.old) a b ⊎ (Contains dependencies.now a × (b ≡ machine)))) }
{
    for dependency in dependencies {
        note(rows, *dependency, machine)?;
    }
    Ok(())
}

// Lists each machine in the rows of all that it depends on.
fn note_each(graph: &[Rows<u32>], rows: &mut [Vec<u32>]) -> Result<(), AllocError>
    requires graph { IsGraph graph.now }
    requires count { length graph.now < 2 ^ 32 }
    requires one_each { length rows.old ≡ length graph.now }
    requires none { (a b : ℕ) → ¬ DependsOn (map (λ row. row.items) rows.old) a b }

    ensures { OnOk result ((a b : ℕ) → DependsOn (map (λ row. row.items) rows.new) a b ↔ DependsOn graph.now b a) }
{
    for machine in 0..graph.len() {
        note_all(rows, graph[machine].as_slice(), machine as u32)?;
    }
    Ok(())
}

// So many empty rows.
fn empty_rows(alloc: Global, count: usize) -> Result<Vec<Vec<u32>>, AllocError>
    ensures length { IfOk result (λ rows. length rows.items ≡ count) }
    ensures none { IfOk result (λ rows. (a b : ℕ) → ¬ DependsOn (map (λ row. row.items) rows.items) a b) }
{
    let mut rows = Vec::new(alloc);
    for _machine in 0..count {
        rows.push(Vec::new(alloc))?;
    }
    Ok(rows)
}

// The same rows, as contracts see them.
fn rows_of(alloc: Global, rows: Vec<Vec<u32>>) -> Result<Vec<Rows<u32>>, AllocError>
    ensures { IfOk result (λ same. same.items ≡ map (λ row. row.items) rows.items) }
{
    rows.into_iter().map(|row| Rows::new(row)).collect(alloc)
}

/// For each machine those that depend on it.
pub fn dependents_of(alloc: Global, graph: &[Rows<u32>]) -> Result<Vec<Rows<u32>>, AllocError>
    requires graph { IsGraph graph.now }
    requires count { length graph.now < 2 ^ 32 }

    ensures { IfOk result (λ dependents. IsTurned graph.now dependents.items) }
{
    let mut rows = empty_rows(alloc, graph.len())?;
    note_each(graph, &mut rows)?;
    rows_of(alloc, rows)
}
