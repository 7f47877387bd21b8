//! The stages of an operation of a plan, and which of them starts a machine.

ghost use Rattle.std.specs.Prelude.{◌≡◌, ◌==◌, ◌<◌, ◌^◌, ℕ, length, Some, IfOk, OnOk, MatchOption, if◌then◌else◌};
ghost use Rattle.std.specs.HashMap as map;
ghost use Rattle.dr_base.specs.Lists.{has};
ghost use Rattle.dr_meaning.specs.Stages.{stage_at, no_stage, stages};
ghost use Rattle.dr_walk.specs.Routes.{same_machine, IsStartOf};

use dr_base::{NoMemory, Op};
use dr_meaning::{Stage, StageKind, stages};
use dr_plan::Plan;
use std::alloc::Global;
use std::collections::HashMap;

/// The stages of an operation of a plan. All runs of the plan by this operation go through them.
#[derive(Drop)]
pub struct Route {
    pub(crate) stages: Vec<Stage>,
    // The number of the Start stage that has a machine.
    pub(crate) starts: HashMap<u32, u32>,
    ghost few: { length stages.items < 2 ^ 32 },
    ghost starts_are: { (machine : ℕ) → IsStartOf stages.items machine (map.get same_machine starts machine) },
}

// Each of these machines is started by this stage.
fn put_wave(starts: &mut HashMap<u32, u32>, stage: u32, machines: &[u32]) -> Result<(), NoMemory>
    ensures { OnOk result ((m : ℕ) → map.get same_machine starts.new m ≡ (if has machines.now m then Some stage else map.get same_machine starts.old m)) }
{
    for machine in machines {
        let _ = starts.insert(*machine, stage)?;
    }
    Ok(())
}

// Which stage starts each machine.
fn starts_of(alloc: Global, stages: &[Stage]) -> Result<HashMap<u32, u32>, NoMemory>
    requires { length stages.now < 2 ^ 32 }
    ensures { IfOk result (λ starts. (machine : ℕ) → IsStartOf stages.now machine (map.get same_machine starts machine)) }
{
    let mut starts = HashMap::new(alloc);
    for (i, stage) in stages.iter().enumerate() {
        if stage.kind == StageKind::Start {
            put_wave(&mut starts, i as u32 + 1, stage.machines.as_slice())?;
        }
    }
    Ok(starts)
}

impl Route {
    /// The stages of an operation of a plan. A plan of 2 ^ 32 steps or stages finds no memory.
    pub fn new(alloc: Global, plan: &Plan, op: Op, forced: bool) -> Result<Route, NoMemory>
        ensures { IfOk result (λ route. route.stages.items ≡ stages plan.now op forced) }
    {
        if plan.steps.as_slice().len() >= 1 << 32 {
            return Err(NoMemory);
        }
        let stages = stages(alloc, plan, op, forced)?;
        if stages.len() >= 1 << 32 {
            return Err(NoMemory);
        }
        let starts = starts_of(alloc, &stages)?;
        Ok(Route { stages, starts })
    }

    /// How many stages there are.
    pub fn len(&self) -> u32
        ensures { result ≡ length self.now.stages.items }
    {
        self.stages.len() as u32
    }

    /// The stage of this number, from 1.
    pub fn stage(&self, number: u32) -> Option<&Stage>
        ensures { MatchOption result (stage_at self.now.stages.items number ≡ no_stage) (λ stage. stage.now ≡ stage_at self.now.stages.items number) }
    {
        match number {
            0 => None,
            _ => self.stages.get(number as usize - 1),
        }
    }

    /// The number of the Start stage that has a machine.
    pub fn start(&self, machine: u32) -> Option<u32>
        ensures { result ≡ map.get same_machine self.now.starts machine }
    {
        self.starts.get(&machine).copied()
    }
}
