//! The report of a plan's start-up.

ghost use Rattle.std.specs.Prelude.{◌≡◌, ◌++◌, All, OnOk, IfOk};
ghost use Rattle.dr_report.specs.Lines.{Appends};
ghost use Rattle.dr_report.specs.Reports.{step_text, steps_text, wave_text, waves_text, stages_text, preview_text_of, IsWaveOf, HoldsMachinesOf};

use crate::line::{Word, append_line};
use crate::machines::append_machine_line;
use dr_base::{Callout, NoMemory};
use dr_inventory::Estate;
use dr_plan::{Plan, Step, Wave, waves};
use std::alloc::Global;

// The line of a step before this priority.
fn append_step(
    out: &mut Vec<u8>,
    priority: u8,
    number: usize,
    what: &Callout,
) -> Result<(), NoMemory>
    ensures { Appends out.old out.new (step_text priority number what.now) result }
{
    let priority = Word::Number(priority as u64);
    let number = Word::Number(number as u64);
    match what {
        Callout::Command(name) => {
            let words = [
                priority,
                Word::Text(b"command"),
                number,
                Word::Text(name.bytes()),
            ];
            append_line(out, b"priority", &words)
        }
        Callout::Prompt(text) => {
            let words = [
                priority,
                Word::Text(b"prompt"),
                number,
                Word::Text(text.bytes()),
            ];
            append_line(out, b"priority", &words)
        }
    }
}

// The lines of the steps before this priority.
fn append_steps(out: &mut Vec<u8>, priority: u8, steps: &[Step]) -> Result<(), NoMemory>
    ensures { OnOk result (out.new.items ≡ out.old.items ++ steps_text priority 1 steps.now) }
{
    for (i, step) in steps.iter().enumerate() {
        if step.before == priority {
            append_step(out, priority, i + 1, &step.what)?;
        }
    }
    Ok(())
}

fn append_wave(out: &mut Vec<u8>, estate: &Estate, wave: &Wave) -> Result<(), NoMemory>
    requires { IsWaveOf estate.now wave.now }
    ensures { Appends out.old out.new (wave_text estate.now wave.now) result }
{
    let priority = Word::Number(wave.priority as u64);
    let words = [
        priority,
        Word::Text(b"depth"),
        Word::Number(wave.depth as u64),
    ];
    append_machine_line(
        out,
        b"priority",
        &words,
        Some(estate),
        wave.machines.as_slice(),
    )
}

// The lines of the waves of this priority.
fn append_waves(
    out: &mut Vec<u8>,
    estate: &Estate,
    priority: u8,
    waves: &[Wave],
) -> Result<(), NoMemory>
    requires { All (IsWaveOf estate.now) waves.now }
    ensures { OnOk result (out.new.items ≡ out.old.items ++ waves_text estate.now priority waves.now) }
{
    for wave in waves {
        if wave.priority == priority {
            append_wave(out, estate, wave)?;
        }
    }
    Ok(())
}

// The lines of all priorities.
fn append_stages(
    out: &mut Vec<u8>,
    estate: &Estate,
    steps: &[Step],
    waves: &[Wave],
) -> Result<(), NoMemory>
    requires { All (IsWaveOf estate.now) waves.now }
    ensures { OnOk result (out.new.items ≡ out.old.items ++ stages_text estate.now steps.now waves.now) }
{
    for priority in 1..6u8 {
        append_steps(out, priority, steps)?;
        append_waves(out, estate, priority, waves)?;
    }
    Ok(())
}

/// The order of start-up of a plan of this estate, one step or wave a line: for each priority from 1
/// to 5 the steps before it, then its waves by ascending depth.
pub fn preview_text(alloc: Global, estate: &Estate, plan: &Plan) -> Result<Vec<u8>, NoMemory>
    requires { HoldsMachinesOf estate.now plan.now }
    ensures { IfOk result (λ text. text.items ≡ preview_text_of estate.now plan.now) }
{
    let waves = waves(alloc, plan)?;
    let mut text = Vec::new(alloc);
    append_stages(&mut text, estate, plan.steps.as_slice(), &waves)?;
    Ok(text)
}
