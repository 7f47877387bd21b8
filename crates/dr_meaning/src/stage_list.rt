//! The stages of an operation.

ghost use Rattle.std.specs.Prelude.{◌==◌, if◌then◌else◌, true, false, ◌≡◌, ◌+◌, ◌++◌, ◌<◌, ◌≤◌, ◌^◌, length, map, reverse, IfOk, OnOk, [], ◌∷◌};
ghost use Rattle.dr_plan.specs.Waves.{waves_of, waves_at, priorities};
ghost use Rattle.dr_meaning.specs.Stages.{array_stage, wave_stage, step_kind, step_stage, steps_before, start_priority, start_up, wind_down, recovery, stages};
ghost use Rattle.dr_meaning.specs.Waves.{of_priority};

use crate::stage::{Stage, StageKind};
use dr_base::{Callout, NoMemory, Op, Rows};
use dr_plan::{Plan, Step, Wave, waves};
use std::alloc::{AllocError, Global};

// A stage of the array.
fn array_stage(alloc: Global, kind: StageKind) -> Stage
    ensures { result ≡ array_stage kind }
{
    Stage {
        kind,
        priority: 0,
        depth: 0,
        machines: Rows::new(Vec::new(alloc)),
        step: 0,
    }
}

fn copied(alloc: Global, machines: &[u32]) -> Result<Rows<u32>, AllocError>
    ensures { IfOk result (λ rows. rows ≡ machines.now) }
{
    let mut copy = Vec::new(alloc);
    copy.extend_from_slice(machines)?;
    Ok(Rows::new(copy))
}

// A stage that works the machines of a wave.
fn wave_stage(alloc: Global, kind: StageKind, wave: &Wave) -> Result<Stage, AllocError>
    ensures { IfOk result (λ stage. stage ≡ wave_stage kind wave.now) }
{
    let machines = copied(alloc, wave.machines.as_slice())?;
    Ok(Stage {
        kind,
        priority: wave.priority,
        depth: wave.depth,
        machines,
        step: 0,
    })
}

// Whether a step runs a command or waits for an answer.
fn step_kind(what: &Callout) -> StageKind
    ensures { result ≡ step_kind what.now }
{
    match what {
        Callout::Command(_) => StageKind::Command,
        Callout::Prompt(_) => StageKind::Prompt,
    }
}

// A step of the plan, by its number.
fn step_stage(alloc: Global, number: u32, step: &Step) -> Stage
    ensures { result ≡ step_stage number step.now }
{
    Stage {
        kind: step_kind(&step.what),
        priority: step.before,
        depth: 0,
        machines: Rows::new(Vec::new(alloc)),
        step: number,
    }
}

// Adds a step, if it comes before this priority.
fn push_step(
    alloc: Global,
    list: &mut Vec<Stage>,
    number: u32,
    step: &Step,
    priority: u8,
) -> Result<(), AllocError>
    ensures { OnOk result (list.new.items ≡ list.old.items ++ (if step.now.before == priority then step_stage number step.now ∷ [] else [])) }
{
    if step.before == priority {
        list.push(step_stage(alloc, number, step))?;
    }
    Ok(())
}

// Adds the steps before a priority.
fn push_steps(
    alloc: Global,
    list: &mut Vec<Stage>,
    steps: &[Step],
    priority: u8,
) -> Result<(), AllocError>
    requires { length steps.now < 2 ^ 32 }
    ensures { OnOk result (list.new.items ≡ list.old.items ++ steps_before priority 1 steps.now) }
{
    for i in 0..steps.len() {
        push_step(alloc, list, i as u32 + 1, &steps[i], priority)?;
    }
    Ok(())
}

// Adds the waves of a priority, each as a Start stage.
fn push_starts(
    alloc: Global,
    list: &mut Vec<Stage>,
    waves: &[Wave],
    priority: u8,
) -> Result<(), AllocError>
    ensures { OnOk result (list.new.items ≡ list.old.items ++ map (wave_stage StageKind.Start) (of_priority priority waves.now)) }
{
    for wave in waves {
        if wave.priority == priority {
            list.push(wave_stage(alloc, StageKind::Start, wave)?)?;
        }
    }
    Ok(())
}

// Adds the stages of one priority.
fn push_priority(
    alloc: Global,
    list: &mut Vec<Stage>,
    plan: &Plan,
    waves: &[Wave],
    priority: u8,
) -> Result<(), AllocError>
    requires short { length plan.now.steps < 2 ^ 32 }
    requires waves { waves.now ≡ waves_of plan.now }
    requires least { 1 ≤ priority }
    requires greatest { priority ≤ 5 }
    ensures { OnOk result (list.new.items ≡ list.old.items ++ start_priority plan.now priority) }
{
    push_steps(alloc, list, plan.steps.as_slice(), priority)?;
    push_starts(alloc, list, waves, priority)?;
    Ok(())
}

// Adds the stages of start-up.
fn push_start_up(
    alloc: Global,
    list: &mut Vec<Stage>,
    plan: &Plan,
    waves: &[Wave],
) -> Result<(), AllocError>
    requires short { length plan.now.steps < 2 ^ 32 }
    requires waves { waves.now ≡ waves_of plan.now }
    ensures { OnOk result (list.new.items ≡ list.old.items ++ start_up plan.now) }
{
    for priority in 1..6 {
        push_priority(alloc, list, plan, waves, priority)?;
    }
    Ok(())
}

// Adds the waves from the last to the first, each as a stage of this kind.
fn push_wind_down(
    alloc: Global,
    list: &mut Vec<Stage>,
    kind: StageKind,
    waves: &[Wave],
) -> Result<(), AllocError>
    ensures { OnOk result (list.new.items ≡ list.old.items ++ reverse (map (wave_stage kind) waves.now)) }
{
    for i in 0..waves.len() {
        list.push(wave_stage(alloc, kind, &waves[waves.len() - 1 - i])?)?;
    }
    Ok(())
}

// Adds the stages of a migration, or of a failover that isn't forced.
fn push_recovery(
    alloc: Global,
    list: &mut Vec<Stage>,
    plan: &Plan,
    waves: &[Wave],
) -> Result<(), AllocError>
    requires short { length plan.now.steps < 2 ^ 32 }
    requires waves { waves.now ≡ waves_of plan.now }
    ensures { OnOk result (list.new.items ≡ list.old.items ++ recovery plan.now) }
{
    list.push(array_stage(alloc, StageKind::Sync))?;
    push_wind_down(alloc, list, StageKind::Stop, waves)?;
    list.push(array_stage(alloc, StageKind::Prepare))?;
    list.push(array_stage(alloc, StageKind::FinalSync))?;
    list.push(array_stage(alloc, StageKind::Split))?;
    push_start_up(alloc, list, plan, waves)
}

// Adds the stages of a test.
fn push_testing(
    alloc: Global,
    list: &mut Vec<Stage>,
    plan: &Plan,
    waves: &[Wave],
) -> Result<(), AllocError>
    requires short { length plan.now.steps < 2 ^ 32 }
    requires waves { waves.now ≡ waves_of plan.now }
    ensures { OnOk result (list.new.items ≡ list.old.items ++ stages plan.now Op.Testing false) }
{
    list.push(array_stage(alloc, StageKind::Sync))?;
    list.push(array_stage(alloc, StageKind::TestStart))?;
    push_start_up(alloc, list, plan, waves)
}

// Adds the stages of a forced failover.
fn push_forced(
    alloc: Global,
    list: &mut Vec<Stage>,
    plan: &Plan,
    waves: &[Wave],
) -> Result<(), AllocError>
    requires short { length plan.now.steps < 2 ^ 32 }
    requires waves { waves.now ≡ waves_of plan.now }
    ensures { OnOk result (list.new.items ≡ list.old.items ++ stages plan.now Op.Failover true) }
{
    list.push(array_stage(alloc, StageKind::Split))?;
    push_start_up(alloc, list, plan, waves)
}

// Adds the stages of a cleanup.
fn push_cleanup(alloc: Global, list: &mut Vec<Stage>, waves: &[Wave]) -> Result<(), AllocError>
    ensures { OnOk result (list.new.items ≡ list.old.items ++ (reverse (map (wave_stage StageKind.Clear) waves.now) ++ array_stage StageKind.TestStop ∷ [])) }
{
    push_wind_down(alloc, list, StageKind::Clear, waves)?;
    list.push(array_stage(alloc, StageKind::TestStop))?;
    Ok(())
}

// Adds the stages of a reprotect.
fn push_reprotect(alloc: Global, list: &mut Vec<Stage>, waves: &[Wave]) -> Result<(), AllocError>
    ensures { OnOk result (list.new.items ≡ list.old.items ++ (reverse (map (wave_stage StageKind.Clear) waves.now) ++ array_stage StageKind.Prepare ∷ array_stage StageKind.Reverse ∷ array_stage StageKind.FinalSync ∷ [])) }
{
    push_wind_down(alloc, list, StageKind::Clear, waves)?;
    list.push(array_stage(alloc, StageKind::Prepare))?;
    list.push(array_stage(alloc, StageKind::Reverse))?;
    list.push(array_stage(alloc, StageKind::FinalSync))?;
    Ok(())
}

// The stages of an operation, of these waves.
fn stages_of(
    alloc: Global,
    plan: &Plan,
    waves: &[Wave],
    op: Op,
    forced: bool,
) -> Result<Vec<Stage>, AllocError>
    requires short { length plan.now.steps < 2 ^ 32 }
    requires waves { waves.now ≡ waves_of plan.now }
    ensures { IfOk result (λ list. list.items ≡ stages plan.now op forced) }
{
    let mut list = Vec::new(alloc);
    match op {
        Op::Testing => push_testing(alloc, &mut list, plan, waves)?,
        Op::Cleanup => push_cleanup(alloc, &mut list, waves)?,
        Op::Migrate => push_recovery(alloc, &mut list, plan, waves)?,
        Op::Failover => {
            if forced {
                push_forced(alloc, &mut list, plan, waves)?
            } else {
                push_recovery(alloc, &mut list, plan, waves)?
            }
        }
        Op::Reprotect => push_reprotect(alloc, &mut list, waves)?,
    }
    Ok(list)
}

/// The stages of an operation of the plan, in order; they count from 1 elsewhere. `forced` counts
/// for a failover alone.
pub fn stages(alloc: Global, plan: &Plan, op: Op, forced: bool) -> Result<Vec<Stage>, NoMemory>
    requires { length plan.now.steps < 2 ^ 32 }
    ensures { IfOk result (λ list. list.items ≡ stages plan.now op forced) }
{
    let waves = waves(alloc, plan)?;
    Ok(stages_of(alloc, plan, &waves, op, forced)?)
}
