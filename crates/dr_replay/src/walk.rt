//! A run with its stages and its visits of them.

ghost use Rattle.std.specs.Prelude.{◌≡◌, ◌<◌, ◌^◌, length, option_map, IfOk, MatchOption};
ghost use Rattle.dr_meaning.specs.Stages.{stage_at, no_stage};
ghost use Rattle.dr_meaning.specs.Visits.{visits as visits_in, last_visit, is_excused, is_done, begun};
ghost use Rattle.dr_meaning.specs.Runs.{stages_of};
ghost use Rattle.dr_meaning.specs.Meaning.{same_kind, is_wave_of, last_visit_of, is_left};
ghost use Rattle.dr_replay.specs.Values.{run_of, newest_first, visit_of, visits_told};

use crate::visiting::{is_excused, is_visit_done, last_visit, open_stage};
use crate::{Run, Visit, has, visits};
use dr_base::NoMemory;
use dr_meaning::{Stage, StageKind, stages};
use std::alloc::Global;

/// A run with its stages, and with what its records say of them.
#[derive(Drop)]
pub struct Walk<'r, 'a> {
    pub run: &'r Run<'a>,
    pub stages: Vec<Stage>,
    pub visits: Vec<Visit>,
    ghost few_stages: { length stages.items < 2 ^ 32 },
    ghost stages_are: { stages.items ≡ stages_of (run_of run.now) },
    ghost visits_are: { visits_told visits.items ≡ visits_in (newest_first run.now.log.items) },
}

/// Whether two kinds are one.
pub fn same_kind(a: StageKind, b: StageKind) -> bool
    ensures { result ≡ same_kind a b }
{
    a == b
}

// The stage of this number, from 1.
fn stage_at(stages: &[Stage], number: u32) -> Option<&Stage>
    ensures { MatchOption result (stage_at stages.now number ≡ no_stage) (λ stage. stage.now ≡ stage_at stages.now number) }
{
    match number {
        0 => None,
        _ => stages.get(number as usize - 1),
    }
}

impl<'r, 'a> Walk<'r, 'a> {
    /// The run with its stages and visits. A plan of 2 ^ 32 steps or stages finds no memory.
    pub fn new(alloc: Global, run: &'r Run<'a>) -> Result<Walk<'r, 'a>, NoMemory>
        ensures { IfOk result (λ walk. walk.run.now ≡ run.now) }
    {
        if run.plan.steps.as_slice().len() >= 1 << 32 {
            return Err(NoMemory);
        }
        let stages = stages(alloc, run.plan, run.start.op, run.start.forced)?;
        if stages.len() >= 1 << 32 {
            return Err(NoMemory);
        }
        let visits = visits(alloc, &run.log)?;
        Ok(Walk {
            run,
            stages,
            visits,
        })
    }
    /// The stage that is begun and not done.
    pub fn begun(&self) -> Option<u32>
        ensures { result ≡ begun (run_of self.now.run.now).log }
    {
        open_stage(&self.visits)
    }

    /// Whether a stage is done: a Done of it follows its last Begin.
    pub fn is_done(&self, stage: u32) -> bool
        ensures { result ≡ is_done (run_of self.now.run.now).log stage }
    {
        is_visit_done(last_visit(&self.visits, stage))
    }

    /// Whether the last visit of a stage excuses this machine, or all pairs.
    pub fn is_excused(&self, stage: u32, machine: u32) -> bool
        ensures { result ≡ is_excused machine (last_visit stage (run_of self.now.run.now).log) }
    {
        is_excused(machine, last_visit(&self.visits, stage))
    }

    /// The stage of this number, from 1.
    pub fn stage(&self, number: u32) -> Option<&Stage>
        ensures { MatchOption result (stage_at (stages_of (run_of self.now.run.now)) number ≡ no_stage) (λ stage. stage.now ≡ stage_at (stages_of (run_of self.now.run.now)) number) }
    {
        stage_at(&self.stages, number)
    }

    // Whether the stage of this number is a wave of this kind that has the machine.
    fn is_wave_of(&self, number: u32, kind: StageKind, machine: u32) -> bool
        ensures { result ≡ is_wave_of kind machine (stage_at (stages_of (run_of self.now.run.now)) number) }
    {
        match self.stage(number) {
            Some(stage) => {
                same_kind(stage.kind, kind) && has(stage.machines.as_slice(), machine)
            }
            None => false,
        }
    }

    // The last visit of a wave of this kind that has the machine.
    fn last_visit_of(&self, kind: StageKind, machine: u32) -> Option<&Visit>
        ensures { option_map (λ visit. visit_of visit.now) result ≡ last_visit_of (run_of self.now.run.now) (is_wave_of kind machine) }
    {
        let mut found = None;
        for visit in &self.visits {
            if self.is_wave_of(visit.stage, kind, machine) {
                found = Some(visit);
            }
        }
        found
    }

    /// Whether a machine is left: an Aside of it is later than the last Begin of its Start stage.
    pub fn is_left(&self, machine: u32) -> bool
        ensures { result ≡ is_left (run_of self.now.run.now) machine }
    {
        is_excused(machine, self.last_visit_of(StageKind::Start, machine))
    }
}
