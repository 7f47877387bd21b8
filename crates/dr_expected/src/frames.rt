//! The frames of pairs that the journal's runs allow.

ghost use Rattle.std.specs.Prelude.{◌≡◌, ◌↔◌, IfOk, OnOk, IsTrue, Contains, if◌then◌else◌};
ghost use Rattle.std.specs.Bool.{MatchBool};
ghost use Rattle.dr_outside.specs.Pairs.{frame_of};
ghost use Rattle.dr_meaning.specs.Opening.{opening_frame};
ghost use Rattle.dr_meaning.specs.Testing.{with_snapshot};
ghost use Rattle.dr_base.specs.Lists.{has as has_number};
ghost use Rattle.dr_meaning.specs.Stages.{stage_at};
ghost use Rattle.dr_meaning.specs.Runs.{stages_of, number, holds};
ghost use Rattle.dr_meaning.specs.Visits.{all, is_excused};
ghost use Rattle.dr_meaning.specs.Outcomes.{made_frame, split_frame, frozen_frame, reversed_frame};
ghost use Rattle.dr_meaning.specs.Reach.{ReachFrame, FrameStep, is_complete};
ghost use Rattle.dr_meaning.specs.Meaning.{MeansFrame, same_kind, last_visit_of, is_of_kind};
ghost use Rattle.dr_meaning.specs.Expected.{LeavesFrame, ExpectedFrame};
ghost use Rattle.dr_replay.specs.Values.{run_of, runs_told, visit_of};
ghost use Rattle.dr_expected.specs.Frames.{frame_value};
ghost use Rattle.dr_expected.specs.Expecting.{Lists, Gains, Adds, Leads, IsFrame, FrameOver, meant_frame, may_skip};

use dr_base::{NoMemory, Op, Side};
use dr_inventory::Estate;
use dr_meaning::StageKind;
use dr_outside::{Link, Pair, Sides};
use dr_records::ALL;
use dr_replay::{Run, Visit, Walk, group_state, has};
use std::alloc::Global;

/// A pair without what production and replication write; of its snapshot, the run.
#[derive(Clone, Copy, Debug, PartialEq, Eq)]
pub struct Frame {
    /// The side that is replicated from.
    pub source: Side,
    pub link: Link,
    pub writable: Sides<bool>,
    /// The run of the test that made the snapshot.
    pub snapshot: Option<u32>,
}

impl Frame {
    /// The frame of a pair.
    pub fn of(pair: &Pair) -> Frame
        ensures { frame_value result ≡ frame_of pair.now }
    {
        Frame {
            source: pair.source,
            link: pair.link,
            writable: pair.writable,
            snapshot: match pair.snapshot {
                Some(snapshot) => Some(snapshot.run),
                None => None,
            },
        }
    }

    // Before any run, where this side is protected.
    fn opening(protected: Side) -> Frame
        ensures { frame_value result ≡ opening_frame protected }
    {
        Frame {
            source: protected,
            link: Link::Live,
            writable: Sides::only(protected),
            snapshot: None,
        }
    }

    // With a snapshot of this run.
    fn with_snapshot(self, run: &Run) -> Frame
        ensures { frame_value result ≡ with_snapshot (number (run_of run.now)) (frame_value self) }
    {
        Frame {
            snapshot: Some(run.start.run),
            ..self
        }
    }

    // Without a snapshot.
    fn without_snapshot(self) -> Frame
        ensures { frame_value result ≡ record (frame_value self) { snapshot = None } }
    {
        Frame {
            snapshot: None,
            ..self
        }
    }

    // Split, and writable at the new side.
    fn split(self, run: &Run) -> Frame
        ensures { frame_value result ≡ split_frame (run_of run.now) (frame_value self) }
    {
        Frame {
            link: Link::Split,
            writable: self.writable.put(run.protected.other(), true),
            ..self
        }
    }

    // With its old side frozen.
    fn frozen(self, run: &Run) -> Frame
        ensures { frame_value result ≡ frozen_frame (run_of run.now) (frame_value self) }
    {
        Frame {
            writable: self.writable.put(run.protected, false),
            ..self
        }
    }

    // Live again, from the new side.
    fn reversed(self, run: &Run) -> Frame
        ensures { frame_value result ≡ reversed_frame (run_of run.now) (frame_value self) }
    {
        Frame {
            link: Link::Live,
            source: run.protected.other(),
            ..self
        }
    }

    // What a finished run makes of it; a failover, with nothing skipped.
    fn meant(self, run: &Run) -> Frame
        ensures { frame_value result ≡ meant_frame run.now.start.now.op run.now.start.now.forced (run_of run.now) (frame_value self) }
    {
        match run.start.op {
            Op::Testing => self.with_snapshot(run),
            Op::Cleanup => self.without_snapshot(),
            Op::Migrate => self.frozen(run).split(run),
            Op::Failover => {
                if run.start.forced {
                    self.split(run)
                } else {
                    self.frozen(run).split(run)
                }
            }
            Op::Reprotect => self.frozen(run).reversed(run),
        }
    }

    // What a stage makes of it.
    fn made(self, run: &Run, kind: StageKind) -> Frame
        ensures { frame_value result ≡ made_frame (run_of run.now) kind (frame_value self) }
    {
        match kind {
            StageKind::TestStart => self.with_snapshot(run),
            StageKind::TestStop => self.without_snapshot(),
            StageKind::Prepare => self.frozen(run),
            StageKind::Split => self.split(run),
            StageKind::Reverse => self.reversed(run),
            _ => self,
        }
    }
}

// Whether the list has the frame.
fn is_listed(frames: &[Frame], frame: &Frame) -> bool
    ensures { IsTrue result ↔ Contains frames.now frame.now }
{
    frames.contains(frame)
}

// Adds the frame, where the list doesn't have it.
fn add(frames: &mut Vec<Frame>, frame: Frame) -> Result<(), NoMemory>
    ensures { OnOk result (Gains IsFrame frame frames.old.items frames.new.items) }
{
    if is_listed(frames, &frame) {
        return Ok(());
    }
    frames.push(frame)?;
    Ok(())
}

// Adds what a stage leaves of the frame, on a visit that is complete or not.
fn add_over(
    next: &mut Vec<Frame>,
    run: &Run,
    kind: StageKind,
    complete: bool,
    frame: Frame,
) -> Result<(), NoMemory>
    ensures { OnOk result (Adds IsFrame (FrameOver (run_of run.now) kind complete) frame next.old.items next.new.items) }
{
    add(next, frame.made(run, kind))?;
    if complete {
        return Ok(());
    }
    add(next, frame)?;
    Ok(())
}

// What a stage leaves of each of these frames.
fn over_stage(
    alloc: Global,
    run: &Run,
    kind: StageKind,
    complete: bool,
    frames: &[Frame],
) -> Result<Vec<Frame>, NoMemory>
    ensures { IfOk result (λ next. Leads IsFrame (FrameOver (run_of run.now) kind complete) frames.now next.items) }
{
    let mut next = Vec::new(alloc);
    for frame in frames {
        add_over(&mut next, run, kind, complete, *frame)?;
    }
    Ok(next)
}

// What the stage of a visit is for.
pub(crate) fn kind_at(walk: &Walk, stage: u32) -> StageKind
    ensures { result ≡ (stage_at (stages_of (run_of walk.now.run.now)) stage).kind }
{
    match walk.stage(stage) {
        Some(stage) => stage.kind,
        None => StageKind::Prompt,
    }
}

// Whether a visit excuses this machine, or all pairs.
pub(crate) fn excuses(visit: &Visit, machine: u32) -> bool
    ensures { result ≡ has_number (visit_of visit.now).excused machine }
{
    has(visit.excused.as_slice(), machine)
}

// Whether a visit is done, and doesn't excuse this machine, or all pairs.
pub(crate) fn is_complete(visit: &Visit, machine: u32) -> bool
    ensures { result ≡ is_complete machine (visit_of visit.now) }
{
    visit.done && !excuses(visit, machine)
}

// What a visit leaves of each of these frames.
fn over_visit(
    alloc: Global,
    walk: &Walk,
    visit: &Visit,
    frames: &[Frame],
) -> Result<Vec<Frame>, NoMemory>
    ensures { IfOk result (λ next. Leads IsFrame (FrameStep (run_of walk.now.run.now) (visit_of visit.now)) frames.now next.items) }
{
    let kind = kind_at(walk, visit.stage);
    over_stage(alloc, walk.run, kind, is_complete(visit, ALL), frames)
}

// What the run may have made of these frames.
fn reached(alloc: Global, walk: &Walk, frames: Vec<Frame>) -> Result<Vec<Frame>, NoMemory>
    ensures { IfOk result (λ next. Leads IsFrame (ReachFrame (run_of walk.now.run.now)) frames.items next.items) }
{
    let mut next = frames;
    for visit in &walk.visits {
        next = over_visit(alloc, walk, visit, &next)?;
    }
    Ok(next)
}

// Whether a stage of this kind freezes the old side.
fn is_prepare(kind: StageKind) -> bool
    ensures { result ≡ same_kind kind StageKind.Prepare }
{
    matches!(kind, StageKind::Prepare)
}

// Whether the freezing of the old side is skipped after this visit, where it was or wasn't before.
fn is_excused_after(walk: &Walk, visit: &Visit, before: bool) -> bool
    ensures { result ≡ (if is_of_kind StageKind.Prepare (stage_at (stages_of (run_of walk.now.run.now)) visit.now.stage) then has_number (visit_of visit.now).excused all else before) }
{
    if is_prepare(kind_at(walk, visit.stage)) {
        excuses(visit, ALL)
    } else {
        before
    }
}

// Whether the freezing of the old side was skipped at last.
fn is_prepare_excused(walk: &Walk) -> bool
    ensures { result ≡ is_excused all (last_visit_of (run_of walk.now.run.now) (is_of_kind StageKind.Prepare)) }
{
    let mut excused = false;
    for visit in &walk.visits {
        excused = is_excused_after(walk, visit, excused);
    }
    excused
}

// Whether the run may have left the old side writable besides.
fn may_skip(walk: &Walk) -> bool
    ensures { result ≡ may_skip walk.now.run.now.start.now.op walk.now.run.now.start.now.forced (run_of walk.now.run.now) }
{
    match walk.run.start.op {
        Op::Failover => !walk.run.start.forced && is_prepare_excused(walk),
        _ => false,
    }
}

// Adds what a finished run means for the frame.
fn add_meant(next: &mut Vec<Frame>, run: &Run, skipped: bool, frame: Frame) -> Result<(), NoMemory>
    requires { skipped ≡ may_skip run.now.start.now.op run.now.start.now.forced (run_of run.now) }
    ensures { OnOk result (Adds IsFrame (MeansFrame (run_of run.now)) frame next.old.items next.new.items) }
{
    add(next, frame.meant(run))?;
    if skipped {
        add(next, frame.split(run))?;
    }
    Ok(())
}

// What a finished run means for these frames.
fn meant(alloc: Global, walk: &Walk, frames: &[Frame]) -> Result<Vec<Frame>, NoMemory>
    ensures { IfOk result (λ next. Leads IsFrame (MeansFrame (run_of walk.now.run.now)) frames.now next.items) }
{
    let skipped = may_skip(walk);
    let mut next = Vec::new(alloc);
    for frame in frames {
        add_meant(&mut next, walk.run, skipped, *frame)?;
    }
    Ok(next)
}

// What a run leaves of these frames.
fn left(alloc: Global, run: &Run, frames: Vec<Frame>) -> Result<Vec<Frame>, NoMemory>
    ensures { IfOk result (λ next. Leads IsFrame (LeavesFrame (run_of run.now)) frames.items next.items) }
{
    let walk = match Walk::new(alloc, run) {
        Ok(walk) => walk,
        Err(NoMemory) => return Err(NoMemory),
    };
    if run.is_finished() {
        meant(alloc, &walk, &frames)
    } else {
        reached(alloc, &walk, frames)
    }
}

// What a run leaves of these frames, where it holds the group.
fn left_of_held(
    alloc: Global,
    group: u32,
    run: &Run,
    frames: Vec<Frame>,
) -> Result<Vec<Frame>, NoMemory>
    ensures { IfOk result (λ next. MatchBool (holds group (run_of run.now)) (Leads IsFrame (LeavesFrame (run_of run.now)) frames.items next.items) (next.items ≡ frames.items)) }
{
    if run.holds(group) {
        left(alloc, run, frames)
    } else {
        Ok(frames)
    }
}

// All frames that the runs allow for a pair of the group.
fn expected(
    alloc: Global,
    estate: &Estate,
    group: u32,
    runs: &[Run],
) -> Result<Vec<Frame>, NoMemory>
    ensures { IfOk result (λ list. Lists IsFrame (ExpectedFrame estate.now group (runs_told runs.now)) list.items) }
{
    let mut list = Vec::new(alloc);
    add(
        &mut list,
        Frame::opening(group_state(estate, group, &[]).protected),
    )?;
    for run in runs {
        list = left_of_held(alloc, group, run, list)?;
    }
    Ok(list)
}

/// Whether the frame is one that the runs allow for a pair of the group.
pub fn expects_frame(
    alloc: Global,
    estate: &Estate,
    group: u32,
    runs: &[Run],
    frame: &Frame,
) -> Result<bool, NoMemory>
    ensures { IfOk result (λ b. IsTrue b ↔ ExpectedFrame estate.now group (runs_told runs.now) (frame_value frame.now)) }
{
    let list = expected(alloc, estate, group, runs)?;
    Ok(is_listed(&list, frame))
}
