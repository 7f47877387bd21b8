//! The posts of machines that the journal's runs allow.

ghost use Rattle.std.specs.Prelude.{◌≡◌, ◌↔◌, ◌&&◌, ◌||◌, not, [], ◌∷◌, IfOk, OnOk, IsTrue, Contains, All, if◌then◌else◌};
ghost use Rattle.std.specs.Bool.{MatchBool};
ghost use Rattle.dr_base.specs.Sides.{same_side};
ghost use Rattle.dr_inventory.specs.Sound.{IsSoundEstate};
ghost use Rattle.dr_base.specs.Lists.{has as has_number};
ghost use Rattle.dr_meaning.specs.Stages.{stage_at};
ghost use Rattle.dr_mappings.specs.Placements.{place_of};
ghost use Rattle.dr_meaning.specs.Worlds.{IsOpeningPost};
ghost use Rattle.dr_meaning.specs.Visits.{is_excused};
ghost use Rattle.dr_meaning.specs.Runs.{op, stages_of, holds, named_side};
ghost use Rattle.dr_outside.specs.declared.machine.Post.{Post as PostValue};
ghost use Rattle.dr_meaning.specs.Reach.{ReachPost, PostStep, works, side_of_wave};
ghost use Rattle.dr_meaning.specs.Meaning.{MeansPost, is_wave_of, last_visit_of, is_stop_skipped};
ghost use Rattle.dr_meaning.specs.Expected.{LeavesPost, ExpectedPost, wanted, given};
ghost use Rattle.dr_replay.specs.Values.{run_of, runs_told, visit_of};
ghost use Rattle.dr_expected.specs.Expecting.{HasItemFor, Lists, Gains, Adds, Leads};
ghost use Rattle.dr_expected.specs.Standings.{placed_value, IsStanding, IsAt, stopped_standing, made_standing, start_standings, failed_standings, PostOver, GainsAll, place_value, old_kind, new_kind, is_old_sure, is_new_sure, meant_kind, is_sure};

use crate::frames::{excuses, is_complete, kind_at};
use dr_base::{NoMemory, Op, Placement, Side};
use dr_inventory::Estate;
use dr_mappings::place;
use dr_meaning::StageKind;
use dr_outside::{Placed, Post};
use dr_replay::{Run, Visit, Walk, group_state, has, same_kind};
use std::alloc::Global;

/// A placement that a run wants.
#[derive(Clone, Copy, Debug, PartialEq, Eq)]
pub struct Wanted {
    /// `None` where the maps give none: no machine is there.
    pub place: Option<Placement>,
    pub bubble: bool,
}

/// Where a registered machine may be.
#[derive(Clone, Copy, Debug, PartialEq, Eq)]
pub enum Spot {
    /// In any placement outside bubbles, as before any run.
    Opening,
    At(Wanted),
}

/// A post of which the placement may be left open.
#[derive(Clone, Copy, Debug, PartialEq, Eq)]
pub enum Standing {
    Placeholder,
    Off(Spot),
    On(Spot),
    Ready(Spot),
}

impl Standing {
    // Turned off, if the machine is registered there.
    fn stopped(&self) -> Standing
        ensures { result ≡ stopped_standing self.now }
    {
        match self {
            Standing::Placeholder => Standing::Placeholder,
            Standing::Off(spot) | Standing::On(spot) | Standing::Ready(spot) => {
                Standing::Off(*spot)
            }
        }
    }

    // What a stage makes of it.
    fn made(&self, kind: StageKind, wanted: &Wanted) -> Standing
        ensures { result ≡ made_standing kind wanted.now self.now }
    {
        match kind {
            StageKind::Start => Standing::Ready(Spot::At(*wanted)),
            StageKind::Stop => self.stopped(),
            StageKind::Clear => Standing::Placeholder,
            _ => *self,
        }
    }
}

// Whether the list has it.
fn is_listed(list: &[Standing], standing: &Standing) -> bool
    ensures { IsTrue result → Contains list.now standing.now }
{
    list.contains(standing)
}

// Adds it, where the list doesn't have it.
fn add(list: &mut Vec<Standing>, standing: &Standing) -> Result<(), NoMemory>
    ensures { OnOk result (Gains IsStanding standing.now list.old.items list.new.items) }
{
    if is_listed(list, standing) {
        return Ok(());
    }
    list.push(*standing)?;
    Ok(())
}

// Adds what a start leaves that had registered the machine.
fn add_started(list: &mut Vec<Standing>, wanted: &Wanted) -> Result<(), NoMemory>
    ensures { OnOk result (GainsAll IsStanding (Standing.Off (Spot.At wanted.now) ∷ Standing.On (Spot.At wanted.now) ∷ []) list.old.items list.new.items) }
{
    add(list, &Standing::Off(Spot::At(*wanted)))?;
    add(list, &Standing::On(Spot::At(*wanted)))?;
    Ok(())
}

// Adds what a failed start leaves.
fn add_starts(
    list: &mut Vec<Standing>,
    wanted: &Wanted,
    standing: &Standing,
) -> Result<(), NoMemory>
    ensures { OnOk result (GainsAll IsStanding (start_standings wanted.now standing.now) list.old.items list.new.items) }
{
    match standing {
        Standing::Placeholder => {
            add(list, standing)?;
            add_started(list, wanted)?;
            Ok(())
        }
        Standing::Off(_) | Standing::On(_) => {
            add_started(list, wanted)?;
            Ok(())
        }
        Standing::Ready(_) => Ok(()),
    }
}

// Adds what the failed calls of a stage leave.
fn add_failed(
    list: &mut Vec<Standing>,
    kind: StageKind,
    wanted: &Wanted,
    standing: &Standing,
) -> Result<(), NoMemory>
    ensures { OnOk result (GainsAll IsStanding (failed_standings kind wanted.now standing.now) list.old.items list.new.items) }
{
    match kind {
        StageKind::Start => {
            add_starts(list, wanted, standing)?;
            Ok(())
        }
        StageKind::Stop => {
            add(list, standing)?;
            Ok(())
        }
        StageKind::Clear => {
            add(list, standing)?;
            add(list, &standing.stopped())?;
            Ok(())
        }
        _ => Ok(()),
    }
}

// Adds what a stage leaves, on a visit that is complete or not.
fn add_over(
    list: &mut Vec<Standing>,
    kind: StageKind,
    wanted: &Wanted,
    complete: bool,
    standing: &Standing,
) -> Result<(), NoMemory>
    ensures { OnOk result (Adds IsStanding (PostOver kind (placed_value wanted.now) complete) standing.now list.old.items list.new.items) }
{
    add(list, &standing.made(kind, wanted))?;
    if complete {
        return Ok(());
    }
    add_failed(list, kind, wanted, standing)?;
    Ok(())
}

// What a stage leaves of all these.
fn over_stage(
    alloc: Global,
    kind: StageKind,
    wanted: &Wanted,
    complete: bool,
    list: &[Standing],
) -> Result<Vec<Standing>, NoMemory>
    ensures { IfOk result (λ next. Leads IsStanding (PostOver kind (placed_value wanted.now) complete) list.now next.items) }
{
    let mut next = Vec::new(alloc);
    for standing in list {
        add_over(&mut next, kind, wanted, complete, standing)?;
    }
    Ok(next)
}

// The side at which a stage of this kind works machines.
fn side_of_wave(run: &Run, kind: StageKind) -> Side
    ensures { result ≡ side_of_wave (op (run_of run.now)) run.now.protected kind }
{
    match (kind, run.start.op) {
        (StageKind::Start, _) | (StageKind::Clear, Op::Cleanup) => run.protected.other(),
        _ => run.protected,
    }
}

// Whether the stage of this number works the machine at the side.
fn works(walk: &Walk, number: u32, machine: u32, side: Side) -> bool
    ensures { result ≡ works (run_of walk.now.run.now) (stage_at (stages_of (run_of walk.now.run.now)) number) machine side }
{
    match walk.stage(number) {
        Some(stage) => {
            has(stage.machines.as_slice(), machine) && side == side_of_wave(walk.run, stage.kind)
        }
        None => false,
    }
}

// What a visit leaves of all these, of the machine at the side.
fn over_visit(
    alloc: Global,
    walk: &Walk,
    visit: &Visit,
    machine: u32,
    side: Side,
    wanted: &Wanted,
    list: &[Standing],
) -> Result<Vec<Standing>, NoMemory>
    ensures { IfOk result (λ next. Leads IsStanding (PostStep (run_of walk.now.run.now) machine side (placed_value wanted.now) (visit_of visit.now)) list.now next.items) }
{
    if works(walk, visit.stage, machine, side) {
        let kind = kind_at(walk, visit.stage);
        over_stage(alloc, kind, wanted, is_complete(visit, machine), list)
    } else {
        over_stage(alloc, StageKind::Sync, wanted, true, list)
    }
}

// What the run may have made of all these.
fn reached(
    alloc: Global,
    walk: &Walk,
    machine: u32,
    side: Side,
    wanted: &Wanted,
    list: Vec<Standing>,
) -> Result<Vec<Standing>, NoMemory>
    ensures { IfOk result (λ next. Leads IsStanding (ReachPost (run_of walk.now.run.now) machine side (placed_value wanted.now)) list.items next.items) }
{
    let mut next = list;
    for visit in &walk.visits {
        next = over_visit(alloc, walk, visit, machine, side, wanted, &next)?;
    }
    Ok(next)
}

// Whether the stage of this number stops the machine.
fn is_stop(walk: &Walk, number: u32, machine: u32) -> bool
    ensures { result ≡ is_wave_of StageKind.Stop machine (stage_at (stages_of (run_of walk.now.run.now)) number) }
{
    match walk.stage(number) {
        Some(stage) => {
            same_kind(stage.kind, StageKind::Stop) && has(stage.machines.as_slice(), machine)
        }
        None => false,
    }
}

// Whether the machine's stop is skipped after this visit, where it was or wasn't before.
fn is_excused_after(walk: &Walk, visit: &Visit, machine: u32, before: bool) -> bool
    ensures { result ≡ (if is_wave_of StageKind.Stop machine (stage_at (stages_of (run_of walk.now.run.now)) visit.now.stage) then has_number (visit_of visit.now).excused machine else before) }
{
    if is_stop(walk, visit.stage, machine) {
        excuses(visit, machine)
    } else {
        before
    }
}

// Whether the machine's stop was skipped at last.
fn is_stop_excused(walk: &Walk, machine: u32) -> bool
    ensures { result ≡ is_excused machine (last_visit_of (run_of walk.now.run.now) (is_wave_of StageKind.Stop machine)) }
{
    let mut excused = false;
    for visit in &walk.visits {
        excused = is_excused_after(walk, visit, machine, excused);
    }
    excused
}

// The stage that does what the finished run means at the old side; Sync does nothing.
fn old_kind(op: Op, forced: bool) -> StageKind
    ensures { result ≡ old_kind op forced }
{
    match op {
        Op::Migrate => StageKind::Stop,
        Op::Failover => {
            if forced {
                StageKind::Sync
            } else {
                StageKind::Stop
            }
        }
        Op::Reprotect => StageKind::Clear,
        Op::Testing | Op::Cleanup => StageKind::Sync,
    }
}

// The same at the new side.
fn new_kind(op: Op) -> StageKind
    ensures { result ≡ new_kind op }
{
    match op {
        Op::Testing | Op::Migrate | Op::Failover => StageKind::Start,
        Op::Cleanup => StageKind::Clear,
        Op::Reprotect => StageKind::Sync,
    }
}

// The same at a side.
fn meant_kind(run: &Run, side: Side) -> StageKind
    ensures { result ≡ meant_kind (run_of run.now) side }
{
    if side == run.protected {
        old_kind(run.start.op, run.start.forced)
    } else {
        new_kind(run.start.op)
    }
}

// Whether that was surely done at the old side.
fn is_old_sure(walk: &Walk, machine: u32) -> bool
    ensures { let run = run_of walk.now.run.now in result ≡ is_old_sure (op run) run.start.forced run machine }
{
    match walk.run.start.op {
        Op::Failover => walk.run.start.forced || !is_stop_excused(walk, machine),
        _ => true,
    }
}

// Whether that was surely done at a side.
fn is_sure(walk: &Walk, machine: u32, side: Side) -> bool
    ensures { result ≡ is_sure (run_of walk.now.run.now) machine side }
{
    if side == walk.run.protected {
        return is_old_sure(walk, machine);
    }
    match walk.run.start.op {
        Op::Failover => !walk.is_left(machine),
        _ => true,
    }
}

// What the finished run means for all these.
fn meant(
    alloc: Global,
    walk: &Walk,
    machine: u32,
    side: Side,
    wanted: &Wanted,
    list: &[Standing],
) -> Result<Vec<Standing>, NoMemory>
    ensures { IfOk result (λ next. Leads IsStanding (MeansPost (run_of walk.now.run.now) machine side (placed_value wanted.now)) list.now next.items) }
{
    let kind = meant_kind(walk.run, side);
    over_stage(alloc, kind, wanted, is_sure(walk, machine, side), list)
}

// What a run leaves of all these.
fn left(
    alloc: Global,
    run: &Run,
    machine: u32,
    side: Side,
    wanted: &Wanted,
    list: Vec<Standing>,
) -> Result<Vec<Standing>, NoMemory>
    ensures { IfOk result (λ next. Leads IsStanding (LeavesPost (run_of run.now) machine side (placed_value wanted.now)) list.items next.items) }
{
    let walk = match Walk::new(alloc, run) {
        Ok(walk) => walk,
        Err(NoMemory) => return Err(NoMemory),
    };
    if run.is_finished() {
        meant(alloc, &walk, machine, side, wanted, &list)
    } else {
        reached(alloc, &walk, machine, side, wanted, list)
    }
}

// Where the machine runs at a side, in a bubble or outside, if the maps say it.
fn place_at(
    estate: &Estate,
    machine: u32,
    home: Side,
    side: Side,
    bubble: bool,
) -> Option<Placement>
    requires { IsSoundEstate estate.now }
    ensures { place_value result ≡ given (place_of estate.now machine home side bubble) }
{
    if machine as usize >= estate.machines.as_slice().len() {
        return None;
    }
    match place(estate, machine, home, side, bubble) {
        Ok(place) => Some(place),
        Err(_) => None,
    }
}

// The placement that the run wants for a machine of the group.
fn wanted_by(group: u32, run: &Run, machine: u32) -> Wanted
    requires { IsSoundEstate run.now.estate.now }
    ensures { placed_value result ≡ wanted group (run_of run.now) machine }
{
    let home = group_state(run.estate, group, &[]).protected;
    let bubble = matches!(run.start.op, Op::Testing);
    Wanted {
        place: place_at(run.estate, machine, home, run.protected.other(), bubble),
        bubble,
    }
}

// What a run leaves of all these, where it holds the group.
fn left_of_held(
    alloc: Global,
    group: u32,
    run: &Run,
    machine: u32,
    side: Side,
    list: Vec<Standing>,
) -> Result<Vec<Standing>, NoMemory>
    requires { IsSoundEstate run.now.estate.now }
    ensures { IfOk result (λ next. MatchBool (holds group (run_of run.now)) (Leads IsStanding (LeavesPost (run_of run.now) machine side (wanted group (run_of run.now) machine)) list.items next.items) (next.items ≡ list.items)) }
{
    if run.holds(group) {
        left(
            alloc,
            run,
            machine,
            side,
            &wanted_by(group, run, machine),
            list,
        )
    } else {
        Ok(list)
    }
}

// Before any run, where the first side is protected.
fn opening(protected: Side, side: Side) -> Standing
    ensures { (y : PostValue) → IsStanding result y ↔ IsOpeningPost protected side y }
{
    if side == protected {
        Standing::Ready(Spot::Opening)
    } else {
        Standing::Placeholder
    }
}

// All that the runs allow for a machine of the group at the side.
fn expected(
    alloc: Global,
    estate: &Estate,
    group: u32,
    machine: u32,
    side: Side,
    runs: &[Run],
) -> Result<Vec<Standing>, NoMemory>
    requires { All (λ run. IsSoundEstate run.estate.now) runs.now }
    ensures { IfOk result (λ list. Lists IsStanding (ExpectedPost estate.now group machine side (runs_told runs.now)) list.items) }
{
    let mut list = Vec::new(alloc);
    add(
        &mut list,
        &opening(group_state(estate, group, &[]).protected, side),
    )?;
    for run in runs {
        list = left_of_held(alloc, group, run, machine, side, list)?;
    }
    Ok(list)
}

// Whether a machine is placed as wanted.
fn is_wanted(wanted: &Wanted, placed: &Placed) -> bool
    ensures { IsTrue result ↔ (placed.now ≡ placed_value wanted.now) }
{
    match &wanted.place {
        Some(place) => placed.place == *place && placed.bubble == wanted.bubble,
        None => placed.place.network.bytes().is_empty(),
    }
}

// Whether a machine is placed so.
fn is_at(spot: &Spot, placed: &Placed) -> bool
    ensures { IsTrue result ↔ IsAt spot.now placed.now }
{
    match spot {
        Spot::Opening => !placed.bubble,
        Spot::At(wanted) => is_wanted(wanted, placed),
    }
}

// Whether a post stands so.
fn is_standing(standing: &Standing, post: &Post) -> bool
    ensures { IsTrue result ↔ IsStanding standing.now post.now }
{
    match (standing, post) {
        (Standing::Placeholder, Post::Placeholder) => true,
        (Standing::Off(spot), Post::Off(placed))
        | (Standing::On(spot), Post::On(placed))
        | (Standing::Ready(spot), Post::Ready(placed)) => is_at(spot, placed),
        _ => false,
    }
}

// Whether a post stands as one of these.
fn shows(list: &[Standing], post: &Post) -> bool
    ensures { IsTrue result ↔ HasItemFor IsStanding list.now post.now }
{
    let mut found = false;
    for standing in list {
        found = is_standing(standing, post) || found;
    }
    found
}

/// Whether the post is one that the runs allow for a machine of the group at the side.
pub fn expects_post(
    alloc: Global,
    estate: &Estate,
    group: u32,
    machine: u32,
    side: Side,
    runs: &[Run],
    post: &Post,
) -> Result<bool, NoMemory>
    requires { All (λ run. IsSoundEstate run.estate.now) runs.now }
    ensures { IfOk result (λ b. IsTrue b ↔ ExpectedPost estate.now group machine side (runs_told runs.now) post.now) }
{
    let list = expected(alloc, estate, group, machine, side, runs)?;
    Ok(shows(&list, post))
}
