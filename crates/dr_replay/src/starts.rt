//! Whether a Start may come.

ghost use Rattle.std.specs.Prelude.{List, ℕ, ◌≡◌, ◌≢◌, ◌+◌, ◌==◌, ◌↔◌, IsTrue, IsSomeAnd, length, map, true, false, slice_get, option_map};
ghost use Rattle.std.specs.List.{AllByRecursion, list_all, zip};
ghost use Rattle.dr_meaning.specs.Types.{Plan as PlanValue, Record};
ghost use Rattle.dr_meaning.specs.Runs.{holds, is_open, number, group_state, protected_side};
ghost use Rattle.dr_meaning.specs.Lawful.{StartsFrom, takes_over, is_taken_over, over_for, is_over_test, SeenFor, IsPairRow, AreFree, MayStart, MayCome};
ghost use Rattle.dr_replay.specs.Values.{run_of, runs_told, in_force};

use crate::Run;
use crate::groups::{group_state, protected_side};
use dr_base::{GroupState, Name, Op, Phase, Side};
use dr_inventory::Estate;
use dr_plan::Plan;
use dr_records::{StartPair, StartRow};

// Whether the run counts on from these.
fn is_numbered(run: u32, runs: &[Run]) -> bool
    ensures { IsTrue result ↔ run ≡ length (runs_told runs.now) + 1 }
{
    run > 0 && (run - 1) as usize == runs.len()
}

// Whether the names differ.
fn differ(a: &Name, b: &Name) -> bool
    ensures { IsTrue result ↔ a.now ≢ b.now }
{
    *a != *b
}

// Whether no run has the id.
fn is_new_id(id: &Name, runs: &[Run]) -> bool
    ensures { IsTrue result ↔ AllByRecursion (λ run. run.start.id ≢ id.now) (runs_told runs.now) }
{
    let mut new = true;
    for run in runs {
        new = differ(&run.start.id, id) && new;
    }
    new
}

// Whether only a failover is forced.
fn may_force(forced: bool, op: Op) -> bool
    ensures { IsTrue result ↔ (forced ≡ true → op ≡ Op.Failover) }
{
    !forced || matches!(op, Op::Failover)
}

// Whether the groups are the plan's.
fn names_groups(row: &StartRow, plan: &Plan) -> bool
    ensures { IsTrue result ↔ row.now.groups ≡ plan.now.groups }
{
    row.groups.as_slice() == plan.groups.as_slice()
}

// Whether the rows are those of these pairs, as far as both go.
fn agree(rows: &[StartPair], pairs: &[u32]) -> bool
    ensures { result ≡ list_all (λ p. p.0.pair == p.1) (zip rows.now pairs.now) }
{
    rows.iter().zip(pairs).all(|(row, pair)| row.pair == *pair)
}

// Whether the pairs are the plan's.
fn names_pairs(row: &StartRow, plan: &Plan) -> bool
    ensures { IsTrue result ↔ map (λ p. p.pair) row.now.pairs ≡ plan.now.pairs }
{
    let rows = row.pairs.as_slice();
    let pairs = plan.pairs.as_slice();
    rows.len() == pairs.len() && agree(rows, pairs)
}

// Whether the old side is read for a pair as the operation wants.
fn is_seen_for(op: Op, forced: bool, seen: bool) -> bool
    ensures { IsTrue result ↔ SeenFor op forced seen }
{
    match op {
        Op::Testing | Op::Migrate => seen,
        Op::Failover => !(forced && seen),
        Op::Cleanup | Op::Reprotect => !seen,
    }
}

// Whether a pair is read as the operation wants, and has no old writes where the old side isn't read.
fn is_pair_row(row: &StartRow, pair: StartPair) -> bool
    ensures { IsTrue result ↔ IsPairRow row.now pair }
{
    is_seen_for(row.op, row.forced, pair.seen) && (pair.seen || pair.old_writes == 0)
}

// Whether each pair is so.
fn are_pair_rows(row: &StartRow) -> bool
    ensures { IsTrue result ↔ AllByRecursion (IsPairRow row.now) row.now.pairs }
{
    let mut all = true;
    for pair in row.pairs.as_slice() {
        all = is_pair_row(row, *pair) && all;
    }
    all
}

// Whether an operation takes over an open run of the other.
fn takes_over(op: Op, other: Op) -> bool
    ensures { result ≡ takes_over op other }
{
    matches!(
        (op, other),
        (Op::Cleanup, Op::Testing) | (Op::Failover, Op::Migrate)
    )
}

// Whether the Start takes the run over.
fn is_taken_over(row: &StartRow, run: &Run) -> bool
    ensures { result ≡ is_taken_over row.now (run_of run.now) }
{
    run.is_open() && takes_over(row.op, run.start.op) && run.start.plan == row.plan
}

// The run that the Start takes over, or 0.
fn over_for(row: &StartRow, runs: &[Run]) -> u32
    ensures { result ≡ over_for row.now (runs_told runs.now) }
{
    let mut over = 0;
    for run in runs {
        if is_taken_over(row, run) {
            over = run.start.run;
        }
    }
    over
}

// Whether the run holds none of the groups.
fn holds_none(run: &Run, groups: &[u32]) -> bool
    ensures { IsTrue result ↔ AllByRecursion (λ g. holds g (run_of run.now) ≡ false) groups.now }
{
    let mut none = true;
    for group in groups {
        none = !run.holds(*group) && none;
    }
    none
}

// Whether the run leaves the groups free: it isn't open, is taken over, or holds none of them.
fn leaves_free(run: &Run, row: &StartRow) -> bool
    ensures { IsTrue result ↔ (is_open (run_of run.now) ≡ true → number (run_of run.now) ≢ row.now.over → AllByRecursion (λ g. holds g (run_of run.now) ≡ false) row.now.groups) }
{
    !run.is_open() || run.start.run == row.over || holds_none(run, row.groups.as_slice())
}

// Whether no open run holds a group of these but the one that is taken over.
fn are_free(runs: &[Run], row: &StartRow) -> bool
    ensures { IsTrue result ↔ AreFree (runs_told runs.now) row.now.over row.now.groups }
{
    let mut free = true;
    for run in runs {
        free = leaves_free(run, row) && free;
    }
    free
}

// Whether an operation of the plan starts from the state.
fn starts_from(op: Op, plan: u32, state: GroupState) -> bool
    ensures { IsTrue result ↔ StartsFrom op plan state }
{
    match op {
        Op::Testing | Op::Migrate | Op::Failover => matches!(state.phase, Phase::Ready),
        Op::Cleanup => matches!(state.phase, Phase::Tested) && state.plan == plan,
        Op::Reprotect => matches!(state.phase, Phase::Recovered) && state.plan == plan,
    }
}

// Whether a Start is that of a cleanup that takes over a test, which may stand in any phase.
fn is_over_test(op: Op, over: u32) -> bool
    ensures { result ≡ is_over_test op over }
{
    matches!(op, Op::Cleanup) && over != 0
}

// Whether each group of the Start is in a state from which it starts.
fn all_start_from(estate: &Estate, runs: &[Run], row: &StartRow) -> bool
    ensures { IsTrue result ↔ AllByRecursion (λ g. StartsFrom row.now.op row.now.plan (group_state estate.now g (runs_told runs.now))) row.now.groups }
{
    let mut all = true;
    for group in row.groups.as_slice() {
        all = starts_from(row.op, row.plan, group_state(estate, *group, runs)) && all;
    }
    all
}

// Whether the phases of the groups let the Start come.
fn have_phases(estate: &Estate, runs: &[Run], row: &StartRow) -> bool
    ensures { IsTrue result ↔ (is_over_test row.now.op row.now.over ≡ false → AllByRecursion (λ g. StartsFrom row.now.op row.now.plan (group_state estate.now g (runs_told runs.now))) row.now.groups) }
{
    is_over_test(row.op, row.over) || all_start_from(estate, runs, row)
}

// Whether the sides are one.
fn is_same_side(a: Side, b: Side) -> bool
    ensures { IsTrue result ↔ a ≡ b }
{
    matches!((a, b), (Side::A, Side::A) | (Side::B, Side::B))
}

// Whether all groups are protected at this side.
fn are_protected_at(estate: &Estate, runs: &[Run], groups: &[u32], side: Side) -> bool
    ensures { IsTrue result ↔ AllByRecursion (λ g. (group_state estate.now g (runs_told runs.now)).protected ≡ side) groups.now }
{
    let mut all = true;
    for group in groups {
        all = is_same_side(group_state(estate, *group, runs).protected, side) && all;
    }
    all
}

// Whether all groups are protected at the side of the first.
fn are_on_one_side(estate: &Estate, runs: &[Run], row: &StartRow) -> bool
    ensures { (plans : List PlanValue) → IsTrue result ↔ AllByRecursion (λ g. (group_state estate.now g (runs_told runs.now)).protected ≡ protected_side (in_force estate.now plans) row.now.groups (runs_told runs.now)) row.now.groups }
{
    let groups = row.groups.as_slice();
    are_protected_at(estate, runs, groups, protected_side(estate, groups, runs))
}

// Whether a Start of this plan may come.
fn may_start_of(estate: &Estate, plan: &Plan, runs: &[Run], row: &StartRow) -> bool
    ensures { (plans : List PlanValue) → IsTrue result ↔ MayStart (in_force estate.now plans) (runs_told runs.now) row.now plan.now }
{
    if !is_numbered(row.run, runs) {
        return false;
    }
    if !is_new_id(&row.id, runs) {
        return false;
    }
    if !may_force(row.forced, row.op) {
        return false;
    }
    if !names_groups(row, plan) {
        return false;
    }
    if !names_pairs(row, plan) {
        return false;
    }
    if !are_pair_rows(row) {
        return false;
    }
    if row.over != over_for(row, runs) {
        return false;
    }
    if !are_free(runs, row) {
        return false;
    }
    if !have_phases(estate, runs, row) {
        return false;
    }
    are_on_one_side(estate, runs, row)
}

// The plan of this number, where there is one.
fn plan_at(plans: &[Plan], number: u32) -> Option<&Plan>
    ensures { option_map (λ plan. plan.now) result ≡ slice_get plans.now number }
{
    plans.get(number as usize)
}

/// Whether the Start may come after the records that make these runs.
pub fn may_start(estate: &Estate, plans: &[Plan], runs: &[Run], row: &StartRow) -> bool
    ensures { IsTrue result ↔ MayCome (in_force estate.now plans.now) (runs_told runs.now) (Record.Start row.now) }
{
    match plan_at(plans, row.plan) {
        Some(plan) => may_start_of(estate, plan, runs, row),
        None => false,
    }
}
