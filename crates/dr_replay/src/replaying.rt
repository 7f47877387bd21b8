//! Which record may come, and which of a journal's records may not.

ghost use Rattle.std.specs.Prelude.{◌≡◌, ◌↔◌, [], None, IsTrue, IfOk, IfSome};
ghost use Rattle.dr_meaning.specs.Lawful.{MayCome, LawfulAfter};
ghost use Rattle.dr_replay.specs.Replays.{IsFirstUnlawful};
ghost use Rattle.dr_replay.specs.Values.{in_force, runs_told};

use crate::lawful::may_follow;
use crate::{Run, add_record, may_start};
use dr_base::NoMemory;
use dr_inventory::Estate;
use dr_plan::Plan;
use dr_records::Record;
use std::alloc::Global;

/// Whether the record may come after those that make these runs.
pub fn may_come(
    alloc: Global,
    estate: &Estate,
    plans: &[Plan],
    runs: &[Run],
    item: &Record,
) -> Result<bool, NoMemory>
    ensures { IfOk result (λ b. IsTrue b ↔ MayCome (in_force estate.now plans.now) (runs_told runs.now) item.now) }
{
    match item {
        Record::Start(row) => Ok(may_start(estate, plans, runs, row)),
        _ => may_follow(alloc, runs, item),
    }
}

/// The place of the first record that may not come after those before it. `None` where each of them
/// may.
pub fn first_unlawful<'a>(
    alloc: Global,
    estate: &'a Estate,
    plans: &'a [Plan],
    records: &'a [Record],
) -> Result<Option<usize>, NoMemory>
    ensures lawful { IfOk result (λ place. (place ≡ None) ↔ LawfulAfter (in_force estate.now plans.now) [] records.now) }
    ensures first { IfOk result (λ place. IfSome place (IsFirstUnlawful (in_force estate.now plans.now) records.now)) }
{
    let mut runs = Vec::new(alloc);
    for (i, item) in records.iter().enumerate() {
        if !may_come(alloc, estate, plans, &runs, item)? {
            return Ok(Some(i));
        }
        add_record(alloc, estate, plans, &mut runs, item)?;
    }
    Ok(None)
}
