ghost use Rattle.std.specs.Prelude.{◌≡◌, ◌↔◌, ℕ, ◌<◌, true, IsTrue, length, MatchOption, if◌then◌else◌};
ghost use Rattle.dr_outside.specs.Pairs.{is_fit, made, half, target};
ghost use Rattle.dr_base.specs.Lists.{has};
ghost use Rattle.dr_outside.specs.Arrays.{IsPairList, IsFirstUnfit};
ghost use Rattle.dr_outside.specs.PairLists.{pair_at};

use crate::{ArrayCall, Half, Pair};

/// Whether a list may be given to an array of so many pairs: each is there, and they ascend.
pub fn is_pair_list(count: u32, list: &[u32]) -> bool
    ensures { IsTrue result ↔ IsPairList count list.now }
{
    for i in 0..list.len() {
        if list[i] >= count || (i > 0 && list[i - 1] >= list[i]) {
            return false;
        }
    }
    true
}

/// The first pair of the list that isn't as the call needs it.
pub fn first_unfit(call: ArrayCall, pairs: &[Pair], list: &[u32]) -> Option<u32>
    requires { IsPairList (length pairs.now) list.now }
    ensures { MatchOption result
        ((j : ℕ) → has list.now j ≡ true → is_fit call (pair_at pairs.now j) ≡ true)
        (λ k. IsFirstUnfit call list.now (pair_at pairs.now) k) }
{
    for k in list {
        if !pairs[*k as usize].is_fit_for(call) {
            return Some(*k);
        }
    }
    None
}

/// Makes each pair of the list.
pub fn make_all(call: ArrayCall, pairs: &mut [Pair], list: &[u32])
    requires { IsPairList (length pairs.old) list.now }
    ensures { (i : ℕ) → pair_at pairs.new i ≡
        (if has list.now i then made call (pair_at pairs.old i) else pair_at pairs.old i) }
{
    for k in list {
        let place = *k as usize;
        pairs[place] = pairs[place].after(call);
    }
}

/// The pair of this number as its target shows it.
pub fn target_half(pairs: &[Pair], k: u32) -> Half
    requires { k < length pairs.now }
    ensures { result ≡ half (target (pair_at pairs.now k)) (pair_at pairs.now k) }
{
    let pair = &pairs[k as usize];
    pair.shown_at(pair.source.other())
}
