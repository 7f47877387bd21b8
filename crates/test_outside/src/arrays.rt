//! What tests ask of every array, and the halves that they expect.

use dr_base::Side;
use dr_outside::{
    Array, ArrayCall, ArrayFail, Content, Half, Link, Snapshot, call_array, is_pair_list,
};

// Whether a call on a list gives this answer.
fn answers<A: Array>(
    array: &mut A,
    call: ArrayCall,
    list: &[u32],
    answer: &Result<(), ArrayFail>,
) -> bool {
    is_pair_list(array.pairs(), list) && call_array(array, call, list) == *answer
}

/// Whether a call on a list ends well.
pub fn does<A: Array>(array: &mut A, call: ArrayCall, list: &[u32]) -> bool {
    answers(array, call, list, &Ok(()))
}

/// Whether a call on a list fails at this side.
pub fn fails<A: Array>(array: &mut A, call: ArrayCall, list: &[u32], side: Side) -> bool {
    answers(array, call, list, &Err(ArrayFail::Failed(side)))
}

/// Whether a call on a list is refused by this pair, whose target is so.
pub fn refuses<A: Array>(
    array: &mut A,
    call: ArrayCall,
    list: &[u32],
    pair: u32,
    half: &Half,
) -> bool {
    answers(array, call, list, &Err(ArrayFail::Wrong(pair, *half)))
}

// Whether a reading of a pair at a side gives this answer.
fn reads<A: Array>(array: &mut A, pair: u32, side: Side, answer: &Result<Half, ArrayFail>) -> bool {
    pair < array.pairs() && array.pair(pair, side) == *answer
}

/// Whether a pair is so at a side.
pub fn shows<A: Array>(array: &mut A, pair: u32, side: Side, half: &Half) -> bool {
    reads(array, pair, side, &Ok(*half))
}

/// Whether a reading of a pair fails at its side.
pub fn reading_fails<A: Array>(array: &mut A, pair: u32, side: Side) -> bool {
    reads(array, pair, side, &Err(ArrayFail::Failed(side)))
}

/// The target of a live pair of source A that isn't writable.
pub fn target(line: u32, base: u64, writes: u64) -> Half {
    Half {
        source: Side::A,
        link: Link::Live,
        writable: false,
        content: Content { line, base, writes },
        snapshot: None,
    }
}

/// A half that is writable.
pub fn writable(half: Half) -> Half {
    Half {
        writable: true,
        ..half
    }
}

/// A half of a pair with a snapshot of this run, which has the half's content.
pub fn tested(run: u32, half: Half) -> Half {
    Half {
        snapshot: Some(Snapshot {
            run,
            content: half.content,
        }),
        ..half
    }
}

/// A half of a split pair.
pub fn split(half: Half) -> Half {
    Half {
        link: Link::Split,
        ..half
    }
}

/// A half of a pair of source B.
pub fn from_b(half: Half) -> Half {
    Half {
        source: Side::B,
        ..half
    }
}
