//! What is written is read again.

ghost use Rattle.std.specs.Prelude.{◌≡◌, Some};

use crate::kept_text::{read_kept, write_kept};
use crate::machine_text::{read_machine, write_machine};
use crate::pair_text::{read_pair, write_pair};
use dr_outside::{Kept, Pair, Post, Sides};

/// The pair that is read from a pair's text: the same one.
pub fn pair_again(pair: Pair) -> Option<Pair>
    ensures { result ≡ Some pair }
{
    read_pair(write_pair(&pair).as_slice())
}

/// The posts that are read from a machine's text: the same ones.
pub fn machine_again(sides: Sides<Post>) -> Option<Sides<Post>>
    ensures { result ≡ Some sides }
{
    read_machine(write_machine(&sides).as_slice())
}

/// The kept command that is read from its line: the same one.
pub fn kept_again(kept: Kept) -> Option<Kept>
    ensures { result ≡ Some kept }
{
    match read_kept(write_kept(&kept).as_slice()) {
        Some((found, _)) => Some(found),
        None => None,
    }
}
