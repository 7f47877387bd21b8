//! Random numbers of a fixed seed.

ghost use Rattle.std.specs.Prelude.{◌<◌};

use dr_base::{Name, Side};
use rand_core::utils::NextWord;
use rand_pcg::Pcg32;

/// How many sequences of calls are tried, and how many calls each has.
pub const SEQUENCES: u32 = 1_000;

pub const CALLS: u32 = 30;

/// A stream of random numbers.
#[derive(Drop)]
pub struct Random {
    words: Pcg32,
}

impl Random {
    /// The stream of this seed.
    pub fn new(seed: u64) -> Random {
        Random {
            words: Pcg32::new(seed, 54),
        }
    }

    /// A number below this one.
    pub fn below(&mut self, bound: u32) -> u32
        requires { 0 < bound }
        ensures { result < bound }
    {
        self.words.next_word() % bound
    }

    /// A side.
    pub fn side(&mut self) -> Side {
        if self.below(2) == 0 { Side::A } else { Side::B }
    }

    /// One of a few tokens.
    pub fn token(&mut self) -> u64 {
        4_294_967_296 + self.below(12) as u64
    }

    /// The name of a command.
    pub fn command(&mut self) -> Option<Name> {
        let name: &[u8] = match self.below(5) {
            0 => b"warm",
            1 => b"exit-7",
            2 => b"exit-255",
            3 => b"exit-256",
            _ => b"exit-007",
        };
        Name::read(name)
    }
}
