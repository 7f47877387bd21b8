//! The codes of commands that ran, and the room for more.

ghost use Rattle.std.specs.Prelude.{◌≡◌, ◌≤◌, ◌==◌, max, if◌then◌else◌, OnOk, OnErr, IsOk};
ghost use Rattle.dr_outside.specs.Commands.{code_of};
ghost use Rattle.dr_sim.specs.Commands.{no_codes, with_code, codes_after, answer_of};

use dr_base::{Name, NoMemory, Side};
use dr_outside::{Kept, RunnerFail, exit_code};
use std::alloc::Global;
use std::marker::Model;

/// The codes that are kept, in the order in which their commands ran.
#[derive(Drop)]
pub struct KeptCodes {
    kept: Vec<Kept>,
    // For how many more memory was taken.
    room: u32,
}

impl Model for KeptCodes {
    ghost use Rattle.std.specs.Prelude.{◌+◌, ◌≤◌, vec_len, vec_capacity};
    ghost use Rattle.dr_sim.specs.Commands.{Codes};

    ghost Value = { Codes };

    ghost view = { λ codes. record { kept = codes.kept.items; room = codes.room } };

    ghost invariant = { λ codes. vec_len codes.kept + codes.room ≤ vec_capacity codes.kept };
}

impl KeptCodes {
    /// None, and no room.
    pub fn new(alloc: Global) -> KeptCodes
        ensures { result ≡ no_codes }
    {
        KeptCodes {
            kept: Vec::new(alloc),
            room: 0,
        }
    }

    /// What is kept.
    pub fn kept(&self) -> &[Kept]
        ensures { result.now ≡ self.now.kept }
    {
        &self.kept
    }

    /// The code that is kept for a token.
    pub fn code_of(&self, token: u64) -> Option<u8>
        ensures { result ≡ code_of self.now.kept token }
    {
        Kept::code_of(&self.kept, token)
    }

    /// Takes room for so many codes more than are kept, unless there is as much.
    pub fn take_room(&mut self, tokens: u32) -> Result<(), NoMemory>
        ensures ok { OnOk result (self.new ≡ record self.old { room = max self.old.room tokens }) }
        ensures err { OnErr result (self.new ≡ self.old) }
        ensures there { tokens ≤ self.old.room → IsOk result }
    {
        if tokens <= self.room {
            return Ok(());
        }
        self.kept.reserve(tokens as usize)?;
        self.room = tokens;
        Ok(())
    }

    // Keeps one more, where there is room.
    fn keep(&mut self, one: Kept)
        ensures { self.new ≡ (if self.old.room == 0 then self.old else with_code one self.old) }
    {
        if self.room == 0 {
            return;
        }
        self.room -= 1;
        // There is room, so that it doesn't fail.
        let _ = self.kept.push(one);
    }

    /// One call of a command. `fault` is what it leaves if it is to fail: 0 as before, and else as
    /// done.
    pub fn call(
        &mut self,
        fault: Option<u8>,
        side: Option<Side>,
        token: u64,
        name: Name,
    ) -> Result<u8, RunnerFail>
        ensures answer { result ≡ answer_of fault token name self.old }
        ensures left { self.new ≡ codes_after fault side token name self.old }
    {
        let kept = self.code_of(token);
        let code = exit_code(&name);
        let full = self.room == 0;
        if kept.is_none() && fault != Some(0) {
            self.keep(Kept {
                token,
                code,
                name,
                side,
            });
        }
        match (fault, kept) {
            (Some(_), _) => Err(RunnerFail::Failed),
            (None, Some(code)) => Err(RunnerFail::Ran(code)),
            (None, None) if full => Err(RunnerFail::Failed),
            (None, None) => Ok(code),
        }
    }
}
