ghost use Rattle.std.specs.Prelude.{◌≡◌, ◌≤◌, ◌==◌, false, max, IfErr, OnOk, OnErr, IsOk};
ghost use Rattle.dr_outside.specs.declared.runner.RunnerFail.TheVariants.{Failed};
ghost use Rattle.dr_outside.specs.Commands.{code_of};
ghost use Rattle.dr_outside.specs.Runners.{RunnerCause, RanRead, CallStep};
ghost use Rattle.dr_sim.specs.Commands.{answer_of};
ghost use Rattle.dr_sim.specs.Meters.{fuse_of};
ghost use Rattle.dr_sim.specs.Runners.{new_runner, state_of, each_once, next_fault, after_reading, reading, after_command, IsQuiet};

use crate::faults::{PortFault, port_fault};
use crate::kept_codes::KeptCodes;
use crate::meter::Meter;
use dr_base::{Name, NoMemory};
use dr_outside::{Kept, Runner, RunnerFail};
use std::alloc::Global;
use std::marker::Model;

/// A runner of plans' commands in memory. Its calls happen at once, and fail where that is listed or
/// once its fuse is spent. All its calls are counted together, from 1, readings included.
///
/// A command named `exit-N`, with N from 0 to 255 and no zero in front, has the code N, and every
/// other one 0. A command that would be kept and finds no room for that fails.
#[derive(Drop)]
pub struct SimRunner {
    codes: KeptCodes,
    meter: Meter,
    faults: Vec<PortFault>,
    count: u64,
}

impl Model for SimRunner {
    ghost use Rattle.dr_sim.specs.Runners.{SimRunnerState};

    ghost Value = { SimRunnerState };

    ghost view = { λ runner. record { codes = runner.codes; meter = runner.meter; faults = runner.faults.items; count = runner.count } };
}

impl SimRunner {
    /// A runner that keeps no code. `faults` lists the calls that are to fail; of several for one
    /// call the first counts. There is no fuse, and no room for codes.
    pub fn new(faults: Vec<PortFault>) -> SimRunner
        ensures { result ≡ new_runner faults.items }
    {
        SimRunner {
            codes: KeptCodes::new(*faults.allocator()),
            meter: Meter::new(),
            faults,
            count: 0,
        }
    }

    /// After so many further calls every call fails and leaves all as before; the greatest number
    /// mends it.
    pub fn fuse(&mut self, calls: u64)
        ensures { self.new ≡ record self.old { meter = record self.old.meter { fuse = fuse_of calls } } }
    {
        self.meter.set_fuse(calls);
    }

    /// Takes room for the codes of so many further commands, unless there is as much. Without memory
    /// it leaves all as before.
    pub fn room(&mut self, _alloc: Global, tokens: u32) -> Result<(), NoMemory>
        ensures ok { OnOk result (self.new ≡ record self.old { codes = record self.old.codes { room = max self.old.codes.room tokens } }) }
        ensures err { OnErr result (self.new ≡ self.old) }
        ensures there { tokens ≤ self.old.codes.room → IsOk result }
    {
        self.codes.take_room(tokens)
    }

    /// The commands whose codes are kept, each without a side, in the order in which they ran. It
    /// counts as no call.
    pub fn kept(&self) -> &[Kept]
        ensures { result.now ≡ self.now.codes.kept }
    {
        self.codes.kept()
    }

    // One reading, told exactly.
    fn read_exactly(&mut self, token: u64) -> Result<Option<u8>, RunnerFail>
        ensures answer { result ≡ reading (next_fault self.old) (code_of self.old.codes.kept token) }
        ensures left { self.new ≡ after_reading self.old }
        ensures later { self.old.count ≤ self.new.count }
    {
        let fault = port_fault(&self.meter, &self.faults);
        self.meter.count();
        if fault.is_some() {
            self.count = self.count.saturating_add(1);
            return Err(RunnerFail::Failed);
        }
        Ok(self.codes.code_of(token))
    }

    // One command, told exactly.
    fn call_exactly(&mut self, token: u64, name: Name) -> Result<u8, RunnerFail>
        ensures answer { result ≡ answer_of (next_fault self.old) token name self.old.codes }
        ensures left { self.new ≡ after_command token name self.old }
        ensures later { self.old.count ≤ self.new.count }
    {
        let fault = port_fault(&self.meter, &self.faults);
        self.meter.count();
        let answer = self.codes.call(fault, None, token, name);
        if answer == Err(RunnerFail::Failed) {
            self.count = self.count.saturating_add(1);
        }
        answer
    }
}

impl Runner for SimRunner {
    ghost tells = { Unit {0} };

    ghost state = { state_of };

    ghost once = { λ runner told. each_once runner };

    fn ran(&mut self, token: u64) -> Result<Option<u8>, RunnerFail>
        ensures only { IfErr result (λ e. e ≡ Failed) }
        ensures cause { RunnerCause (state_of self.old) (state_of self.new) result }
        ensures step { RanRead token (state_of self.old) (state_of self.new) result }
        ensures answer { result ≡ reading (next_fault self.old) (code_of self.old.codes.kept token) }
        ensures left { self.new ≡ after_reading self.old }
        ensures quiet { IsQuiet self.old → self.new.count ≡ self.old.count }
    {
        self.read_exactly(token)
    }

    fn call(&mut self, token: u64, name: Name) -> Result<u8, RunnerFail>
        ensures cause { RunnerCause (state_of self.old) (state_of self.new) result }
        ensures step { CallStep token name (state_of self.old) (state_of self.new) result }
        ensures answer { result ≡ answer_of (next_fault self.old) token name self.old.codes }
        ensures left { self.new ≡ after_command token name self.old }
        ensures quiet { IsQuiet self.old → (self.old.codes.room == 0) ≡ false → self.new.count ≡ self.old.count }
    {
        self.call_exactly(token, name)
    }
}
