ghost use Rattle.std.specs.Prelude.{◌≡◌, ◌≤◌, IfErr, IfOk};
ghost use Rattle.dr_base.specs.Causes.{Rose, one_more};
ghost use Rattle.dr_outside.specs.ExitCodes.{exit_code};
ghost use Rattle.dr_outside.specs.Runners.{RunnerCause};
ghost use Rattle.dr_lab.specs.Opening.{untold_runner};
ghost use Rattle.dr_lab.specs.Counting.{RunnerCounts};

use crate::kept_text::kept_now;
use crate::site_files::{code_kept, keep, runner_file};
use dr_base::{Failed, Name};
use dr_outside::{Runner, RunnerFail};
use std::rt::Files;

/// A runner that keeps the commands of plans that it ran in a file of the current folder. It counts
/// the calls that fail, and tells nothing of what it keeps.
///
/// Where there is no file it ran none. A file that isn't in the form is a fault of each call, and
/// stays as it is. A command named `exit-N`, N from 0 to 255 without leading zeros, gives the code
/// N; every other one gives 0.
#[derive(Debug, Drop)]
pub struct FileRunner<F> {
    rt: F,
    faults: u64,
}

impl<F: Files> FileRunner<F> {
    /// The runner of the current folder.
    pub fn new(rt: F) -> FileRunner<F>
        ensures { result.faults ≡ 0 }
    {
        FileRunner { rt, faults: 0 }
    }

    // Counts a fault.
    fn failed(&mut self) -> RunnerFail
        ensures answer { result ≡ RunnerFail.Failed }
        ensures count { self.new.faults ≡ one_more self.old.faults }
        ensures rose { Rose self.old.faults self.new.faults }
        ensures later { self.old.faults ≤ self.new.faults }
    {
        self.faults = self.faults.saturating_add(1);
        RunnerFail::Failed
    }
}

impl<F: Files> Runner for FileRunner<F> {
    ghost use Rattle.dr_lab.specs.Opening.{untold_runner};

    ghost tells = { ⊥ };

    ghost state = { λ runner. untold_runner runner.faults };

    ghost once = { λ runner told. absurd told };

    /// One reading of the file of kept commands.
    fn ran(&mut self, token: u64) -> Result<Option<u8>, RunnerFail>
        ensures only { IfErr result (λ e. e ≡ RunnerFail.Failed) }
        ensures cause { RunnerCause (untold_runner self.old.faults) (untold_runner self.new.faults) result }
        ensures count { RunnerCounts self.old.faults self.new.faults result }
    {
        match code_kept(&self.rt, &runner_file(), token) {
            Ok(code) => Ok(code),
            Err(Failed) => Err(self.failed()),
        }
    }

    fn call(&mut self, token: u64, name: Name) -> Result<u8, RunnerFail>
        ensures cause { RunnerCause (untold_runner self.old.faults) (untold_runner self.new.faults) result }
        ensures count { RunnerCounts self.old.faults self.new.faults result }
        ensures code { IfOk result (λ code. code ≡ exit_code name) }
    {
        let file = runner_file();
        match code_kept(&self.rt, &file, token) {
            Ok(Some(code)) => return Err(RunnerFail::Ran(code)),
            Ok(None) => {}
            Err(Failed) => return Err(self.failed()),
        }
        let kept = kept_now(token, name, None);
        match keep(&self.rt, &file, &kept) {
            Ok(()) => Ok(kept.code),
            Err(Failed) => Err(self.failed()),
        }
    }
}
