ghost use Rattle.std.specs.Prelude.{◌≡◌, IfErr};
ghost use Rattle.dr_outside.specs.Commands.{HasTokensOnce};
ghost use Rattle.dr_outside.specs.Runners.{RunnerState, RunnerCause, RanRead, CallStep};
ghost use Rattle.dr_outside.specs.declared.runner.RunnerFail.TheVariants.{Failed};

use dr_base::Name;

/// Why a call of the runner was refused.
#[derive(Clone, Copy, Debug, PartialEq, Eq)]
pub enum RunnerFail {
    /// It failed.
    Failed,
    /// The command ran before, with this code.
    Ran(u8),
}

/// What runs the commands of plans. What is said of kept codes holds where the runner tells them;
/// what is said of its count always holds.
pub trait Runner {
    /// Whether it tells its kept codes.
    ghost tells: { Type 0 };

    /// Its kept codes and faults.
    ghost state: { Self → RunnerState };

    /// Where it tells its codes, it keeps one for a token.
    ghost once: { (runner : Self) → tells → HasTokensOnce (state runner).kept };

    /// The code that is kept for a token.
    fn ran(&mut self, token: u64) -> Result<Option<u8>, RunnerFail>
        ensures only { IfErr result (λ e. e ≡ Failed) }
        ensures cause { RunnerCause (state self.old) (state self.new) result }
        ensures step { tells → RanRead token (state self.old) (state self.new) result };

    /// Runs a command and keeps its code under the token, unless one is kept already. A failed call
    /// leaves the state before or after it.
    fn call(&mut self, token: u64, name: Name) -> Result<u8, RunnerFail>
        ensures cause { RunnerCause (state self.old) (state self.new) result }
        ensures step { tells → CallStep token name (state self.old) (state self.new) result };
}
