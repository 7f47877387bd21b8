ghost use Rattle.std.specs.Prelude.{◌≡◌, IfErr};
ghost use Rattle.dr_outside.specs.Commands.{HasTokensOnce};
ghost use Rattle.dr_outside.specs.Machines.{PortState, PortStep, PortRead, PortCause, RanRead, CommandStep, NeverRan, NeverWrong};
ghost use Rattle.dr_outside.specs.declared.machine.PortCall.TheVariants.{Register, Start, Stop, Unregister};
ghost use Rattle.dr_outside.specs.declared.machine.PortFail.TheVariants.{Failed};

use crate::{PortFail, Post};
use dr_base::{Name, Placement, Side};

/// One machine. What is said of posts and kept codes holds where the port tells them; what is said
/// of counts always holds.
///
/// Unless it fails, a call is refused exactly where the post isn't as it needs it; then nothing
/// changes, and so it is where such a call fails. Another failed call leaves the state before or
/// after it. No call touches the other side's post.
pub trait Port {
    /// Whether it tells its posts and kept codes.
    ghost tells: { Type 0 };

    /// Its posts, kept codes and faults.
    ghost state: { Self → PortState };

    /// Where it tells its codes, it keeps one for a token.
    ghost once: { (port : Self) → tells → HasTokensOnce (state port).kept };

    /// How the machine stands at a side.
    fn post(&mut self, side: Side) -> Result<Post, PortFail>
        ensures only { IfErr result (λ e. e ≡ Failed) }
        ensures cause { PortCause side (state self.old) (state self.new) result }
        ensures step { tells → PortRead side (state self.old) (state self.new) result };

    /// Registers a placeholder, turned off, with this placement, in a bubble or not.
    fn register(&mut self, side: Side, place: Placement, bubble: bool) -> Result<(), PortFail>
        ensures only { NeverRan result }
        ensures cause { PortCause side (state self.old) (state self.new) result }
        ensures step { tells → PortStep (Register (record { place = place; bubble = bubble })) side
            (state self.old) (state self.new) result };

    /// Starts a machine that is off or on, and waits until it answers. A failed start leaves it
    /// off, on or ready.
    fn start(&mut self, side: Side) -> Result<(), PortFail>
        ensures only { NeverRan result }
        ensures cause { PortCause side (state self.old) (state self.new) result }
        ensures step { tells → PortStep Start side (state self.old) (state self.new) result };

    /// Turns off a machine that is on or ready.
    fn stop(&mut self, side: Side) -> Result<(), PortFail>
        ensures only { NeverRan result }
        ensures cause { PortCause side (state self.old) (state self.new) result }
        ensures step { tells → PortStep Stop side (state self.old) (state self.new) result };

    /// Makes a machine that is off a placeholder.
    fn unregister(&mut self, side: Side) -> Result<(), PortFail>
        ensures only { NeverRan result }
        ensures cause { PortCause side (state self.old) (state self.new) result }
        ensures step { tells → PortStep Unregister side (state self.old) (state self.new) result };

    /// The code that is kept for a token.
    fn ran(&mut self, side: Side, token: u64) -> Result<Option<u8>, PortFail>
        ensures only { IfErr result (λ e. e ≡ Failed) }
        ensures cause { PortCause side (state self.old) (state self.new) result }
        ensures step { tells → RanRead token (state self.old) (state self.new) result };

    /// Runs a command and keeps its code under the token, unless one is kept already.
    fn command(&mut self, side: Side, token: u64, name: Name) -> Result<u8, PortFail>
        ensures only { NeverWrong result }
        ensures cause { PortCause side (state self.old) (state self.new) result }
        ensures step { tells → CommandStep side token name (state self.old) (state self.new) result };
}
