ghost use Rattle.std.specs.Prelude.{◌≡◌, IfSome, IfNone};
ghost use Rattle.dr_base.specs.Causes.{Rose};
ghost use Rattle.dr_outside.specs.BySide.{at};
ghost use Rattle.dr_outside.specs.Machines.{SameMachine};
ghost use Rattle.dr_wave.specs.Steps.{NoCountFalls, LookCause, LookTold};

use crate::Found;
use dr_base::Side;
use dr_outside::{Port, Post};

// How a machine stands at a side. None where the call failed.
fn post_at<P: Port>(port: &mut P, side: Side) -> Option<Post>
    ensures later { NoCountFalls (P.state port.old) (P.state port.new) }
    ensures rose { IfNone result (Rose ((P.state port.old).faults side) ((P.state port.new).faults side)) }
    ensures same { P.tells → SameMachine (P.state port.old) (P.state port.new) }
    ensures told { P.tells → IfSome result (λ post. post ≡ at side (P.state port.old).post) }
{
    match port.post(side) {
        Ok(post) => Some(post),
        Err(_) => None,
    }
}

/// How a machine stands at both sides.
pub(crate) fn look_at<P: Port>(port: &mut P) -> Found
    ensures later { NoCountFalls (P.state port.old) (P.state port.new) }
    ensures cause { LookCause (P.state port.old) (P.state port.new) result }
    ensures same { P.tells → SameMachine (P.state port.old) (P.state port.new) }
    ensures told { P.tells → LookTold (P.state port.old) result }
{
    let a = post_at(port, Side::A);
    let b = post_at(port, Side::B);
    Found::Looked(a, b)
}
