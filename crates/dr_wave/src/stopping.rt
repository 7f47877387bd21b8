ghost use Rattle.std.specs.Prelude.{◌≡◌, IfErr};
ghost use Rattle.dr_outside.specs.declared.machine.Post.TheVariants.{Placeholder};
ghost use Rattle.dr_outside.specs.BySide.{at};
ghost use Rattle.dr_meaning.specs.declared.stage.StageKind.TheVariants.{Stop, Clear};
ghost use Rattle.dr_meaning.specs.Outcomes.{stopped};
ghost use Rattle.dr_wave.specs.Steps.{NoCountFalls, EndCause, PostCause, PostLeaves, PostTold};
ghost use Rattle.dr_wave.specs.Parts.{Makes};

use crate::Found;
use crate::answers::call_end;
use dr_base::Side;
use dr_outside::{Port, Post};

// Turns a machine off that is on or ready.
fn turn_off<P: Port>(port: &mut P, side: Side, post: &Post) -> Result<(), Found>
    requires { P.tells → at side (P.state port.old).post ≡ post.now }
    ensures later { NoCountFalls (P.state port.old) (P.state port.new) }
    ensures ended { IfErr result (EndCause side (P.state port.old) (P.state port.new)) }
    ensures made { P.tells → Makes stopped side (P.state port.old) (P.state port.new) result }
{
    match post {
        Post::Placeholder | Post::Off(_) => Ok(()),
        Post::On(_) | Post::Ready(_) => call_end(side, port.stop(side)),
    }
}

// Makes a machine a placeholder that was turned off, if it isn't one.
fn remove<P: Port>(port: &mut P, side: Side, post: &Post) -> Result<(), Found>
    requires { P.tells → at side (P.state port.old).post ≡ stopped post.now }
    ensures later { NoCountFalls (P.state port.old) (P.state port.new) }
    ensures ended { IfErr result (EndCause side (P.state port.old) (P.state port.new)) }
    ensures made { P.tells → Makes (λ _. Placeholder) side (P.state port.old) (P.state port.new) result }
{
    match post {
        Post::Placeholder => Ok(()),
        Post::Off(_) | Post::On(_) | Post::Ready(_) => call_end(side, port.unregister(side)),
    }
}

/// Turns a machine off at this side.
pub(crate) fn stop_machine<P: Port>(port: &mut P, side: Side) -> Found
    ensures later { NoCountFalls (P.state port.old) (P.state port.new) }
    ensures cause { PostCause side (P.state port.old) (P.state port.new) result }
    ensures leaves { P.tells → PostLeaves Stop side (P.state port.old) (P.state port.new) }
    ensures told { P.tells → PostTold Stop side (P.state port.old) (P.state port.new) result }
{
    match port.post(side) {
        Err(_) => Found::Failed(side),
        Ok(post) => match turn_off(port, side, &post) {
            Ok(()) => Found::Made([None; 4]),
            Err(end) => end,
        },
    }
}

/// Turns a machine off at this side, and makes it a placeholder there.
pub(crate) fn clear_machine<P: Port>(port: &mut P, side: Side) -> Found
    ensures later { NoCountFalls (P.state port.old) (P.state port.new) }
    ensures cause { PostCause side (P.state port.old) (P.state port.new) result }
    ensures leaves { P.tells → PostLeaves Clear side (P.state port.old) (P.state port.new) }
    ensures told { P.tells → PostTold Clear side (P.state port.old) (P.state port.new) result }
{
    match port.post(side) {
        Err(_) => Found::Failed(side),
        Ok(post) => match turn_off(port, side, &post) {
            Ok(()) => match remove(port, side, &post) {
                Ok(()) => Found::Made([None; 4]),
                Err(end) => end,
            },
            Err(end) => end,
        },
    }
}
