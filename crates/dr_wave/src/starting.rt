ghost use Rattle.std.specs.Prelude.{◌≡◌, IsTrue, ◌↔◌, IfErr, IfOk};
ghost use Rattle.dr_outside.specs.BySide.{at};
ghost use Rattle.dr_meaning.specs.Outcomes.{IsAsWanted};
ghost use Rattle.dr_wave.specs.Steps.{placed_of, NoCountFalls, EndCause, StartCause, StartLeaves, StartTold};
ghost use Rattle.dr_wave.specs.Parts.{registered, Makes, TurnsOn, PoweredOn};

use crate::answers::call_end;
use crate::commands::run_two;
use crate::{Found, StartWant};
use dr_outside::{Placed, Port, Post};

// The placement that a start wants, in a bubble or not.
fn placed(want: &StartWant) -> Placed
    ensures { result ≡ placed_of want.now }
{
    Placed {
        place: want.place,
        bubble: want.bubble,
    }
}

// Whether a post has no other placement than this, in a bubble or not.
fn is_as_wanted(wanted: &Placed, post: &Post) -> bool
    ensures { IsTrue result ↔ IsAsWanted wanted.now post.now }
{
    match post {
        Post::Placeholder => true,
        Post::Off(placed) | Post::On(placed) | Post::Ready(placed) => *placed == *wanted,
    }
}

// Registers a machine that is a placeholder.
fn register_machine<P: Port>(port: &mut P, want: &StartWant, post: &Post) -> Result<(), Found>
    requires { P.tells → at want.now.side (P.state port.old).post ≡ post.now }
    ensures later { NoCountFalls (P.state port.old) (P.state port.new) }
    ensures ended { IfErr result (EndCause want.now.side (P.state port.old) (P.state port.new)) }
    ensures made { P.tells → Makes (registered (placed_of want.now)) want.now.side
        (P.state port.old) (P.state port.new) result }
{
    match post {
        Post::Placeholder => call_end(want.side, port.register(want.side, want.place, want.bubble)),
        Post::Off(_) | Post::On(_) | Post::Ready(_) => Ok(()),
    }
}

// Turns a machine on that isn't ready.
fn turn_on<P: Port>(port: &mut P, want: &StartWant, post: &Post) -> Result<(), Found>
    requires told { P.tells
        → at want.now.side (P.state port.old).post ≡ registered (placed_of want.now) post.now }
    requires wanted { IsAsWanted (placed_of want.now) post.now }
    ensures later { NoCountFalls (P.state port.old) (P.state port.new) }
    ensures ended { IfErr result (EndCause want.now.side (P.state port.old) (P.state port.new)) }
    ensures made { P.tells → TurnsOn want.now post.now (P.state port.old) (P.state port.new) result }
{
    match post {
        Post::Ready(_) => Ok(()),
        Post::Placeholder | Post::Off(_) | Post::On(_) => {
            call_end(want.side, port.start(want.side))
        }
    }
}

// Registers a machine, runs its commands before power-on and turns it on, as far as that isn't done.
fn power_on<P: Port>(
    port: &mut P,
    want: &StartWant,
    post: &Post,
) -> Result<(Option<u8>, Option<u8>), Found>
    requires told { P.tells → at want.now.side (P.state port.old).post ≡ post.now }
    requires wanted { IsAsWanted (placed_of want.now) post.now }
    ensures later { NoCountFalls (P.state port.old) (P.state port.new) }
    ensures ended { IfErr result (EndCause want.now.side (P.state port.old) (P.state port.new)) }
    ensures leaves { P.tells → StartLeaves want.now (P.state port.old) (P.state port.new) }
    ensures told { P.tells → IfErr result (StartTold want.now (P.state port.old) (P.state port.new)) }
    ensures powered { P.tells → IfOk result (PoweredOn want.now (P.state port.old) (P.state port.new)) }
{
    match register_machine(port, want, post) {
        Ok(()) => {}
        Err(end) => return Err(end),
    }
    match run_two(
        port,
        want.side,
        want.root,
        0,
        &want.commands[0],
        &want.commands[1],
    ) {
        Ok(codes) => match turn_on(port, want, post) {
            Ok(()) => Ok(codes),
            Err(end) => Err(end),
        },
        Err(end) => Err(end),
    }
}

// The same, and runs the commands after power-on.
fn start_from<P: Port>(port: &mut P, want: &StartWant, post: &Post) -> Found
    requires told { P.tells → at want.now.side (P.state port.old).post ≡ post.now }
    requires wanted { IsAsWanted (placed_of want.now) post.now }
    ensures later { NoCountFalls (P.state port.old) (P.state port.new) }
    ensures cause { StartCause want.now (P.state port.old) (P.state port.new) result }
    ensures leaves { P.tells → StartLeaves want.now (P.state port.old) (P.state port.new) }
    ensures told { P.tells → StartTold want.now (P.state port.old) (P.state port.new) result }
{
    match power_on(port, want, post) {
        Err(end) => end,
        Ok((first, second)) => {
            match run_two(
                port,
                want.side,
                want.root,
                2,
                &want.commands[2],
                &want.commands[3],
            ) {
                Err(end) => end,
                Ok((third, fourth)) => Found::Made([first, second, third, fourth]),
            }
        }
    }
}

/// Registers a machine and starts it, with its commands, as far as that isn't done.
pub(crate) fn start_machine<P: Port>(port: &mut P, want: &StartWant) -> Found
    ensures later { NoCountFalls (P.state port.old) (P.state port.new) }
    ensures cause { StartCause want.now (P.state port.old) (P.state port.new) result }
    ensures leaves { P.tells → StartLeaves want.now (P.state port.old) (P.state port.new) }
    ensures told { P.tells → StartTold want.now (P.state port.old) (P.state port.new) result }
{
    match port.post(want.side) {
        Err(_) => Found::Failed(want.side),
        Ok(post) => {
            if is_as_wanted(&placed(want), &post) {
                start_from(port, want, &post)
            } else {
                Found::Odd(want.side, post)
            }
        }
    }
}
