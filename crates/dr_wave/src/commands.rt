ghost use Rattle.std.specs.Prelude.{◌≡◌, ◌+◌, ◌^◌, ◌<◌, [], ◌∷◌, Some, OnErr, IfErr, IfOk, is_ok};
ghost use Rattle.dr_base.specs.Causes.{Rose};
ghost use Rattle.dr_outside.specs.Commands.{code_of};
ghost use Rattle.dr_meaning.specs.Lawful.{token_of};
ghost use Rattle.dr_wave.specs.declared.slot.Found.TheVariants.{Failed};
ghost use Rattle.dr_wave.specs.Commands.{commands_from, CommandsRun, AreCodes};
ghost use Rattle.dr_wave.specs.Steps.{NoCountFalls};

use crate::Found;
use crate::answers::command_end;
use dr_base::{Name, Side};
use dr_outside::Port;

// The token of the command at this place among those of a machine.
fn token(root: u32, index: u32) -> u64
    ensures { result ≡ token_of root index }
{
    root as u64 * 4_294_967_296 + index as u64
}

// Runs a command, unless its code is kept, and gives the code.
fn run_once<P: Port>(port: &mut P, side: Side, token: u64, name: &Name) -> Result<u8, Found>
    ensures later { NoCountFalls (P.state port.old) (P.state port.new) }
    ensures failed { IfErr result (λ end. end ≡ Failed side) }
    ensures rose { OnErr result (Rose ((P.state port.old).faults side) ((P.state port.new).faults side)) }
    ensures ran { P.tells → CommandsRun (is_ok result) side
        (record { token = token; name = name.now } ∷ []) (P.state port.old) (P.state port.new) }
    ensures told { P.tells → IfOk result (λ code. code_of (P.state port.new).kept token ≡ Some code) }
{
    match port.ran(side, token) {
        Ok(Some(code)) => Ok(code),
        Ok(None) => command_end(side, port.command(side, token, *name)),
        Err(_) => Err(Found::Failed(side)),
    }
}

// The same of the command that may stand at this place among those of a machine.
fn run_at<P: Port>(
    port: &mut P,
    side: Side,
    root: u32,
    index: u32,
    command: &Option<Name>,
) -> Result<Option<u8>, Found>
    ensures later { NoCountFalls (P.state port.old) (P.state port.new) }
    ensures failed { IfErr result (λ end. end ≡ Failed side) }
    ensures rose { OnErr result (Rose ((P.state port.old).faults side) ((P.state port.new).faults side)) }
    ensures ran { P.tells → CommandsRun (is_ok result) side
        (commands_from root index (command.now ∷ [])) (P.state port.old) (P.state port.new) }
    ensures told { P.tells → IfOk result (λ code. AreCodes (P.state port.new).kept root index
        (command.now ∷ []) (code ∷ [])) }
{
    match command {
        Some(name) => match run_once(port, side, token(root, index), name) {
            Ok(code) => Ok(Some(code)),
            Err(end) => Err(end),
        },
        None => Ok(None),
    }
}

/// Runs two commands of a machine, the first at this place, unless their codes are kept, and gives
/// the codes.
pub(crate) fn run_two<P: Port>(
    port: &mut P,
    side: Side,
    root: u32,
    index: u32,
    first: &Option<Name>,
    second: &Option<Name>,
) -> Result<(Option<u8>, Option<u8>), Found>
    requires { index < 4 }
    ensures later { NoCountFalls (P.state port.old) (P.state port.new) }
    ensures failed { IfErr result (λ end. end ≡ Failed side) }
    ensures rose { OnErr result (Rose ((P.state port.old).faults side) ((P.state port.new).faults side)) }
    ensures ran { P.tells → CommandsRun (is_ok result) side
        (commands_from root index (first.now ∷ second.now ∷ [])) (P.state port.old) (P.state port.new) }
    ensures told { P.tells → IfOk result (λ codes. AreCodes (P.state port.new).kept root index
        (first.now ∷ second.now ∷ []) (codes.0 ∷ codes.1 ∷ [])) }
{
    match run_at(port, side, root, index, first) {
        Ok(code) => match run_at(port, side, root, index + 1, second) {
            Ok(next) => Ok((code, next)),
            Err(end) => Err(end),
        },
        Err(end) => Err(end),
    }
}
