ghost use Rattle.dr_wave.specs.Steps.{Step};

use crate::looking::look_at;
use crate::starting::start_machine;
use crate::stopping::{clear_machine, stop_machine};
use crate::{Found, Want};
use dr_outside::Port;

/// Takes the step that is wanted of a machine.
pub(crate) fn take_step<P: Port>(port: &mut P, want: &Want) -> Found
    ensures { Step P.tells want.now (P.state port.old) (P.state port.new) result }
{
    match want {
        Want::Nothing => Found::Nothing,
        Want::Look => look_at(port),
        Want::Start(start) => start_machine(port, start),
        Want::Stop(side) => stop_machine(port, *side),
        Want::Clear(side) => clear_machine(port, *side),
    }
}
