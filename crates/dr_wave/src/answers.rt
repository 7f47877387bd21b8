ghost use Rattle.dr_outside.specs.Machines.{NeverRan, NeverWrong};
ghost use Rattle.dr_wave.specs.Ends.{CallEnd, CommandEnd};

use crate::Found;
use dr_base::Side;
use dr_outside::PortFail;

/// What a step answers after a call at this side that changes a post.
pub(crate) fn call_end(side: Side, answer: Result<(), PortFail>) -> Result<(), Found>
    requires { NeverRan answer }
    ensures { CallEnd side answer result }
{
    match answer {
        Ok(()) => Ok(()),
        Err(PortFail::Failed) => Err(Found::Failed(side)),
        Err(PortFail::Wrong(post)) => Err(Found::Refused(side, post)),
        Err(PortFail::Ran(_)) => unreachable!(),
    }
}

/// What a step answers after a command at this side: its code, also where it ran before.
pub(crate) fn command_end(side: Side, answer: Result<u8, PortFail>) -> Result<u8, Found>
    requires { NeverWrong answer }
    ensures { CommandEnd side answer result }
{
    match answer {
        Ok(code) => Ok(code),
        Err(PortFail::Failed) => Err(Found::Failed(side)),
        Err(PortFail::Wrong(_)) => unreachable!(),
        Err(PortFail::Ran(code)) => Ok(code),
    }
}
