ghost use Rattle.std.specs.Prelude.{◌≡◌};
ghost use Rattle.dr_base.specs.Answers.{status_of};

use crate::{EstateFault, GroupFault, Name, PlanFault, Refusal, RequestFault, Side, Unmapped};

/// What was too long: a line, of which there may be 512 bytes, or a whole session.
#[derive(Clone, Copy, Debug, PartialEq, Eq)]
pub enum Long {
    Line,
    Session,
}

/// An object of the site, by its number in the estate, from 0.
#[derive(Clone, Copy, Debug, PartialEq, Eq)]
pub enum Thing {
    Pair(u32),
    Machine(u32),
}

/// The answer to one line. Numbers of pairs and machines are the estate's, from 0; those of runs
/// and steps count from 1.
#[derive(Debug, Drop, PartialEq, Eq)]
pub enum Answer {
    /// The run is finished.
    Done(u32),
    /// The estate is in force.
    Loaded,
    /// The prompt is answered.
    Replied,
    /// The report was given.
    Shown,
    /// The word at this place, from 0, may not stand there; or one is missing there.
    BadWords(u32),
    /// The estate is faulty.
    Estate(EstateFault),
    /// The estate's protection groups are faulty.
    Groups(GroupFault),
    /// The plan of this name is faulty.
    Plan(Name, PlanFault),
    /// No map places a machine.
    Unmapped(Unmapped),
    /// The command was refused.
    Refused(Refusal),
    /// The request was refused.
    Request(RequestFault),
    /// A line or the session is too long.
    TooLong(Long),
    /// The run waits for the answer to the prompt of this step.
    Waiting(u32, u32),
    /// The run has walked all its stages, and this many machines are left.
    Incomplete(u32, u32),
    /// The array failed at this side.
    ArrayFault(Side),
    /// This machine failed.
    PortFault(u32),
    /// The command of this step failed.
    CalloutFault(u32),
    /// The journal couldn't be read or written.
    JournalFault,
    /// Standard input couldn't be read.
    ReadFault,
    /// Standard output couldn't be written.
    WriteFault,
    /// Want of memory.
    NoMemory,
    /// The journal is damaged at this byte.
    JournalDamaged(u64),
    /// An object isn't as it must be: codes of the state that is wanted and of the one found.
    Foreign(Thing, u32, u32),
}

impl Answer {
    /// The status with which the program ends: 0 is success, 1 and 2 are refusals, 3 and 4 ask for
    /// an operator, and the others are faults.
    pub fn status(&self) -> u8
        ensures { result ≡ status_of self.now }
    {
        match self {
            Answer::Done(_) | Answer::Loaded | Answer::Replied | Answer::Shown => 0,
            Answer::BadWords(_) => 1,
            Answer::Estate(_)
            | Answer::Groups(_)
            | Answer::Plan(_, _)
            | Answer::Unmapped(_)
            | Answer::Refused(_)
            | Answer::Request(_)
            | Answer::TooLong(_) => 2,
            Answer::Waiting(_, _) => 3,
            Answer::Incomplete(_, _) => 4,
            Answer::ArrayFault(_) => 5,
            Answer::PortFault(_) => 6,
            Answer::CalloutFault(_) => 7,
            Answer::JournalFault => 8,
            Answer::ReadFault => 9,
            Answer::WriteFault => 10,
            Answer::NoMemory => 11,
            Answer::JournalDamaged(_) => 12,
            Answer::Foreign(_, _, _) => 13,
        }
    }
}
