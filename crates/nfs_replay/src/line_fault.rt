//! Why a line of a script isn't run.
ghost use Rattle.std.specs.Prelude.{◌≡◌};
ghost use Rattle.nfs_load.specs.Loadings.{number_after};
ghost use Rattle.nfs_replay.specs.Scripts as spec;
ghost use Rattle.nfs_replay.specs.Scripts.{IsReported};

use crate::fault::RunFault;
use nfs_ask::fault::{AskFault, Wanted};
use nfs_ask::script_fault::{LineCause, ScriptFault};
use std::alloc::AllocError;

/// What is wrong with a line, or the fault of what it asks for.
#[derive(Clone, Copy)]
pub enum LineFault {
    /// The line is faulty.
    OfLine(LineCause),
    /// The machine is.
    OfRun(RunFault),
}

impl LineFault {
    /// The fault of a line whose words are refused.
    pub(crate) fn of_ask(fault: AskFault) -> LineFault
        ensures { result ≡ spec.fault_of fault }
    {
        match fault {
            AskFault::Word(place, Wanted::File) => LineFault::OfLine(LineCause::NoFile(place)),
            AskFault::Word(place, wanted) => LineFault::OfLine(LineCause::BadWord(place, wanted)),
            AskFault::Memory => LineFault::OfRun(RunFault::Memory),
        }
    }

    /// The fault with the number of its line, of which so many stand before it.
    pub(crate) fn at(self, before: u64) -> ScriptFault
        ensures { IsReported self (number_after before) result }
    {
        match self {
            LineFault::OfLine(cause) => ScriptFault::Line {
                line: before.saturating_add(1),
                cause,
            },
            LineFault::OfRun(RunFault::Write) => ScriptFault::Write,
            LineFault::OfRun(RunFault::Memory) => ScriptFault::Memory,
        }
    }
}

impl From<RunFault> for LineFault {
    ghost use Rattle.std.specs.Prelude.{◌≡◌};
    ghost use Rattle.nfs_replay.specs.declared.line_fault.LineFault.TheVariants.{OfRun};

    ghost from_gives = { λ fault it. it ≡ OfRun fault };

    fn from(fault: RunFault) -> LineFault {
        LineFault::OfRun(fault)
    }
}

impl From<AllocError> for LineFault {
    ghost use Rattle.std.specs.Prelude.{◌≡◌};
    ghost use Rattle.nfs_replay.specs.declared.fault.RunFault.TheVariants.{Memory};
    ghost use Rattle.nfs_replay.specs.declared.line_fault.LineFault.TheVariants.{OfRun};

    ghost from_gives = { λ _ it. it ≡ OfRun Memory };

    fn from(_error: AllocError) -> LineFault {
        LineFault::OfRun(RunFault::Memory)
    }
}
