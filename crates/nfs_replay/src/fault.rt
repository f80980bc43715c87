//! Why a run of a script ends, whatever the script says.

use nfs_ask::script_fault::ScriptFault;
use nfs_load::listing::WriteFault;
use std::alloc::{AllocError, AllocFailed};

/// Why a run ends, whatever the script says: the machine is at fault.
#[derive(Clone, Copy, Debug)]
pub enum RunFault {
    /// The output can't be written.
    Write,
    /// There is no memory.
    Memory,
}

impl From<AllocError> for RunFault {
    fn from(_error: AllocError) -> RunFault {
        RunFault::Memory
    }
}

impl<T: Drop> From<AllocFailed<T>> for RunFault {
    fn from(_error: AllocFailed<T>) -> RunFault {
        RunFault::Memory
    }
}

impl From<WriteFault> for RunFault {
    fn from(_error: WriteFault) -> RunFault {
        RunFault::Write
    }
}

impl From<RunFault> for ScriptFault {
    ghost use Rattle.nfs_ask.specs.ScriptFaults.{IsOfMachine};

    ghost from_gives = { λ _ fault. IsOfMachine fault };

    fn from(fault: RunFault) -> ScriptFault {
        match fault {
            RunFault::Write => ScriptFault::Write,
            RunFault::Memory => ScriptFault::Memory,
        }
    }
}
