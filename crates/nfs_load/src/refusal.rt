//! Why a line is not done.
ghost use Rattle.std.specs.Prelude.{◌≡◌};
ghost use Rattle.nfs_load.specs.Errors.{reported_at};

use crate::cause::Cause;
use crate::load_error::LoadError;
use std::alloc::AllocError;
use thiserror::Error;

/// Why a line is not done: a fault of its own, or want of memory.
#[derive(Clone, Copy, Debug, Error)]
pub enum Refusal {
    /// The line is faulty.
    #[error("{0}")]
    Fault(Cause),
    /// There is no memory for what it says.
    #[error("out of memory")]
    Memory,
}

impl Refusal {
    /// The same for the line of this number.
    pub fn at(self, line: u64) -> LoadError
        ensures { result ≡ reported_at line self }
    {
        match self {
            Refusal::Fault(cause) => LoadError::Fault { line, cause },
            Refusal::Memory => LoadError::Memory,
        }
    }
}

impl From<Cause> for Refusal {
    ghost use Rattle.std.specs.Prelude.{◌≡◌};
    ghost use Rattle.nfs_load.specs.declared.refusal.Refusal.TheVariants.{Fault};

    ghost from_gives = { λ cause refusal. refusal ≡ Fault cause };

    fn from(cause: Cause) -> Refusal {
        Refusal::Fault(cause)
    }
}

impl From<AllocError> for Refusal {
    ghost use Rattle.std.specs.Prelude.{◌≡◌};
    ghost use Rattle.nfs_load.specs.declared.refusal.Refusal.TheVariants.{Memory};

    ghost from_gives = { λ _ refusal. refusal ≡ Memory };

    fn from(_error: AllocError) -> Refusal {
        Refusal::Memory
    }
}
