//! Why a tree isn't described.

use std::alloc::AllocError;
use std::io;
use thiserror::Error;

/// Why a tree isn't described.
#[derive(Debug, Drop, Error)]
pub enum DescribeFault {
    /// The description can't be written.
    #[error("{0}")]
    Write(io::Error),
    /// There is no memory.
    #[error("out of memory")]
    Memory,
}

impl From<AllocError> for DescribeFault {
    ghost use Rattle.std.specs.Prelude.{◌≡◌};
    ghost use Rattle.nfs_describe.specs.declared.fault.DescribeFault.TheVariants as fault;

    ghost from_gives = { λ _ e. e ≡ fault.Memory };

    fn from(_error: AllocError) -> DescribeFault {
        DescribeFault::Memory
    }
}
