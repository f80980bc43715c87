//! Why a tree isn't written.

use std::alloc::{AllocError, AllocFailed};
use std::io;

/// Why a tree isn't written as a directory.
#[derive(Debug, Drop)]
pub enum ExtractFault {
    /// Something can't be written: its path on disk, and what the system says.
    CannotWrite {
        /// The path.
        path: String,
        /// What the system says.
        error: io::Error,
    },
    /// There is no memory.
    Memory(AllocError),
}

impl From<AllocError> for ExtractFault {
    fn from(error: AllocError) -> ExtractFault {
        ExtractFault::Memory(error)
    }
}

impl<T: Drop> From<AllocFailed<T>> for ExtractFault {
    fn from(error: AllocFailed<T>) -> ExtractFault {
        ExtractFault::Memory(error.into())
    }
}
