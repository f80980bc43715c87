//! Why a directory isn't read.

use std::alloc::{AllocError, AllocFailed};
use std::io;
use thiserror::Error;

/// Why a directory isn't read.
#[derive(Debug, Drop, Error)]
pub enum DiskFault {
    /// It is no directory, or the system doesn't let it be read: what it says.
    #[error("the directory can't be read: {0}")]
    CannotRead(io::Error),
    /// There is no memory.
    #[error("out of memory")]
    Memory,
}

impl From<AllocError> for DiskFault {
    fn from(_error: AllocError) -> DiskFault {
        DiskFault::Memory
    }
}

impl<T: Drop> From<AllocFailed<T>> for DiskFault {
    fn from(_error: AllocFailed<T>) -> DiskFault {
        DiskFault::Memory
    }
}
