//! Why a file can't be put.
use std::alloc::AllocError;

/// Why a new file got no number. The value is handed back.
#[derive(Debug, PartialEq, Drop)]
pub enum PutFault<T> {
    /// Every number but the last was given, and the last, 2^64 - 1, never is.
    Spent(T),
    /// There is no memory, as the allocator said; or 2^32 - 1 files live.
    Memory(T, AllocError),
}
