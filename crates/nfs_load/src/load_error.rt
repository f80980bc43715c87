//! Why a description isn't loaded.

use crate::cause::Cause;
use thiserror::Error;

/// Why a description isn't loaded: its first faulty line, or want of memory.
#[derive(Clone, Copy, Debug, Error)]
pub enum LoadError {
    /// The first faulty line, counted from 1, and its first cause. What is missing at the end of
    /// the text is reported for the line after the last.
    #[error("line {line}: {cause}")]
    Fault {
        /// The line's number, from 1.
        line: u64,
        /// Its first cause.
        cause: Cause,
    },
    /// There is no memory for what the description says.
    #[error("out of memory")]
    Memory,
}
