//! Why a script isn't run to its end.

use crate::fault::Wanted;
use thiserror::Error;

/// What is wrong with a line.
#[derive(Clone, Copy, Debug, PartialEq, Eq, Error)]
pub enum LineCause {
    /// It is none that there is.
    #[error("BadLine")]
    BadLine,
    /// A word of it says no bytes.
    #[error("BadHex")]
    BadHex,
    /// A word of it names a file that there isn't.
    #[error("NoHandle")]
    NoHandle,
    /// An `again` line names no earlier line that sent a record.
    #[error("NoCall")]
    NoCall,
    /// It is for a server of the script's own, and another one is played against.
    #[error("NotLive")]
    NotLive,
    /// A word of an `ask` line, counted from 0 after the moment, is not what is wanted there.
    #[error("BadLine")]
    BadWord(usize, Wanted),
    /// Such a word is a path that names no file that lives.
    #[error("NoHandle")]
    NoFile(usize),
}

/// Why a run of a script ends before its end.
#[derive(Clone, Copy, Debug, Error)]
pub enum ScriptFault {
    /// A line is faulty.
    #[error("script line {line}: {cause}")]
    Line {
        /// Its number, from 1.
        line: u64,
        /// Its first cause.
        cause: LineCause,
    },
    /// The output can't be written.
    #[error("write fault")]
    Write,
    /// There is no memory.
    #[error("out of memory")]
    Memory,
}
