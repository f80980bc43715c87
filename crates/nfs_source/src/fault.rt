//! Why the program ends without having done all of its job.
ghost use Rattle.std.specs.Prelude.{◌≡◌};
ghost use Rattle.nfs_source.specs.Status.{status_of};

use crate::journal_fault::JournalFault;
use crate::sharing_fault::SharingFault;
use nfs_ask::script_fault::{LineCause, ScriptFault};
use nfs_load::cause::Cause;
use nfs_load::load_error::LoadError;
use nfs_portmap::fault::PortmapFault;
use std::alloc::{AllocError, Global};
use std::io;
use std::net::SocketAddr;
use thiserror::Error;

/// A fault, which prints as the line that goes to standard error.
#[derive(Debug, Drop, Error)]
pub enum Fault {
    /// A line of the description is faulty.
    #[error("line {line}: {cause}")]
    Description {
        /// Its number, from 1.
        line: u64,
        /// Its first cause.
        cause: Cause,
    },
    /// A line of the script is faulty.
    #[error("script line {line}: {cause}")]
    Script {
        /// Its number, from 1.
        line: u64,
        /// Its first cause.
        cause: LineCause,
    },
    /// A directory is not shared.
    #[error("error: {0}")]
    Sharing(SharingFault),
    /// An argument is no text.
    #[error("error: an argument is not UTF-8")]
    NoText,
    /// A file can't be read.
    #[error("nfs3d: cannot read {name}: {error}")]
    CannotRead {
        /// Its name.
        name: String,
        /// What the system says.
        error: io::Error,
    },
    /// A text that is kept whole has more than 1 GiB.
    #[error("nfs3d: {0} is longer than 1 GiB")]
    TooLong(String),
    /// A line is longer than any of a description.
    #[error("nfs3d: {name}: line {line} has more than {most} bytes, and is no line of a description")]
    LongLine {
        /// The name of its file.
        name: String,
        /// Its number, from 1.
        line: u64,
        /// How many bytes it may have.
        most: usize,
    },
    /// A file can't be written.
    #[error("nfs3d: cannot write {name}: {error}")]
    CannotWrite {
        /// Its name.
        name: String,
        /// What the system says.
        error: io::Error,
    },
    /// The network fails.
    #[error("nfs3d: network fault: {address}: {error}")]
    Network {
        /// The address that is listened at.
        address: SocketAddr,
        /// What the system says.
        error: io::Error,
    },
    /// The programs are not registered.
    #[error("nfs3d: {0}")]
    Unregistered(PortmapFault),
    /// A server doesn't go on from a journal.
    #[error("nfs3d: {name}: {fault}")]
    Journal {
        /// The name of its file.
        name: String,
        /// Why not.
        fault: JournalFault,
    },
    /// The system has no clock.
    #[error("nfs3d: cannot read the system's clock, which keeps the handles of this run apart from those of earlier runs: set it, and start again")]
    NoTime,
    /// The output can't be written.
    #[error("nfs3d: write fault")]
    Write,
    /// Nobody reads the output any more, so that nothing is reported either.
    #[error("")]
    Closed,
    /// There is no memory.
    #[error("nfs3d: out of memory")]
    Memory(#[from(alloc)] AllocError),
}

impl Fault {
    /// That of the journal of this name; `Memory` where there is no memory for the name.
    pub fn of_journal(alloc: Global, name: &str, fault: JournalFault) -> Fault
        ensures { status_of result ≡ 3 }
    {
        match name.to_string(alloc) {
            Ok(name) => Fault::Journal { name, fault },
            Err(error) => Fault::Memory(error),
        }
    }

    /// The program's exit status: 1 where the description or the script is at fault, 2 where the words are, 3 where the
    /// machine is; 141 where a pipe's reader has gone, as a shell says it of a program that SIGPIPE ended.
    pub fn status(&self) -> u8
        ensures { result ≡ status_of self.now }
    {
        match self {
            Fault::Description { .. }
            | Fault::Script { .. }
            | Fault::Sharing(SharingFault::Skipped) => 1,
            Fault::Sharing(_) | Fault::NoText => 2,
            Fault::CannotRead { .. }
            | Fault::TooLong(_)
            | Fault::LongLine { .. }
            | Fault::CannotWrite { .. }
            | Fault::Network { .. }
            | Fault::Unregistered(_)
            | Fault::Journal { .. }
            | Fault::NoTime
            | Fault::Write
            | Fault::Memory(_) => 3,
            Fault::Closed => 141,
        }
    }
}

impl From<LoadError> for Fault {
    ghost use Rattle.nfs_source.specs.Status.{IsReportedAs};

    ghost from_gives = { IsReportedAs };

    fn from(error: LoadError) -> Fault {
        match error {
            LoadError::Fault { line, cause } => Fault::Description { line, cause },
            LoadError::Memory => Fault::Memory(AllocError),
        }
    }
}

impl From<ScriptFault> for Fault {
    fn from(fault: ScriptFault) -> Fault {
        match fault {
            ScriptFault::Line { line, cause } => Fault::Script { line, cause },
            ScriptFault::Write => Fault::Write,
            ScriptFault::Memory => Fault::Memory(AllocError),
        }
    }
}
