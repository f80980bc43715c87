//! Why a connection doesn't do what it is asked for.
ghost use Rattle.std.specs.Prelude.{◌≡◌};
ghost use Rattle.nfs_server.specs.FaultWords.{word_of_session};

use nfs_rpc::framer::FrameFault;
use std::fmt;
use thiserror::Error;

/// Why a connection doesn't do what it is asked for.
#[derive(Clone, Copy, Debug, PartialEq, Eq, Error)]
pub enum SessionFault {
    /// A connection has this number.
    ConnectionTaken,
    /// No connection has this number.
    UnknownConnection,
    /// One of the faults below ended the connection.
    Ended,
    /// A record is longer than a connection takes.
    TooLong,
    /// There is no memory.
    Memory,
    /// The audit lines can't be written.
    AuditFault,
    /// The replies can't be written.
    WriteFault,
}

impl SessionFault {
    /// The word that it is printed by.
    pub fn word(self) -> &'static str
        ensures { result.now ≡ word_of_session self }
    {
        match self {
            SessionFault::ConnectionTaken => "ConnectionTaken",
            SessionFault::UnknownConnection => "UnknownConnection",
            SessionFault::Ended => "Ended",
            SessionFault::TooLong => "TooLong",
            SessionFault::Memory => "Memory",
            SessionFault::AuditFault => "AuditFault",
            SessionFault::WriteFault => "WriteFault",
        }
    }
}

impl fmt::Display for SessionFault {
    fn fmt<W: fmt::Write>(&self, f: &mut fmt::Formatter<W>) -> fmt::Result {
        f.write_str(self.word())
    }
}

impl From<FrameFault> for SessionFault {
    ghost use Rattle.std.specs.Prelude.{◌≡◌};
    ghost use Rattle.nfs_server.specs.Connections.{session_fault};

    ghost from_gives = { λ fault e. e ≡ session_fault fault };

    fn from(fault: FrameFault) -> SessionFault {
        match fault {
            FrameFault::TooLong => SessionFault::TooLong,
            FrameFault::Memory => SessionFault::Memory,
            FrameFault::Failed => SessionFault::Ended,
        }
    }
}
