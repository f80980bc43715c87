//! Why a stream isn't served to its end.
ghost use Rattle.std.specs.Prelude.{◌≡◌, Bool};
ghost use Rattle.nfs_server.specs.FaultWords.{word_of_stream};
ghost use Rattle.nfs_server.specs.Feeding.{EndsWith};
ghost use Rattle.nfs_server.specs.Streams.{IsReportedAs};

use crate::session_fault::SessionFault;
use std::fmt;
use thiserror::Error;

/// Why a stream isn't served to its end.
#[derive(Clone, Copy, Debug, PartialEq, Eq, Error)]
pub enum ServeFault {
    /// The stream can't be read.
    ReadFault,
    /// The replies can't be written.
    WriteFault,
    /// The audit lines can't be written.
    AuditFault,
    /// A record is longer than a connection takes.
    TooLong,
    /// The stream goes on after the last read that was allowed.
    TurnsSpent,
    /// There is no memory.
    Memory,
}

impl ServeFault {
    /// The word that it is printed by.
    pub fn word(self) -> &'static str
        ensures { result.now ≡ word_of_stream self }
    {
        match self {
            ServeFault::ReadFault => "ReadFault",
            ServeFault::WriteFault => "WriteFault",
            ServeFault::AuditFault => "AuditFault",
            ServeFault::TooLong => "TooLong",
            ServeFault::TurnsSpent => "TurnsSpent",
            ServeFault::Memory => "Memory",
        }
    }

    /// The same of a stream as a fault that ends a connection.
    pub fn of_session(fault: SessionFault) -> ServeFault
        requires { (audit_failed : Bool) × (replies_failed : Bool) × EndsWith audit_failed replies_failed fault }
        ensures { IsReportedAs fault result }
    {
        match fault {
            SessionFault::TooLong => ServeFault::TooLong,
            SessionFault::Memory => ServeFault::Memory,
            SessionFault::AuditFault => ServeFault::AuditFault,
            SessionFault::WriteFault => ServeFault::WriteFault,
            SessionFault::ConnectionTaken | SessionFault::UnknownConnection | SessionFault::Ended =>
                unreachable!(),
        }
    }
}

impl fmt::Display for ServeFault {
    fn fmt<W: fmt::Write>(&self, f: &mut fmt::Formatter<W>) -> fmt::Result {
        f.write_str(self.word())
    }
}
