//! What comes to a server, and what it answers.
ghost use Rattle.std.specs.Prelude.{Bool};
ghost use Rattle.nfs_server.specs.Events.{Answer};
ghost use Rattle.nfs_server.specs.InMemory.{answer_of};

use crate::audit_line::AuditLine;
use nfs_attrs::moment::Moment;
use nfs_exports::addr::Addr;

/// A whole record that comes from an address at a moment.
#[derive(Clone, Copy)]
pub struct Event<'a> {
    /// Who sends it.
    pub addr: Addr,
    /// When it comes.
    pub moment: Moment,
    /// Its bytes, without record marks.
    pub bytes: &'a [u8],
}

/// Whether a record has a reply.
#[derive(Clone, Copy, Debug, PartialEq, Eq)]
pub enum Handled {
    /// The reply stands in the buffer.
    Answered,
    /// The record is no call, or its head can't be read.
    NoReply,
}

/// What one event brought.
#[derive(Clone, Copy)]
pub struct Outcome<'a> {
    /// The reply, without its record mark.
    pub reply: Option<&'a [u8]>,
    /// The line of a call that was denied.
    pub line: Option<AuditLine>,
}

/// What takes the outcomes of a run.
pub trait Sink {
    /// That a take of this answer, to which so much was said, leads from one state to another.
    ghost takes: { Self → Answer → Bool → Self → Type 0 };

    /// Takes an outcome. `false` ends the run.
    fn take(&mut self, outcome: Outcome<'_>) -> bool
        ensures { takes self.old (answer_of outcome.entry) result self.new };
}
