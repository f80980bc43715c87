//! What becomes of a client's turn.
use nfs_server::serve_fault::ServeFault;

/// How a connection ended.
#[derive(Clone, Copy, Debug, PartialEq, Eq)]
pub enum End {
    /// The peer ended its side.
    Closed,
    /// A fault.
    Fault(ServeFault),
}

/// What became of a turn.
#[derive(Clone, Copy, Debug, PartialEq, Eq)]
pub enum Turn {
    /// Bytes were taken, and more may be there, of which the system will report nothing.
    Fed,
    /// All that had come was received in this turn, and taken.
    Drained,
    /// Nothing has come.
    Idle,
    /// The next record is a call that fails a rule, and the log is full; or it is full, and there is no
    /// memory to look at that record. The record is kept for another turn.
    Held,
    /// The link doesn't take all that is pending.
    Owing,
    /// Replies are pending that were held. They go out in the next turn.
    Answered,
    /// The connection has ended: nothing is pending any more, or the link is broken.
    Ended(End),
}
