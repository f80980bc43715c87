//! Why notes don't come to last.

/// Why notes don't come to last.
#[derive(Clone, Copy, Debug, PartialEq, Eq)]
pub enum SettleFault {
    /// No notes are kept, or some were lost for want of room.
    Lost,
    /// The journal can't be written.
    JournalFault,
}
