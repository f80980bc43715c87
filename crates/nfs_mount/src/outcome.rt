//! What became of an MNT.
use nfs_rules::rule::Rule;
use std::alloc::AllocError;

/// What became of an MNT.
#[derive(Clone, Copy, Debug, PartialEq, Eq)]
pub enum MountOutcome {
    /// The volume is mounted.
    Granted,
    /// It fails this rule, the first that it fails.
    Denied(Rule),
    /// No rule fails, but there is no memory for it, as the allocator said.
    Memory(AllocError),
}
