//! What became of a call.
use nfs_rules::rule::Rule;
use std::alloc::AllocError;

/// What became of a call.
#[derive(Clone, Copy, Debug, PartialEq, Eq)]
pub enum Done {
    /// It was done.
    Granted,
    /// It fails this rule, the first that it fails. The uid is that by which the caller is judged,
    /// where the rules of the handles are kept.
    Denied(Rule, Option<u32>),
    /// No rule fails, but there is no memory for it, as the allocator said.
    Memory(AllocError),
}
