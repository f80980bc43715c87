//! Calls that wait to be run.

use nfs_attrs::moment::Moment;
use nfs_exports::addr::Addr;

/// A record of a `call` or an `ask`, which waits for those that follow it.
#[derive(Drop)]
pub struct QueuedCall {
    /// Who sends it.
    pub addr: Addr,
    /// When it comes.
    pub moment: Moment,
    /// Its bytes, without record marks.
    pub bytes: Vec<u8>,
    /// What stands after its audit line.
    pub names: Vec<u8>,
}
