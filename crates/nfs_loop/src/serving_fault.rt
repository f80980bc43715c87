//! What ends a service that was not told to end.

use nfs_server::settle_fault::SettleFault;
use std::io;

/// Why a service ends that was not told to end.
#[derive(Debug, Drop)]
pub enum ServingFault {
    /// The network fails.
    Network(io::Error),
    /// What was answered doesn't come to last in the journal.
    Journal(SettleFault),
}
