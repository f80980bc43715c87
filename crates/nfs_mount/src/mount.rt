//! Clients and the volumes that they mount.
use nfs_exports::addr::Addr;

/// A client that mounts a volume.
#[derive(Clone, Copy, Debug, PartialEq, Eq, Hash)]
pub struct Mount {
    /// The client's address.
    pub addr: Addr,
    /// The volume's index, from 0.
    pub volume: usize,
}
