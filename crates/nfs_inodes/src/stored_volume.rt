//! Volumes, and what their files have in all.
use nfs_handles::number::Number;

/// A volume, with what its files have in all.
#[derive(Drop)]
pub(crate) struct StoredVolume {
    pub(crate) path: Vec<u8>,
    pub(crate) max_bytes: u64,
    pub(crate) max_files: u64,
    pub(crate) root: Number,
    pub(crate) bytes: u64,
    pub(crate) files: u64,
}
