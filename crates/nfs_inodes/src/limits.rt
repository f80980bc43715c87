//! The most that a tree takes.
ghost use Rattle.std.specs.Prelude.{◌≡◌};
ghost use Rattle.nfs_inodes.specs.Limits.{default_limits};

use nfs_content::limits::MAX_CONTENT_BYTES;

/// The most bytes of a name.
pub const MAX_NAME_BYTES: usize = 255;
/// The most bytes that a volume may be made for.
pub const MAX_VOLUME_BYTES: u64 = 1_099_511_627_776;
/// The most volumes.
pub const MAX_VOLUMES: usize = 64;
/// The most bytes of a volume's path.
pub const MAX_VOLUME_PATH_BYTES: usize = 255;

/// The largest `file_size` of [`Limits`].
pub const MAX_FILE_BYTES: usize = MAX_CONTENT_BYTES;
/// The largest `links` of [`Limits`].
pub const MAX_LINKS: u32 = 1_000_000;
/// The largest `link_path` of [`Limits`].
pub const MAX_PATH_BYTES: usize = 4_095;
/// The largest `files` of [`Limits`].
pub const MAX_FILES: u64 = 100_000_000;

/// What a tree takes at most of its files.
#[derive(Clone, Copy)]
pub struct Limits {
    /// The most bytes of a regular file.
    pub file_size: usize,
    /// The most links of a file: a directory has one for each subdirectory, and two more.
    pub links: u32,
    /// The most bytes of a link's path.
    pub link_path: usize,
    /// The most files that a volume may be made for.
    pub files: u64,
}

impl Limits {
    /// Those of a tree that is made without others.
    pub fn standard() -> Limits
        ensures { result ≡ default_limits }
    {
        Limits {
            file_size: 16_777_216,
            links: 1_000,
            link_path: 1_024,
            files: 1_000_000,
        }
    }
}
