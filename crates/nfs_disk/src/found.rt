//! What stands in a directory on disk.
ghost use Rattle.std.specs.Prelude.{◌≡◌};
ghost use Rattle.nfs_disk.specs.Surveys as spec;

use nfs_attrs::moment::Moment;
use nfs_load::statement::Given;
use std::alloc::{AllocError, Global};
use std::fs::Metadata;
use std::os::unix::fs::MetadataExt;

/// What kind of file it is.
#[derive(Clone, Copy, Debug, PartialEq, Eq)]
pub enum Kind {
    /// A directory.
    Directory,
    /// A regular file.
    Regular,
    /// A symbolic link.
    Link,
}

/// A file on disk, as the system describes it.
#[derive(Drop)]
pub struct Found {
    /// The place of its directory among those that were found; its own, for the first of all.
    pub parent: usize,
    /// Its path from the first directory on, with a slash before each name.
    pub path: String,
    /// What it is.
    pub kind: Kind,
    /// Its mode, owner and group.
    pub given: Given,
    /// When it was used and changed.
    pub times: Times,
    /// How many bytes it has.
    pub size: u64,
    /// The device and the number that distinguish it from all other files.
    pub identity: (u64, u64),
    /// How many names it has.
    pub names: u64,
}

impl Found {
    /// Its path on disk, where this is that of the first directory.
    pub(crate) fn disk_path(&self, alloc: Global, directory: &str) -> Result<String, AllocError> {
        format!(in alloc; "{directory}{}", self.path)
    }
}

/// The times of a file (RFC 1813, section 2.6).
#[derive(Clone, Copy, Debug, PartialEq, Eq)]
pub struct Times {
    /// When it was read last.
    pub atime: Moment,
    /// When it was written last.
    pub mtime: Moment,
    /// When its attributes changed last.
    pub ctime: Moment,
}

/// How many bytes it has if it is of a kind, else none.
pub(crate) fn size_of(one: &Found, kind: Kind) -> u64
    ensures { result ≡ spec.size_of kind one.now }
{
    if one.kind == kind { one.size } else { 0 }
}

/// The device and the number there, as one number that no other file has.
pub(crate) fn number_of(one: &Found) -> u128
    ensures { result ≡ spec.number_of one.now }
{
    let (device, number) = one.identity;
    u128::from(device) * (1 << 64) + u128::from(number)
}

/// Whether it is a directory, or a file with no second name.
pub(crate) fn is_alone(one: &Found) -> bool
    ensures { result ≡ spec.is_alone one.now }
{
    one.kind == Kind::Directory || one.names < 2
}

// The bits of a mode that a description has.
const MODE_BITS: u32 = 0o7777;

/// What kind of file this is; none of a device, a socket or a pipe.
pub(crate) fn kind_of(metadata: &Metadata) -> Option<Kind> {
    if metadata.is_dir() {
        Some(Kind::Directory)
    } else if metadata.is_file() {
        Some(Kind::Regular)
    } else if metadata.is_symlink() {
        Some(Kind::Link)
    } else {
        None
    }
}

/// The mode, owner and group of a file.
pub(crate) fn given_of(metadata: &Metadata) -> Given {
    Given {
        mode: metadata.mode() & MODE_BITS,
        uid: metadata.uid(),
        gid: metadata.gid(),
    }
}

/// When a file was used and changed. Seconds before 1970 are 0, and those after 2106 the last there are.
pub(crate) fn times_of(metadata: &Metadata) -> Times {
    Times {
        atime: moment_of(metadata.atime(), metadata.atime_nsec()),
        mtime: moment_of(metadata.mtime(), metadata.mtime_nsec()),
        ctime: moment_of(metadata.ctime(), metadata.ctime_nsec()),
    }
}

// The time so many seconds and nanoseconds after 1970.
fn moment_of(seconds: i64, nanos: i64) -> Moment {
    Moment {
        seconds: u32::try_from(seconds.max(0)).unwrap_or(u32::MAX),
        nanos: u32::try_from(nanos).unwrap_or(0),
    }
}
