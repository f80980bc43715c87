//! The attributes of files that were written.

use nfs_attrs::fattr::Fattr;
use nfs_attrs::file_type::FileType;
use nfs_attrs::moment::Moment;
use std::fs::{self, File, FileTimes, Permissions};
use std::io;
use std::os::unix::fs::{PermissionsExt, lchown};
use std::rt::Files;
use std::time::{Duration, SystemTime, UNIX_EPOCH};

/// Gives a file on disk its owner and group, and unless it is a symbolic link its mode and times. The owner
/// goes first, since a new one takes set-id bits away.
pub(crate) fn set_attributes<R: Files<File = File>>(
    rt: &R,
    path: &str,
    attributes: &Fattr,
) -> io::Result<()> {
    lchown(rt, path, Some(attributes.uid), Some(attributes.gid))?;
    if attributes.file_type == FileType::SymbolicLink {
        return Ok(());
    }
    set_times(rt, path, attributes)?;
    fs::set_permissions(rt, path, Permissions::from_mode(attributes.mode))
}

fn set_times<R: Files<File = File>>(rt: &R, path: &str, attributes: &Fattr) -> io::Result<()> {
    let Some(accessed) = time_of(attributes.atime) else {
        return Ok(());
    };
    let Some(modified) = time_of(attributes.mtime) else {
        return Ok(());
    };
    let times = FileTimes::new()
        .set_accessed(accessed)
        .set_modified(modified);
    File::open(rt, path)?.set_times(times)
}

// The system's time for so many seconds and nanoseconds after 1970.
fn time_of(moment: Moment) -> Option<SystemTime> {
    let seconds = Duration::from_secs(u64::from(moment.seconds));
    let nanos = Duration::from_nanos(u64::from(moment.nanos));
    UNIX_EPOCH.checked_add(seconds)?.checked_add(nanos)
}
