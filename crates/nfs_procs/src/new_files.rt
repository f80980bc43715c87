//! What new files are like (RFC 1813, section 2.6, sattr3).
ghost use Rattle.std.specs.Prelude.{◌≡◌, ◌||◌, nat_eq};
ghost use Rattle.std.specs.List.{list_any};
ghost use Rattle.nfs_procs.specs.NewFiles as new_files;

use nfs_attrs::moment::Moment;
use nfs_attrs::sattr::Sattr;
use nfs_attrs::time_setting::TimeSetting;
use nfs_inodes::new_file::NewFile;
use nfs_rules::subject::Subject;

/// What a file is like that the caller makes at this moment, with this mode where none is given. The
/// owner and the group that are given are taken where the caller may give them, and else ignored.
pub(crate) fn new_file_of(mode: u32, subject: &Subject<'_>, now: Moment, given: &Sattr) -> NewFile
    ensures { result ≡ new_files.new_file_of mode subject.now.ids now given.now }
{
    NewFile {
        mode: given.mode.unwrap_or(mode),
        uid: uid_of(subject, given.uid),
        gid: gid_of(subject, given.gid),
        atime: time_of(now, given.atime),
        mtime: time_of(now, given.mtime),
    }
}

fn uid_of(subject: &Subject<'_>, given: Option<u32>) -> u32
    ensures { result ≡ new_files.uid_of subject.now.ids given }
{
    match given {
        Some(uid) if subject.uid() == 0 => uid,
        _ => subject.uid(),
    }
}

fn gid_of(subject: &Subject<'_>, given: Option<u32>) -> u32
    ensures { result ≡ new_files.gid_of subject.now.ids given }
{
    match given {
        Some(gid) if subject.uid() == 0 || subject.is_in_group(gid) => gid,
        _ => subject.gid(),
    }
}

fn time_of(now: Moment, setting: TimeSetting) -> Moment
    ensures { result ≡ new_files.time_of now setting }
{
    match setting {
        TimeSetting::ClientTime(moment) => moment,
        _ => now,
    }
}
