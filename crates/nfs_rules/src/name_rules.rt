//! The rules that look at a name or a path alone.
ghost use Rattle.std.specs.Prelude.{◌≡◌, bytes_eq};
ghost use Rattle.std.specs.List.{list_any};
ghost use Rattle.nfs_inodes.specs.Reading.{dot, dot_dot};
ghost use Rattle.nfs_rules.specs.Judging.{Reports};
ghost use Rattle.nfs_rules.specs.Tests as test;

use crate::rule::{Rule, ensure};
use nfs_inodes::limits::MAX_NAME_BYTES;

/// The most bytes of a path that MNT takes: MNTPATHLEN (RFC 1813, section 5.1.4).
const MAX_MOUNT_PATH_BYTES: usize = 1_024;

/// `NameLong`: a name has at most 255 bytes.
pub(crate) fn name_must_be_short(name: &[u8]) -> Result<(), Rule>
    ensures { Reports result (test.name_long name.now) }
{
    ensure(name.len() <= MAX_NAME_BYTES, Rule::NameLong)
}

/// `NameForm`: a name has a byte, and none that is 0 or `/`.
pub(crate) fn name_must_be_formed(name: &[u8]) -> Result<(), Rule>
    ensures { Reports result (test.name_form name.now) }
{
    ensure(!name.is_empty() && !has_separator(name), Rule::NameForm)
}

/// `DotName`: a name is neither `.` nor `..`.
pub(crate) fn name_must_not_be_dots(name: &[u8]) -> Result<(), Rule>
    ensures { Reports result (test.dot_name name.now) }
{
    ensure(!is_dot(name) && !is_dot_dot(name), Rule::DotName)
}

/// `DotName` in RMDIR: a name isn't `.`.
pub(crate) fn name_must_not_be_dot(name: &[u8]) -> Result<(), Rule>
    ensures { Reports result (test.dot_alone name.now) }
{
    ensure(!is_dot(name), Rule::DotName)
}

/// `DotDot`: a name isn't `..`.
pub(crate) fn name_must_not_be_dot_dot(name: &[u8]) -> Result<(), Rule>
    ensures { Reports result (test.dot_dot_alone name.now) }
{
    ensure(!is_dot_dot(name), Rule::DotDot)
}

/// `PathLong` in MNT: a path has at most 1,024 bytes, MNTPATHLEN.
pub fn mount_path_must_be_short(path: &[u8]) -> Result<(), Rule>
    ensures { Reports result (test.path_long test.max_mount_path_bytes path.now) }
{
    ensure(path.len() <= MAX_MOUNT_PATH_BYTES, Rule::PathLong)
}

fn is_dot(name: &[u8]) -> bool
    ensures { result ≡ bytes_eq name.now dot }
{
    name == b".".as_slice()
}

fn is_dot_dot(name: &[u8]) -> bool
    ensures { result ≡ bytes_eq name.now dot_dot }
{
    name == b"..".as_slice()
}

fn has_separator(name: &[u8]) -> bool
    ensures { result ≡ list_any test.is_separator name.now }
{
    for byte in name {
        if *byte == 0 || *byte == b'/' {
            return true;
        }
    }
    false
}
