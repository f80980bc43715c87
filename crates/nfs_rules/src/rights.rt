//! What a caller may do with a file (RFC 1813, section 4.4).
ghost use Rattle.std.specs.Prelude.{◌≡◌, ◌≤◌};
ghost use Rattle.nfs_rules.specs.Rights as spec;

use nfs_attrs::fattr::Fattr;
use nfs_attrs::file_type::FileType;
use nfs_exports::options::Options;
use nfs_exports::squash::Ids;

/// Whose bits of a file's mode are looked at.
#[derive(Clone, Copy, Debug, PartialEq, Eq)]
pub enum Class {
    /// The owner's.
    Owner,
    /// The group's.
    Group,
    /// Those of all others.
    Others,
}

/// A right that a mode gives to a class.
#[derive(Clone, Copy, Debug, PartialEq, Eq)]
pub enum Right {
    /// To read a file or to list a directory.
    Read,
    /// To write a file, or to change a directory's entries.
    Write,
    /// To execute a file, or to search a directory.
    Execute,
}

impl Class {
    /// The one class in which the caller is: the owner, else a member of the group, else one of
    /// the others.
    #[inline(always)]
    pub fn of(ids: &Ids<'_>, file: &Fattr) -> Class
        ensures { result ≡ spec.class ids.now file.now }
    {
        if ids.uid() == file.uid {
            return Class::Owner;
        }
        if ids.is_in(file.gid) {
            Class::Group
        } else {
            Class::Others
        }
    }
}

/// Whether the caller has a right: uid 0 has each, another those of its class.
#[inline(always)]
pub fn may(ids: &Ids<'_>, file: &Fattr, right: Right) -> bool
    ensures { result ≡ spec.may ids.now file.now right }
{
    if ids.uid() == 0 {
        return true;
    }
    has_bit(bits_of(Class::of(ids, file), file.mode), right)
}

/// Whether the caller is the owner or uid 0.
#[inline(always)]
pub(crate) fn owns(ids: &Ids<'_>, file: &Fattr) -> bool
    ensures { result ≡ spec.owns ids.now file.now }
{
    ids.uid() == 0 || ids.uid() == file.uid
}

/// Whether a directory lets the entry of a file go: one that restricts deletion by its mode's bit 0x200
/// does so to uid 0, to its own owner and to the file's alone (POSIX.1-2017, Base Definitions, section
/// 4.3).
#[inline(always)]
pub(crate) fn lets_go(ids: &Ids<'_>, dir: &Fattr, file: &Fattr) -> bool
    ensures { result ≡ spec.lets_go ids.now dir.now file.now }
{
    dir.mode / 512 % 2 != 1 || owns(ids, dir) || owns(ids, file)
}

// The three bits of a class.
#[inline(always)]
fn bits_of(class: Class, mode: u32) -> u32
    ensures { result ≡ spec.bits_of class mode }
{
    match class {
        Class::Owner => mode / 64 % 8,
        Class::Group => mode / 8 % 8,
        Class::Others => mode % 8,
    }
}

#[inline(always)]
fn has_bit(bits: u32, right: Right) -> bool
    ensures { result ≡ spec.has_bit bits right }
{
    match right {
        Right::Read => bits / 4 % 2 == 1,
        Right::Write => bits / 2 % 2 == 1,
        Right::Execute => bits % 2 == 1,
    }
}

/// Of the bits that ACCESS asks for those that are granted (RFC 1813, section 3.3.4): 0x1 READ, 0x2
/// LOOKUP, 0x4 MODIFY, 0x8 EXTEND, 0x10 DELETE and 0x20 EXECUTE. By the mode and the options alone:
/// the owner of a file may do more by a READ, a WRITE or a SETATTR.
pub fn access_bits(options: &Options, ids: &Ids<'_>, file: &Fattr, asked: u32) -> u32
    ensures { result ≡ spec.access_bits options.now.read_only ids.now file.now asked }
{
    let read = may(ids, file, Right::Read);
    let write = !options.read_only && may(ids, file, Right::Write);
    let execute = may(ids, file, Right::Execute);
    let directory = file.file_type == FileType::Directory;
    let regular = file.file_type == FileType::Regular;
    granted_bit(asked, 1, read)
        + granted_bit(asked, 2, directory && execute)
        + granted_bit(asked, 4, write)
        + granted_bit(asked, 8, write)
        + granted_bit(asked, 16, directory && write && execute)
        + granted_bit(asked, 32, regular && execute)
}

// A bit of what is asked for, where it is granted.
#[inline(always)]
fn granted_bit(asked: u32, bit: u32, granted: bool) -> u32
    requires { 1 ≤ bit }
    ensures is { result ≡ spec.granted_bit asked bit granted }
    ensures bound { result ≤ bit }
{
    if asked / bit % 2 == 1 && granted {
        bit
    } else {
        0
    }
}
