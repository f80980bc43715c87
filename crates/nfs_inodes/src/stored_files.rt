//! The kept files of a tree, and what is done to one or two of them.
ghost use Rattle.std.specs.Prelude.{◌≡◌, ◌-◌, ◌+◌, ◌<◌, ◌^◌, IfOk, OnErr, OnOk, Some, length, option_map};
ghost use Rattle.nfs_handles.specs.NumberedFiles.{value_at};
ghost use Rattle.nfs_inodes.specs.declared.stored_file.StoredFile.{StoredFile};
ghost use Rattle.nfs_inodes.specs.Tree.{one_when};
ghost use Rattle.nfs_inodes.specs.Storage.{HasRoom};
ghost use Rattle.nfs_inodes.specs.StoredFiles.{TakesEntry, HasNoEntry, Revalues, SameFile, Enters, AddsFile};
ghost use Rattle.nfs_inodes.specs.StoredFiles.{SameFiles, TakesLink, LinksFile, GainsLink};
ghost use Rattle.nfs_inodes.specs.StoredFiles.{TakesBytes, TakesGrowth, Writes};
ghost use Rattle.nfs_inodes.specs.StoredFiles.{IsThere, SetsAttributes};
ghost use Rattle.nfs_inodes.specs.StoredFiles.{TakesSize, Resizes};

use crate::given_attributes::GivenAttributes;
use crate::stored_file::{
    StoredFile, add_entry, reserve_entry, resize_bytes, set_attributes, write_bytes,
};
use nfs_attrs::moment::Moment;
use nfs_entries::entry_name::EntryName;
use nfs_handles::files::Files;
use nfs_handles::number::Number;
use std::alloc::AllocError;

/// Adds a file with its entry in directory `dir`, for which there is room. Refused without memory,
/// and then clients see no change.
#[inline(always)]
pub(crate) fn add(
    files: &mut Files<StoredFile>,
    dir: Number,
    name: EntryName,
    stored_file: StoredFile,
    now: Moment,
) -> Result<Number, AllocError>
    requires dir { TakesEntry files.old dir.0 }
    requires room { (parent : StoredFile) → value_at files.old dir.0 ≡ Some parent → HasRoom parent }
    requires fresh { HasNoEntry files.old dir.0 name }
    requires number { files.old.next < 2 ^ 64 - 1 }
    ensures ok { OnOk result (AddsFile files.old dir.0 name stored_file now files.new) }
    ensures number { IfOk result (λ n. n.0 ≡ files.old.next) }
    ensures err { OnErr result (SameFiles files.old files.new) }
{
    let subdirectory = stored_file.is_directory();
    let number = files.add(stored_file)?;
    enter(files, dir, name, number, subdirectory, now);
    Ok(number)
}

/// An entry in directory `dir` for a file that has one. Refused without memory, and then clients
/// see no change.
pub(crate) fn link(
    files: &mut Files<StoredFile>,
    number: Number,
    dir: Number,
    name: EntryName,
    now: Moment,
) -> Result<(), AllocError>
    requires dir { TakesEntry files.old dir.0 }
    requires fresh { HasNoEntry files.old dir.0 name }
    requires file { TakesLink files.old number.0 dir.0 }
    ensures ok { OnOk result (LinksFile files.old number.0 dir.0 name now files.new) }
    ensures err { OnErr result (SameFiles files.old files.new) }
{
    reserve(files, dir)?;
    gain_link(files, number, dir, now);
    enter(files, dir, name, number, false, now);
    Ok(())
}

/// By how many bytes a file has grown, and the index of its volume.
#[derive(Clone, Copy)]
pub(crate) struct Growth {
    pub(crate) volume: u8,
    pub(crate) bytes: u64,
}

/// Puts bytes at an offset of a regular file, at least one. Refused only without memory, and then
/// clients see no change.
pub(crate) fn write(
    files: &mut Files<StoredFile>,
    number: Number,
    offset: usize,
    bytes: &[u8],
    now: Moment,
) -> Result<Growth, AllocError>
    requires some { 0 < length bytes.now }
    requires file { TakesBytes files.old number.0 offset (length bytes.now) }
    ensures ok { IfOk result (λ growth. Revalues files.old number.0 (Writes offset bytes.now growth now) files.new) }
    ensures err { OnErr result (SameFiles files.old files.new) }
{
    match files.get_mut(number) {
        Some(stored_file) => {
            let before = stored_file.size();
            write_bytes(stored_file, offset, bytes, now)?;
            Ok(Growth {
                volume: stored_file.volume,
                bytes: stored_file.size() - before,
            })
        }
        None => unreachable!(),
    }
}

/// Gives a regular file this size, and answers the size that it had. Refused only without memory
/// for what it grows by, and then clients see no change.
pub(crate) fn resize(
    files: &mut Files<StoredFile>,
    number: Number,
    size: usize,
    now: Moment,
) -> Result<u64, AllocError>
    requires { TakesSize files.old number.0 size }
    ensures ok { IfOk result (λ was. Revalues files.old number.0 (Resizes was size now) files.new) }
    ensures err { OnErr result (SameFiles files.old files.new) }
    ensures full { OnErr result (TakesGrowth files.old number.0 size) }
{
    match files.get_mut(number) {
        Some(stored_file) => {
            let before = stored_file.size();
            resize_bytes(stored_file, size, now)?;
            Ok(before)
        }
        None => unreachable!(),
    }
}

/// Sets the attributes of a file that are given.
pub(crate) fn set(
    files: &mut Files<StoredFile>,
    number: Number,
    given: &GivenAttributes,
    now: Moment,
)
    requires { IsThere files.old number.0 }
    ensures { Revalues files.old number.0 (SetsAttributes given.now now) files.new }
{
    match files.get_mut(number) {
        Some(stored_file) => set_attributes(stored_file, given, now),
        None => unreachable!(),
    }
}

// One link more for a file other than directory `dir`.
fn gain_link(files: &mut Files<StoredFile>, number: Number, dir: Number, now: Moment)
    requires { TakesLink files.old number.0 dir.0 }
    ensures { Revalues files.old number.0 (GainsLink now) files.new }
{
    match files.get_mut(number) {
        Some(stored_file) => {
            stored_file.nlink += 1;
            stored_file.ctime = now;
        }
        None => unreachable!(),
    }
}

/// Room in a directory for one entry more, and the index of its volume. Refused without memory, and
/// then clients see no change.
#[inline(always)]
pub(crate) fn reserve(files: &mut Files<StoredFile>, dir: Number) -> Result<u8, AllocError>
    requires { TakesEntry files.old dir.0 }
    ensures same { Revalues files.old dir.0 SameFile files.new }
    ensures index { IfOk result (λ index. option_map (λ parent. parent.volume) (value_at files.old dir.0) ≡ Some index) }
    ensures ok { OnOk result ((stored_file : StoredFile) → value_at files.new dir.0 ≡ Some stored_file → HasRoom stored_file) }
{
    match files.get_mut(dir) {
        Some(parent) => {
            reserve_entry(parent)?;
            Ok(parent.volume)
        }
        None => unreachable!(),
    }
}

/// One entry more in a directory, which has room for it.
#[inline(always)]
pub(crate) fn enter(
    files: &mut Files<StoredFile>,
    dir: Number,
    name: EntryName,
    number: Number,
    subdirectory: bool,
    now: Moment,
)
    requires dir { TakesEntry files.old dir.0 }
    requires room { (stored_file : StoredFile) → value_at files.old dir.0 ≡ Some stored_file → HasRoom stored_file }
    requires fresh { HasNoEntry files.old dir.0 name }
    ensures { Revalues files.old dir.0 (Enters name number.0 (one_when subdirectory) now) files.new }
{
    match files.get_mut(dir) {
        Some(parent) => add_entry(parent, name, number, subdirectory, now),
        None => unreachable!(),
    }
}
