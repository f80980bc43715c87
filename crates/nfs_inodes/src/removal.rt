//! Entries that go, and files with their last.
ghost use Rattle.std.specs.Prelude.{◌≡◌, ◌≢◌, ◌⊎◌, ℕ, true, false, map};
ghost use Rattle.nfs_inodes.specs.Tree.{one_when, on_some, is_directory};
ghost use Rattle.nfs_inodes.specs.Views as seen;
ghost use Rattle.nfs_inodes.specs.Changes.{after_unlink};
ghost use Rattle.nfs_inodes.specs.Conditions.{MayUnlink, MayUnlinkSeen};
ghost use Rattle.nfs_inodes.specs.Counts.{Agrees, tree_in, with_totals};
ghost use Rattle.nfs_inodes.specs.Storage.{kind_of, counted_tree_of, counted_volume_of};
ghost use Rattle.nfs_inodes.specs.StoredFiles.{Revalues};
ghost use Rattle.nfs_inodes.specs.Removals.{HasRoomAt, LosesEntry, Leaves, Goes, Stays};
ghost use Rattle.nfs_inodes.specs.Removals.{HasEntries, HasTotals, Removes, Stands};
ghost use Rattle.nfs_handles.specs.NumberedFiles.{value_at};

use crate::limits::Limits;
use crate::stored_file::{StoredFile, remove_entry};
use crate::stored_volume::StoredVolume;
use crate::tree::Tree;
use crate::view::FileView;
use nfs_attrs::file_type::FileType;
use nfs_attrs::moment::Moment;
use nfs_handles::files::Files;
use nfs_handles::number::Number;

impl Tree {
    /// The entry of a name leaves directory `dir`, and with its last entry what it named: a file, or
    /// a directory without entries (RFC 1813, sections 3.3.12 and 3.3.13).
    pub fn unlink(&mut self, dir: Number, name: &[u8], now: Moment)
        requires { MayUnlink self.old dir.0 name.now }
        ensures { self.new ≡ after_unlink self.old dir.0 name.now now }
    {
        let number = match self.entry(dir, name) {
            Some(number) => number,
            None => unreachable!(),
        };
        let file = standing_of(&self.files, number);
        let removal = Removal { dir, number, file };
        take_out(
            &mut self.files,
            &mut self.volumes,
            self.limits,
            removal,
            name,
            now,
        );
    }

    /// The same where the file that the entry names was seen, without a search for it.
    #[inline(always)]
    pub fn unlink_seen(
        &mut self,
        dir: Number,
        name: &[u8],
        number: Number,
        file: Standing,
        now: Moment,
    )
        requires { MayUnlinkSeen self.old dir.0 name.now number.0 file }
        ensures { self.new ≡ after_unlink self.old dir.0 name.now now }
    {
        let removal = Removal { dir, number, file };
        take_out(
            &mut self.files,
            &mut self.volumes,
            self.limits,
            removal,
            name,
            now,
        );
    }
}

/// What a removal has to know of the file that an entry names.
#[derive(Clone, Copy)]
pub struct Standing {
    /// Whether it is a directory.
    pub directory: bool,
    /// Whether it has no entry but one: a directory, or a file with one link.
    pub last: bool,
}

impl FileView<'_> {
    /// What a removal of its entry has to know of this file.
    #[inline(always)]
    pub fn standing(&self) -> Standing
        ensures { result ≡ seen.standing_of self.now.attributes }
    {
        let file = self.attributes();
        let directory = file.file_type == FileType::Directory;
        Standing {
            directory,
            last: directory || file.nlink <= 1,
        }
    }
}

/// What a file that has left gives back, to the volume of this index.
#[derive(Clone, Copy)]
pub(crate) struct Freed {
    pub(crate) volume: u8,
    pub(crate) bytes: u64,
    pub(crate) files: u64,
}

/// An entry that goes: its directory, the file that it names, and what is known of that.
#[derive(Clone, Copy)]
pub(crate) struct Removal {
    pub(crate) dir: Number,
    pub(crate) number: Number,
    pub(crate) file: Standing,
}

/// The entry of a name leaves its directory, and the file that it names with its last.
#[inline(always)]
pub(crate) fn take_out(
    files: &mut Files<StoredFile>,
    volumes: &mut Vec<StoredVolume>,
    limits: Limits,
    removal: Removal,
    name: &[u8],
    now: Moment,
)
    requires removes { Removes limits files.old volumes.old.items removal.dir.0 name.now removal.number.0 }
    requires stands { Stands files.old removal.number.0 removal.file }
    ensures agree { Agrees (counted_tree_of limits files.new volumes.new.items) }
    ensures done { tree_in (counted_tree_of limits files.new volumes.new.items)
        ≡ after_unlink (tree_in (counted_tree_of limits files.old volumes.old.items)) removal.dir.0 name.now now }
    ensures room { (d : ℕ) → d ≢ removal.number.0 → HasRoomAt files.old d → HasRoomAt files.new d }
{
    leave(files, removal.dir, name, removal.file.directory, now);
    let freed = release(files, removal.number, removal.file.last, now);
    discount(volumes, freed.volume as usize, freed.bytes, freed.files);
}

/// What a removal of its entry has to know of a file.
pub(crate) fn standing_of(files: &Files<StoredFile>, number: Number) -> Standing
    ensures { Stands files.now number.0 result }
{
    match files.get(number) {
        Some(stored_file) => Standing {
            directory: stored_file.is_directory(),
            last: stored_file.is_directory() || stored_file.nlink <= 1,
        },
        None => Standing {
            directory: false,
            last: true,
        },
    }
}

/// Whether a file is a directory.
pub(crate) fn is_directory(files: &Files<StoredFile>, number: Number) -> bool
    ensures { result ≡ on_some (value_at files.now number.0) false (λ f. is_directory (kind_of f.node)) }
{
    match files.get(number) {
        Some(stored_file) => stored_file.is_directory(),
        None => false,
    }
}

/// One entry less in a directory, which loses the link of a subdirectory.
#[inline(always)]
pub(crate) fn leave(
    files: &mut Files<StoredFile>,
    dir: Number,
    name: &[u8],
    subdirectory: bool,
    now: Moment,
)
    requires { LosesEntry files.old dir.0 (one_when subdirectory) }
    ensures { Revalues files.old dir.0 (Leaves name.now (one_when subdirectory) now) files.new }
{
    match files.get_mut(dir) {
        Some(parent) => remove_entry(parent, name, subdirectory, now),
        None => unreachable!(),
    }
}

// A file that has lost an entry leaves with its last, or has a link less.
#[inline(always)]
fn release(files: &mut Files<StoredFile>, number: Number, last: bool, now: Moment) -> Freed
    requires { HasEntries last files.old number.0 }
    ensures { Goes files.old number.0 result files.new ⊎ Stays files.old number.0 now result files.new }
{
    if last {
        free(files, number)
    } else {
        lose_link(files, number, now)
    }
}

#[inline(always)]
fn free(files: &mut Files<StoredFile>, number: Number) -> Freed
    requires { HasEntries true files.old number.0 }
    ensures { Goes files.old number.0 result files.new }
{
    match files.take(number) {
        Some(stored_file) => Freed {
            volume: stored_file.volume,
            bytes: stored_file.size(),
            files: 1,
        },
        None => unreachable!(),
    }
}

#[inline(always)]
fn lose_link(files: &mut Files<StoredFile>, number: Number, now: Moment) -> Freed
    requires { HasEntries false files.old number.0 }
    ensures { Stays files.old number.0 now result files.new }
{
    match files.get_mut(number) {
        Some(stored_file) => {
            stored_file.nlink -= 1;
            stored_file.ctime = now;
            Freed {
                volume: stored_file.volume,
                bytes: 0,
                files: 0,
            }
        }
        None => unreachable!(),
    }
}

// So many bytes and files less in the volume of this index.
#[inline(always)]
fn discount(volumes: &mut Vec<StoredVolume>, index: usize, bytes: u64, files: u64)
    requires { HasTotals volumes.old.items index bytes files }
    ensures { with_totals (map counted_volume_of volumes.new.items) index bytes files ≡ map counted_volume_of volumes.old.items }
{
    match volumes.get_mut(index) {
        Some(stored_volume) => {
            stored_volume.bytes -= bytes;
            stored_volume.files -= files;
        }
        None => unreachable!(),
    }
}
