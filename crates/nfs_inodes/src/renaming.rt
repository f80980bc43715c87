//! Entries that go from one name to another.
ghost use Rattle.std.specs.Prelude.{◌≡◌, ◌↔◌, IsTrue, List, OnOk, OnErr, Some, option_map};
ghost use Rattle.nfs_inodes.specs.declared.limits.Limits.{Limits};
ghost use Rattle.nfs_inodes.specs.declared.stored_volume.StoredVolume.{StoredVolume};
ghost use Rattle.nfs_inodes.specs.Changes.{after_rename};
ghost use Rattle.nfs_inodes.specs.Conditions.{MayRename, MayRenameSeen, NameApart};
ghost use Rattle.nfs_inodes.specs.Counts.{Agrees, tree_in};
ghost use Rattle.nfs_inodes.specs.Storage.{counted_tree_of};
ghost use Rattle.nfs_inodes.specs.StoredFiles.{Revalues, IsThere};
ghost use Rattle.nfs_inodes.specs.Renamings.{MovesTo, Carries, HasCarried, Renames};

use crate::limits::Limits;
use crate::removal::{Removal, is_directory, leave, standing_of, take_out};
use crate::stored_file::{StoredFile, set_parent};
use crate::stored_files::{enter, reserve};
use crate::stored_volume::StoredVolume;
use crate::tree::Tree;
use nfs_attrs::moment::Moment;
use nfs_entries::entry_name::EntryName;
use nfs_handles::files::Files;
use nfs_handles::number::Number;
use std::alloc::AllocError;

impl Tree {
    /// The entry of a name in directory `from` goes to another name in directory `to`, in place of
    /// what that named (RFC 1813, section 3.3.14). Where both names name one file nothing changes.
    /// Refused only without memory, and then the tree is as before.
    pub fn rename(
        &mut self,
        from: Number,
        name: &[u8],
        to: Number,
        new_name: &[u8],
        now: Moment,
    ) -> Result<(), AllocError>
        requires { MayRename self.old from.0 name.now to.0 new_name.now }
        ensures ok { OnOk result (self.new ≡ after_rename self.old from.0 name.now to.0 new_name.now now) }
        ensures err { OnErr result (self.new ≡ self.old) }
        ensures apart { OnErr result (NameApart self.old from.0 name.now to.0 new_name.now) }
    {
        let number = match self.entry(from, name) {
            Some(number) => number,
            None => unreachable!(),
        };
        let replaced = self.entry(to, new_name);
        let route = Route {
            number,
            from,
            to,
            replaced,
        };
        self.rename_seen(route, name, new_name, now)
    }

    /// The same where the files that both names name were seen, without a search for them.
    pub fn rename_seen(
        &mut self,
        route: Route,
        name: &[u8],
        new_name: &[u8],
        now: Moment,
    ) -> Result<(), AllocError>
        requires { MayRenameSeen self.old route name.now new_name.now }
        ensures ok { OnOk result (self.new ≡ after_rename self.old route.from.0 name.now route.to.0 new_name.now now) }
        ensures err { OnErr result (self.new ≡ self.old) }
        ensures apart { OnErr result (NameApart self.old route.from.0 name.now route.to.0 new_name.now) }
    {
        if is_number(route.replaced, route.number) {
            return Ok(());
        }
        let new_name = EntryName::copied(self.alloc, new_name)?;
        reserve(&mut self.files, route.to)?;
        move_entry(
            &mut self.files,
            &mut self.volumes,
            self.limits,
            route,
            name,
            new_name,
            now,
        );
        Ok(())
    }
}

/// Where an entry goes.
#[derive(Clone, Copy)]
pub struct Route {
    /// The file that it names.
    pub number: Number,
    /// The directory that it leaves.
    pub from: Number,
    /// The directory that it comes into.
    pub to: Number,
    /// The file that the new name names there, if it names one.
    pub replaced: Option<Number>,
}

// Whether a file was found, and it is this one.
fn is_number(found: Option<Number>, number: Number) -> bool
    ensures { IsTrue result ↔ (option_map (λ n. n.0) found ≡ Some number.0) }
{
    match found {
        Some(found) => found.0 == number.0,
        None => false,
    }
}

// The entry of a name goes to another, in place of that of the file that is replaced, if one is; there
// is room for it.
fn move_entry(
    files: &mut Files<StoredFile>,
    volumes: &mut Vec<StoredVolume>,
    limits: Limits,
    route: Route,
    name: &[u8],
    new_name: EntryName,
    now: Moment,
)
    requires { Renames limits files.old volumes.old.items route name.now new_name }
    ensures agree { Agrees (counted_tree_of limits files.new volumes.new.items) }
    ensures done { tree_in (counted_tree_of limits files.new volumes.new.items)
        ≡ after_rename (tree_in (counted_tree_of limits files.old volumes.old.items)) route.from.0 name.now route.to.0 new_name now }
{
    if let Some(old) = route.replaced {
        let removal = Removal {
            dir: route.to,
            number: old,
            file: standing_of(files, old),
        };
        take_out(files, volumes, limits, removal, new_name.as_slice(), now);
        carry(files, route, name, new_name, now);
        return;
    }
    carry(files, route, name, new_name, now);
}

// The entry of a name goes to another that is free, for which there is room.
fn carry(files: &mut Files<StoredFile>, route: Route, name: &[u8], new_name: EntryName, now: Moment)
    requires { (limits : Limits) × (stored_volumes : List StoredVolume) × Carries limits files.old stored_volumes route name.now new_name }
    ensures { (limits : Limits) (stored_volumes : List StoredVolume) → Carries limits files.old stored_volumes route name.now new_name
        → HasCarried limits files.old files.new stored_volumes route name.now new_name now }
{
    let subdirectory = is_directory(files, route.number);
    leave(files, route.from, name, subdirectory, now);
    move_to(files, route.number, route.to, now);
    enter(files, route.to, new_name, route.number, subdirectory, now);
}

// A file comes into directory `dir`.
fn move_to(files: &mut Files<StoredFile>, number: Number, dir: Number, now: Moment)
    requires { IsThere files.old number.0 }
    ensures { Revalues files.old number.0 (MovesTo dir.0 now) files.new }
{
    match files.get_mut(number) {
        Some(stored_file) => set_parent(stored_file, dir, now),
        None => unreachable!(),
    }
}
