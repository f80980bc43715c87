//! The tree of files.
ghost use Rattle.std.specs.Prelude.{◌≡◌, ◌+◌, ◌<◌, Option, Some, None, OnOk, OnErr, IfOk, length};
ghost use Rattle.std.specs.Prelude.{[], ◌∷◌, ◌++◌, vec_len, vec_capacity, map};
ghost use Rattle.nfs_inodes.specs.Tree.{File, Regular, Directory, Link};
ghost use Rattle.nfs_inodes.specs.Limits.{AreLimits, default_limits};
ghost use Rattle.nfs_inodes.specs.Law.{Law, Lives};
ghost use Rattle.nfs_inodes.specs.Changes.{Makes, after_make_file, after_mkdir, after_make_link};
ghost use Rattle.nfs_inodes.specs.Changes.{after_link, after_write_at, after_resize};
ghost use Rattle.nfs_inodes.specs.Changes.{after_set, after_add_volume, with_next_from, with_key};
ghost use Rattle.nfs_inodes.specs.Changes.{with_named_file, new_file, volume_index, with_limits};
ghost use Rattle.nfs_inodes.specs.Conditions.{MayMake, MayMakeDirectory, MayMakeLink, MayLink};
ghost use Rattle.nfs_inodes.specs.Conditions.{MayWrite, Grows, MayResize, MayAddVolume};
ghost use Rattle.nfs_inodes.specs.Storage.{kind_of, counted_volume_of};
ghost use Rattle.nfs_inodes.specs.StepConditions.{MayAddKind, HasRoomFor, HasBytes};
ghost use Rattle.nfs_inodes.specs.Counts.{with_totals};

use crate::copied::copied;
use crate::given_attributes::GivenAttributes;
use crate::limits::Limits;
use crate::new_file::{NewContent, NewFile};
use crate::stored_file::{Node, StoredFile};
use crate::stored_files::{add, link, reserve, resize, set, write};
use crate::stored_volume::StoredVolume;
use nfs_attrs::moment::Moment;
use nfs_entries::entry_name::EntryName;
use nfs_handles::files::Files;
use nfs_handles::number::Number;
use std::alloc::{AllocError, Global};
use std::marker::Model;

/// The tree of files: volumes, each a tree of directories, and files by their numbers.
#[derive(Drop)]
pub struct Tree {
    pub(crate) alloc: Global,
    pub(crate) files: Files<StoredFile>,
    pub(crate) volumes: Vec<StoredVolume>,
    pub(crate) limits: Limits,
}

impl Model for Tree {
    ghost use Rattle.nfs_inodes.specs.Tree as shown;

    ghost Value = { shown.Tree };

    ghost use Rattle.nfs_inodes.specs.Counts.{tree_in, Agrees};
    ghost use Rattle.nfs_inodes.specs.Storage.{counted_tree_of};

    ghost view = { λ a. tree_in (counted_tree_of a.limits a.files a.volumes.items) };

    ghost invariant = { λ a. Agrees (counted_tree_of a.limits a.files a.volumes.items) };
}

impl Tree {
    /// No volumes and no files; the key is the server's, in every handle.
    pub fn new(alloc: Global, key: [u8; 8]) -> Tree
        ensures { result ≡ record { files = []; next = 1; key = key; volumes = []; limits = default_limits } }
    {
        Tree::with_limits(alloc, key, Limits::standard())
    }

    /// The same with other limits.
    pub fn with_limits(alloc: Global, key: [u8; 8], limits: Limits) -> Tree
        requires { AreLimits limits }
        ensures { result ≡ record { files = []; next = 1; key = key; volumes = []; limits = limits } }
    {
        Tree {
            alloc,
            files: Files::new(alloc, key, 1),
            volumes: Vec::new(alloc),
            limits,
        }
    }

    /// What it takes at most of a file.
    pub fn limits(&self) -> Limits
        ensures { result ≡ self.now.limits }
    {
        self.limits
    }

    /// What always holds of the tree, for proofs.
    pub fn law(&self)
        ensures { Law self.now }
    {
        let _ = &self.files;
    }

    /// The number that the next new file takes.
    pub fn next_number(&self) -> u64
        ensures { result ≡ self.now.next }
    {
        self.files.next()
    }

    /// Raises the number that the next new file takes to at least this one, so that no file made from
    /// now on has a number that was given below it, in an earlier life of the server too.
    pub fn raise_next(&mut self, next: u64)
        ensures { self.new ≡ with_next_from self.old next }
    {
        self.files.raise_next(next);
    }

    /// Gives the tree another key: a handle with the former one is stale from now on (RFC 1813,
    /// section 2.6, NFS3ERR_STALE).
    pub fn set_key(&mut self, key: [u8; 8])
        ensures { self.new ≡ with_key self.old key }
    {
        self.files.set_key(key);
    }

    /// Gives the tree other limits, while it has no volume.
    pub fn set_limits(&mut self, limits: Limits)
        requires are { AreLimits limits }
        requires none { self.old.volumes ≡ [] }
        ensures { self.new ≡ with_limits self.old limits }
    {
        self.limits = limits;
    }

    /// Where the tree's memory comes from, and that of contents that become its own.
    pub fn allocator(&self) -> Global {
        self.alloc
    }

    /// A new regular file with this content, which becomes its own, and an entry in directory
    /// `dir`. Refused without memory, and then the tree is as before and the content is dropped.
    #[inline(always)]
    pub fn make_file(
        &mut self,
        dir: Number,
        name: &[u8],
        content: NewContent,
        given: &NewFile,
        now: Moment,
    ) -> Result<Number, AllocError>
        requires { MayMake self.old dir.0 name.now (length content.pages) }
        ensures ok { OnOk result (Makes self.old (λ tag. after_make_file self.old dir.0 name.now content.pages given.now content.verifier tag now)
            self.new) }
        ensures number { IfOk result (λ n. n.0 ≡ self.old.next) }
        ensures err { OnErr result (self.new ≡ self.old) }
    {
        let name = EntryName::copied(self.alloc, name)?;
        let NewContent { pages, verifier } = content;
        let made = NewNode {
            node: Node::Regular(pages),
            verifier,
        };
        self.make(dir, name, made, given, now)
    }

    /// A new directory, with an entry in directory `dir`, which has a link more by it. Refused
    /// without memory, and then the tree is as before.
    pub fn mkdir(
        &mut self,
        dir: Number,
        name: &[u8],
        given: &NewFile,
        now: Moment,
    ) -> Result<Number, AllocError>
        requires { MayMakeDirectory self.old dir.0 name.now }
        ensures ok { OnOk result (Makes self.old (λ tag. after_mkdir self.old dir.0 name.now given.now tag now) self.new) }
        ensures number { IfOk result (λ n. n.0 ≡ self.old.next) }
        ensures err { OnErr result (self.new ≡ self.old) }
    {
        let name = EntryName::copied(self.alloc, name)?;
        let node = Node::directory(self.alloc, dir)?;
        let made = NewNode {
            node,
            verifier: None,
        };
        self.make(dir, name, made, given, now)
    }

    /// A new link with this path, with an entry in directory `dir`. Refused without memory, and
    /// then the tree is as before.
    pub fn make_link(
        &mut self,
        dir: Number,
        name: &[u8],
        path: &[u8],
        given: &NewFile,
        now: Moment,
    ) -> Result<Number, AllocError>
        requires { MayMakeLink self.old dir.0 name.now path.now }
        ensures ok { OnOk result (Makes self.old (λ tag. after_make_link self.old dir.0 name.now path.now given.now tag now) self.new) }
        ensures number { IfOk result (λ n. n.0 ≡ self.old.next) }
        ensures err { OnErr result (self.new ≡ self.old) }
    {
        let path = copied(self.alloc, path)?;
        let name = EntryName::copied(self.alloc, name)?;
        let made = NewNode {
            node: Node::Link(path),
            verifier: None,
        };
        self.make(dir, name, made, given, now)
    }

    /// An entry in directory `dir` for a file that has one already (RFC 1813, section 3.3.15).
    /// Refused without memory, and then the tree is as before.
    pub fn link(
        &mut self,
        number: Number,
        dir: Number,
        name: &[u8],
        now: Moment,
    ) -> Result<(), AllocError>
        requires { MayLink self.old number.0 dir.0 name.now }
        ensures ok { OnOk result (self.new ≡ after_link self.old number.0 dir.0 name.now now) }
        ensures err { OnErr result (self.new ≡ self.old) }
    {
        let name = EntryName::copied(self.alloc, name)?;
        link(&mut self.files, number, dir, name, now)?;
        Ok(())
    }

    /// Puts bytes at an offset of a regular file, zeros in a gap before them; no bytes change
    /// nothing (RFC 1813, section 3.3.7). Refused only without memory for what the file grows by, or
    /// keeps no page of, and then the tree is as before.
    pub fn write_at(
        &mut self,
        number: Number,
        offset: usize,
        bytes: &[u8],
        now: Moment,
    ) -> Result<(), AllocError>
        requires { MayWrite self.old number.0 offset (length bytes.now) }
        ensures ok { OnOk result (self.new ≡ after_write_at self.old number.0 offset bytes.now now) }
        ensures err { OnErr result (self.new ≡ self.old) }
        ensures full { OnErr result (0 < length bytes.now) }
    {
        if bytes.is_empty() {
            return Ok(());
        }
        let growth = write(&mut self.files, number, offset, bytes, now)?;
        count(&mut self.volumes, growth.volume as usize, growth.bytes, 0);
        Ok(())
    }

    /// Gives a regular file this size: zeros where it grows, and what lies beyond is lost (RFC 1813,
    /// section 3.3.2). Refused only without memory for what it grows by, and then the tree is as
    /// before.
    pub fn resize(&mut self, number: Number, size: usize, now: Moment) -> Result<(), AllocError>
        requires { MayResize self.old number.0 size }
        ensures ok { OnOk result (self.new ≡ after_resize self.old number.0 size now) }
        ensures err { OnErr result (self.new ≡ self.old) }
        ensures full { OnErr result (Grows self.old number.0 0 size) }
    {
        let index = self.volume_index(number);
        let before = resize(&mut self.files, number, size, now)?;
        recount(&mut self.volumes, index, before, size as u64);
        Ok(())
    }

    /// Sets the attributes of a file that are given (RFC 1813, section 3.3.2); its ctime is `now`.
    pub fn set(&mut self, number: Number, given: &GivenAttributes, now: Moment)
        requires { (f : File) × Lives self.old number.0 f }
        ensures { self.new ≡ after_set self.old number.0 given.now now }
    {
        set(&mut self.files, number, given, now);
    }

    /// One volume more, of at most so many bytes and files, and its root, whose number is
    /// answered. Refused without memory, and then the tree is as before.
    pub fn add_volume(
        &mut self,
        path: &[u8],
        max_bytes: u64,
        max_files: u64,
        given: &NewFile,
        now: Moment,
    ) -> Result<Number, AllocError>
        requires { MayAddVolume self.old path.now max_bytes max_files }
        ensures ok { OnOk result (Makes self.old (λ tag. after_add_volume self.old path.now max_bytes max_files given.now tag now) self.new) }
        ensures number { IfOk result (λ n. n.0 ≡ self.old.next) }
        ensures err { OnErr result (self.new ≡ self.old) }
    {
        let path = copied(self.alloc, path)?;
        self.volumes.reserve(1)?;
        let parent = Number::new(self.files.next());
        let node = Node::directory(self.alloc, parent)?;
        let stored_file = StoredFile::new(self.volumes.len() as u8, node, given, None, now);
        let root = self.files.add(stored_file)?;
        append(
            &mut self.volumes,
            StoredVolume {
                path,
                max_bytes,
                max_files,
                root,
                bytes: 0,
                files: 1,
            },
        );
        Ok(root)
    }

    // The index of the volume of a file.
    pub(crate) fn volume_index(&self, number: Number) -> usize
        ensures { result ≡ volume_index self.now number.0 }
    {
        match self.files.get(number) {
            Some(stored_file) => stored_file.volume as usize,
            None => 0,
        }
    }

    // A new file with an entry in directory `dir`.
    #[inline(always)]
    fn make(
        &mut self,
        dir: Number,
        name: EntryName,
        made: NewNode,
        given: &NewFile,
        now: Moment,
    ) -> Result<Number, AllocError>
        requires { MayAddKind self.old dir.0 name (kind_of made.node) }
        ensures ok { OnOk result (Makes self.old (λ tag. with_named_file self.old dir.0 name
            (new_file (volume_index self.old dir.0) (kind_of made.node) given.now made.verifier tag now) now) self.new) }
        ensures number { IfOk result (λ n. n.0 ≡ self.old.next) }
        ensures err { OnErr result (self.new ≡ self.old) }
    {
        let index = reserve(&mut self.files, dir)?;
        let NewNode { node, verifier } = made;
        let stored_file = StoredFile::new(index, node, given, verifier, now);
        let size = stored_file.size();
        let number = add(&mut self.files, dir, name, stored_file, now)?;
        count(&mut self.volumes, index as usize, size, 1);
        Ok(number)
    }
}

// What is made, and the verifier of an exclusive CREATE that makes it.
#[derive(Drop)]
struct NewNode {
    node: Node,
    verifier: Option<[u8; 8]>,
}

// One volume more, for which there is room.
fn append(volumes: &mut Vec<StoredVolume>, stored_volume: StoredVolume)
    requires { vec_len volumes.old < vec_capacity volumes.old }
    ensures { volumes.new.items ≡ volumes.old.items ++ stored_volume ∷ [] }
{
    volumes.push(stored_volume).unwrap();
}

// So many bytes and files more in the volume of this index.
#[inline(always)]
fn count(volumes: &mut Vec<StoredVolume>, index: usize, bytes: u64, files: u64)
    requires { HasRoomFor volumes.old.items index bytes files }
    ensures { map counted_volume_of volumes.new.items ≡ with_totals (map counted_volume_of volumes.old.items) index bytes files }
{
    match volumes.get_mut(index) {
        Some(stored_volume) => {
            stored_volume.bytes += bytes;
            stored_volume.files += files;
        }
        None => unreachable!(),
    }
}

// So many bytes less and so many more in the volume of this index.
fn recount(volumes: &mut Vec<StoredVolume>, index: usize, less: u64, more: u64)
    requires { HasBytes volumes.old.items index less more }
    ensures { with_totals (map counted_volume_of volumes.new.items) index less 0
        ≡ with_totals (map counted_volume_of volumes.old.items) index more 0 }
{
    match volumes.get_mut(index) {
        Some(stored_volume) => stored_volume.bytes = stored_volume.bytes - less + more,
        None => unreachable!(),
    }
}
