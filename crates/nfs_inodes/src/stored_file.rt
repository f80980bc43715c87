//! A file as it is kept, and what is done to it alone.
ghost use Rattle.std.specs.Prelude.{◌≡◌, ◌+◌, ◌<◌, ◌≤◌, ◌^◌, ◌*◌, OnOk, OnErr, length, IsTrue};
ghost use Rattle.std.specs.Prelude.{◌%◌, if◌then◌else◌, None, IfOk, []};
ghost use Rattle.nfs_inodes.specs.Limits.{max_file_bytes, max_links};
ghost use Rattle.nfs_inodes.specs.Tree.{Directory, is_directory, is_regular, entries_in, next_cookie_in, bytes_in};
ghost use Rattle.nfs_inodes.specs.Tree.{one_when, on_some};
ghost use Rattle.nfs_inodes.specs.Changes.{entered, file_with_bytes, new_file};
ghost use Rattle.nfs_inodes.specs.Changes.{left, moved_to, resized_to};
ghost use Rattle.nfs_inodes.specs.Changes.{with_given};
ghost use Rattle.nfs_inodes.specs.Reading.{entry_named};
ghost use Rattle.nfs_inodes.specs.Storage.{file_of, kind_of, HasRoom};

use crate::given_attributes::GivenAttributes;
use crate::new_file::NewFile;
use nfs_attrs::moment::Moment;
use nfs_content::content::Content;
use nfs_content::pages::Pages;
use nfs_entries::directory_entries::DirectoryEntries;
use nfs_entries::entry_name::EntryName;
use nfs_handles::number::Number;
use std::alloc::{AllocError, Global};

/// What a file is, as it is kept.
#[derive(Drop)]
pub(crate) enum Node {
    Regular(Pages),
    // The entries lie apart, so that a file of another kind takes no room for them.
    Directory {
        parent: Number,
        entries: Box<DirectoryEntries>,
    },
    Link(Vec<u8>),
}

// `.` and `..` have the cookies 1 and 2.
const FIRST_COOKIE: u64 = 3;

impl Node {
    /// A directory with no entries.
    pub(crate) fn directory(alloc: Global, parent: Number) -> Result<Node, AllocError>
        ensures { IfOk result (λ node. kind_of node ≡ Directory parent.0 3 []) }
    {
        let entries = Box::new(alloc, DirectoryEntries::new(alloc, FIRST_COOKIE))?;
        Ok(Node::Directory { parent, entries })
    }
}

/// A file as it is kept, with the index of its volume and the number of its links.
#[derive(Drop)]
pub(crate) struct StoredFile {
    pub(crate) node: Node,
    pub(crate) uid: u32,
    pub(crate) gid: u32,
    pub(crate) nlink: u32,
    pub(crate) atime: Moment,
    pub(crate) mtime: Moment,
    pub(crate) ctime: Moment,
    pub(crate) mode: u16,
    pub(crate) volume: u8,
    pub(crate) verifier: Option<[u8; 8]>,
}

// Fields stand in memory as they are listed: in this order, none leaves a byte unused.
const _: () = prove!(size_of::<StoredFile>() == 96);

impl StoredFile {
    /// A new file, with the links that it has once it has an entry.
    #[inline(always)]
    pub(crate) fn new(
        volume: u8,
        node: Node,
        given: &NewFile,
        verifier: Option<[u8; 8]>,
        now: Moment,
    ) -> StoredFile
        ensures file { file_of 0 result ≡ new_file volume (kind_of node) given.now verifier 0 now }
        ensures nlink { result.nlink ≡ (if is_directory (kind_of node) then 2 else 1) }
    {
        let nlink = match &node {
            Node::Directory { .. } => 2,
            _ => 1,
        };
        StoredFile {
            volume,
            node,
            mode: low_bits(given.mode),
            uid: given.uid,
            gid: given.gid,
            atime: given.atime,
            mtime: given.mtime,
            ctime: now,
            verifier,
            nlink,
        }
    }

    /// How many bytes it has, as a regular file.
    #[inline(always)]
    pub(crate) fn size(&self) -> u64
        ensures { result ≡ length (bytes_in (file_of 0 self.now).kind) }
    {
        match &self.node {
            Node::Regular(content) => content.len() as u64,
            _ => 0,
        }
    }

    /// Whether it is a directory.
    #[inline(always)]
    pub(crate) fn is_directory(&self) -> bool
        ensures { result ≡ is_directory (file_of 0 self.now).kind }
    {
        match &self.node {
            Node::Directory { .. } => true,
            _ => false,
        }
    }
}

/// Room for one entry more in a directory.
#[inline(always)]
pub(crate) fn reserve_entry(stored_file: &mut StoredFile) -> Result<(), AllocError>
    requires { IsTrue (is_directory (file_of 0 stored_file.old).kind) }
    ensures ok { OnOk result (HasRoom stored_file.new) }
    ensures full { OnErr result (HasRoom stored_file.old → ⊥) }
    ensures file { file_of 0 stored_file.new ≡ file_of 0 stored_file.old }
    ensures nlink { stored_file.new.nlink ≡ stored_file.old.nlink }
{
    match &mut stored_file.node {
        Node::Directory { entries, .. } => entries.reserve(),
        _ => unreachable!(),
    }
}

/// One entry more in a directory, which has room for it.
#[inline(always)]
pub(crate) fn add_entry(
    stored_file: &mut StoredFile,
    name: EntryName,
    number: Number,
    subdirectory: bool,
    now: Moment,
)
    requires dir { IsTrue (is_directory (file_of 0 stored_file.old).kind) }
    requires room { HasRoom stored_file.old }
    requires fresh { entry_named name (entries_in (file_of 0 stored_file.old).kind) ≡ None }
    requires next { next_cookie_in (file_of 0 stored_file.old).kind + 1 < 2 ^ 64 }
    requires links { stored_file.old.nlink ≤ max_links }
    ensures file { file_of 0 stored_file.new ≡ entered (file_of 0 stored_file.old) name number.0 now }
    ensures nlink { stored_file.new.nlink ≡ stored_file.old.nlink + one_when subdirectory }
{
    stored_file.mtime = now;
    stored_file.ctime = now;
    if subdirectory {
        stored_file.nlink += 1;
    }
    match &mut stored_file.node {
        Node::Directory { entries, .. } => entries.push(name, number),
        _ => unreachable!(),
    }
}

/// A directory without the entry of a name, and without the link of a subdirectory.
#[inline(always)]
pub(crate) fn remove_entry(
    stored_file: &mut StoredFile,
    name: &[u8],
    subdirectory: bool,
    now: Moment,
)
    requires { one_when subdirectory ≤ stored_file.old.nlink }
    ensures file { file_of 0 stored_file.new ≡ left (file_of 0 stored_file.old) name.now now }
    ensures nlink { stored_file.new.nlink + one_when subdirectory ≡ stored_file.old.nlink }
    ensures room { HasRoom stored_file.old → HasRoom stored_file.new }
{
    if subdirectory {
        stored_file.nlink -= 1;
    }
    match &mut stored_file.node {
        Node::Directory { entries, .. } => entries.remove(name),
        _ => {}
    }
    stored_file.mtime = now;
    stored_file.ctime = now;
}

/// A file that comes into directory `dir`, which is then a directory's parent.
pub(crate) fn set_parent(stored_file: &mut StoredFile, dir: Number, now: Moment)
    ensures file { file_of 0 stored_file.new ≡ moved_to (file_of 0 stored_file.old) dir.0 now }
    ensures nlink { stored_file.new.nlink ≡ stored_file.old.nlink }
    ensures room { HasRoom stored_file.old → HasRoom stored_file.new }
{
    match &mut stored_file.node {
        Node::Directory { parent, .. } => *parent = dir,
        _ => {}
    }
    stored_file.ctime = now;
}

/// Puts bytes at an offset of a regular file, zeros in a gap before them. Refused only without
/// memory, and then it is as before.
pub(crate) fn write_bytes(
    stored_file: &mut StoredFile,
    offset: usize,
    bytes: &[u8],
    now: Moment,
) -> Result<(), AllocError>
    requires regular { IsTrue (is_regular (file_of 0 stored_file.old).kind) }
    requires some { 0 < length bytes.now }
    requires size { offset + length bytes.now ≤ max_file_bytes }
    ensures ok { OnOk result (file_of 0 stored_file.new ≡ file_with_bytes (file_of 0 stored_file.old) offset bytes.now now) }
    ensures err { OnErr result (file_of 0 stored_file.new ≡ file_of 0 stored_file.old) }
    ensures nlink { stored_file.new.nlink ≡ stored_file.old.nlink }
{
    match &mut stored_file.node {
        Node::Regular(content) => content.put_at(offset, bytes)?,
        _ => unreachable!(),
    }
    stored_file.mtime = now;
    stored_file.ctime = now;
    Ok(())
}

/// Gives a regular file this size, with zeros where it grows. Refused only without memory for what
/// it grows by, and then it is as before.
pub(crate) fn resize_bytes(
    stored_file: &mut StoredFile,
    size: usize,
    now: Moment,
) -> Result<(), AllocError>
    requires regular { IsTrue (is_regular (file_of 0 stored_file.old).kind) }
    requires size { size ≤ max_file_bytes }
    ensures ok { OnOk result (file_of 0 stored_file.new ≡ resized_to (file_of 0 stored_file.old) size now) }
    ensures err { OnErr result (file_of 0 stored_file.new ≡ file_of 0 stored_file.old) }
    ensures full { OnErr result (length (bytes_in (file_of 0 stored_file.old).kind) < size) }
    ensures nlink { stored_file.new.nlink ≡ stored_file.old.nlink }
{
    match &mut stored_file.node {
        Node::Regular(content) => content.set_len(size)?,
        _ => unreachable!(),
    }
    stored_file.mtime = now;
    stored_file.ctime = now;
    Ok(())
}

/// Sets the attributes that are given.
pub(crate) fn set_attributes(stored_file: &mut StoredFile, given: &GivenAttributes, now: Moment)
    ensures file { file_of 0 stored_file.new ≡ with_given (file_of 0 stored_file.old) given.now now }
    ensures nlink { stored_file.new.nlink ≡ stored_file.old.nlink }
{
    stored_file.mode = mode_of(given.mode, stored_file.mode);
    stored_file.uid = given.uid.unwrap_or(stored_file.uid);
    stored_file.gid = given.gid.unwrap_or(stored_file.gid);
    stored_file.atime = given.atime.unwrap_or(stored_file.atime);
    stored_file.mtime = given.mtime.unwrap_or(stored_file.mtime);
    stored_file.ctime = now;
}

// The low 12 bits of a mode that is given, or else the mode that was.
fn mode_of(given: Option<u32>, was: u16) -> u16
    ensures { result ≡ on_some given was (λ mode. mode % 4096) }
{
    match given {
        Some(mode) => low_bits(mode),
        None => was,
    }
}

// The low 12 bits of a mode.
#[inline(always)]
fn low_bits(mode: u32) -> u16
    ensures { result ≡ mode % 4096 }
{
    (mode % 4096) as u16
}
