//! The attributes of files, and the verifiers that made them.
ghost use Rattle.std.specs.Prelude.{◌≡◌, ℕ, ◌<◌};
ghost use Rattle.nfs_inodes.specs.Limits.{max_volumes};
ghost use Rattle.nfs_inodes.specs.Storage.{file_of, kind_of};
ghost use Rattle.nfs_inodes.specs.Reading.{attributes_at, verifier_at};
ghost use Rattle.nfs_inodes.specs.Reading as spec;

use crate::stored_file::{Node, StoredFile};
use crate::tree::Tree;
use nfs_attrs::fattr::{Fattr, SpecData};
use nfs_attrs::file_type::FileType;
use nfs_content::content::Content;
use nfs_handles::number::Number;

// What a directory is said to have, in bytes.
const DIRECTORY_SIZE: u64 = 4096;

impl Tree {
    /// The attributes of a file (RFC 1813, section 2.6, fattr3), found without a walk. `None`
    /// where none lives under the number.
    #[inline(always)]
    pub fn attributes(&self, number: Number) -> Option<Fattr>
        ensures { result ≡ attributes_at self.now number.0 }
    {
        match self.view(number) {
            Some(file) => Some(file.attributes()),
            None => None,
        }
    }

    /// The verifier of the exclusive CREATE that made a file (RFC 1813, section 3.3.8). `None`
    /// where it was made otherwise or none lives under the number.
    pub fn verifier(&self, number: Number) -> Option<[u8; 8]>
        ensures { result ≡ verifier_at self.now number.0 }
    {
        match self.files.get(number) {
            Some(stored_file) => stored_file.verifier,
            None => None,
        }
    }
}

#[inline(always)]
pub(crate) fn attributes_of(stored_file: &StoredFile, number: Number) -> Fattr
    requires { stored_file.now.volume < max_volumes }
    ensures { result ≡ spec.attributes_of number.0 (file_of 0 stored_file.now) stored_file.now.nlink }
{
    let size = size_of(&stored_file.node);
    Fattr {
        file_type: type_of(&stored_file.node),
        mode: stored_file.mode as u32,
        nlink: stored_file.nlink,
        uid: stored_file.uid,
        gid: stored_file.gid,
        size,
        used: size,
        rdev: SpecData {
            specdata1: 0,
            specdata2: 0,
        },
        fsid: stored_file.volume as u64 + 1,
        fileid: number.0,
        atime: stored_file.atime,
        mtime: stored_file.mtime,
        ctime: stored_file.ctime,
    }
}

#[inline(always)]
fn type_of(node: &Node) -> FileType
    ensures { result ≡ spec.type_of (kind_of node.now) }
{
    match node {
        Node::Regular(_) => FileType::Regular,
        Node::Directory { .. } => FileType::Directory,
        Node::Link(_) => FileType::SymbolicLink,
    }
}

#[inline(always)]
fn size_of(node: &Node) -> u64
    ensures { result ≡ spec.size_of (kind_of node.now) }
{
    match node {
        Node::Regular(content) => content.len() as u64,
        Node::Directory { .. } => DIRECTORY_SIZE,
        Node::Link(path) => path.len() as u64,
    }
}
