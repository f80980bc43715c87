//! The server that is measured, and the records of its calls.

use crate::described::{EXAMPLE, ROOM, loaded};
use crate::tree::grow;
use nfs_args::limits::MAX_DATA_BYTES;
use nfs_attrs::moment::Moment;
use nfs_content::pages::Pages;
use nfs_handles::number::Number;
use nfs_inodes::new_file::{NewContent, NewFile};
use nfs_inodes::tree::Tree;
use nfs_server::server::Server;
use std::alloc::{AllocError, Global};
use std::io;

const START: Moment = Moment {
    seconds: 0,
    nanos: 0,
};

const GIVEN: NewFile = NewFile {
    mode: 0o644,
    uid: 9,
    gid: 9,
    atime: START,
    mtime: START,
};

// A call of NFS up to the procedure.
const HEAD: [u8; 20] = [
    0, 0, 0, 42, 0, 0, 0, 0, 0, 0, 0, 2, 0, 1, 0x86, 0xa3, 0, 0, 0, 3,
];

// A call of NULL without a credential.
const NULL: [u8; 40] = [
    0, 0, 0, 42, 0, 0, 0, 0, 0, 0, 0, 2, 0, 1, 0x86, 0xa3, 0, 0, 0, 3, 0, 0, 0, 0, 0, 0, 0, 0, 0,
    0, 0, 0, 0, 0, 0, 0, 0, 0, 0, 0,
];

// The credential of user 9, an empty verifier, and the length of a handle.
const USER: [u8; 40] = [
    0, 0, 0, 1, 0, 0, 0, 20, 0, 0, 0, 0, 0, 0, 0, 0, 0, 0, 0, 9, 0, 0, 0, 9, 0, 0, 0, 0, 0, 0, 0,
    0, 0, 0, 0, 0, 0, 0, 0, 24,
];

// The directory `/pub`, and the file of user 9 that is made there.
const PUB: u64 = 2;

const LARGE: u64 = 9;

// Names after their lengths.
const X: [u8; 8] = [0, 0, 0, 1, b'x', 0, 0, 0];

const Y: [u8; 8] = [0, 0, 0, 1, b'y', 0, 0, 0];

const NOTHING: [u8; 24] = [0; 24];

const MODE: [u8; 8] = [0, 0, 0, 1, 0, 0, 1, 0xa4];

/// What the calls of a round name: a directory, a file, and a name in the directory after its length.
#[derive(Clone, Copy)]
pub(crate) struct Target {
    pub(crate) dir: u64,
    pub(crate) file: u64,
    pub(crate) name: [u8; 8],
}

/// What the calls of the example name.
pub(crate) const TARGET: Target = Target {
    dir: PUB,
    file: LARGE,
    name: X,
};

/// A server of the description, with a file of 128 KiB in `/pub`.
pub(crate) fn served(alloc: Global) -> io::Result<Server> {
    let mut loaded = loaded(alloc, EXAMPLE)?;
    let mut bytes = Vec::new(alloc);
    bytes.resize(MAX_DATA_BYTES, 7)?;
    make(&mut loaded.tree, bytes)?;
    Ok(Server::new(alloc, loaded, 128)?)
}

/// A server of so many directories of so many files of five bytes each.
pub(crate) fn served_many(alloc: Global, dirs: u32, files: u32) -> io::Result<Server> {
    let mut loaded = loaded(alloc, ROOM)?;
    grow(&mut loaded.tree, dirs, files, 0, b"hello")?;
    Ok(Server::new(alloc, loaded, 128)?)
}

fn make(tree: &mut Tree, bytes: Vec<u8>) -> Result<(), AllocError> {
    if tree.may_make(Number::new(PUB), b"large", bytes.len()) {
        tree.law();
        let content = NewContent {
            pages: Pages::of(tree.allocator(), bytes)?,
            verifier: None,
        };
        tree.make_file(Number::new(PUB), b"large", content, &GIVEN, START)?;
    }
    Ok(())
}

// A call by the handle of a file, with what stands after it.
fn record(
    alloc: Global,
    tree: &Tree,
    procedure: u8,
    number: u64,
    rest: &[u8],
) -> io::Result<Vec<u8>> {
    let mut record = Vec::with_capacity(alloc, 128)?;
    record.extend_from_slice(&HEAD)?;
    record.extend_from_slice(&[0, 0, 0, procedure])?;
    record.extend_from_slice(&USER)?;
    if let Some(handle) = tree.handle_of(number) {
        record.extend_from_slice(&handle)?;
    }
    record.extend_from_slice(rest)?;
    Ok(record)
}

/// Gives a call its number.
pub(crate) fn number(record: &mut [u8], xid: u32) {
    if record.len() >= 4 {
        record[..4].copy_from_slice(&xid.to_be_bytes());
    }
}

/// The first call of a round.
pub(crate) fn first_of(
    alloc: Global,
    tree: &Tree,
    target: &Target,
    name: &str,
) -> io::Result<Vec<u8>> {
    match name {
        "null" => with(Vec::new(alloc), &[&NULL]),
        "lookup-x" => record(alloc, tree, 3, target.dir, &target.name),
        "read-4096" => read(alloc, tree, target.file, 4_096),
        "read-65536" => read(alloc, tree, target.file, 65_536),
        "read-131072" => read(alloc, tree, target.file, 131_072),
        "access" => record(alloc, tree, 4, target.file, &[0, 0, 0, 0x3f]),
        "setattr" | "setattr-again" => {
            with(record(alloc, tree, 2, target.file, &MODE)?, &[&NOTHING])
        }
        "create-remove" => created(alloc, tree, target.dir, &Y),
        "remove-create" => record(alloc, tree, 12, target.dir, &target.name),
        "rename" => renamed(alloc, tree, target.dir, &target.name, &Y),
        "write-4096" => written(alloc, tree, target.file, 4_096),
        "write-65536" => written(alloc, tree, target.file, 65_536),
        "write-131072" => written(alloc, tree, target.file, 131_072),
        _ => record(alloc, tree, 1, target.file, &[]),
    }
}

/// The second one, which undoes the first.
pub(crate) fn second_of(
    alloc: Global,
    tree: &Tree,
    target: &Target,
    name: &str,
) -> io::Result<Option<Vec<u8>>> {
    match name {
        "create-remove" => Ok(Some(record(alloc, tree, 12, target.dir, &Y)?)),
        "remove-create" => Ok(Some(created(alloc, tree, target.dir, &target.name)?)),
        "rename" => Ok(Some(renamed(alloc, tree, target.dir, &Y, &target.name)?)),
        _ => Ok(None),
    }
}

// A READ of so many bytes from the file's beginning.
fn read(alloc: Global, tree: &Tree, file: u64, count: u32) -> io::Result<Vec<u8>> {
    let [a, b, c, d] = count.to_be_bytes();
    record(alloc, tree, 6, file, &[0, 0, 0, 0, 0, 0, 0, 0, a, b, c, d])
}

// A guarded CREATE.
fn created(alloc: Global, tree: &Tree, dir: u64, name: &[u8]) -> io::Result<Vec<u8>> {
    with(
        record(alloc, tree, 8, dir, name)?,
        &[&[0, 0, 0, 1], &NOTHING],
    )
}

// A RENAME within the directory.
fn renamed(alloc: Global, tree: &Tree, dir: u64, from: &[u8], to: &[u8]) -> io::Result<Vec<u8>> {
    let call = with(record(alloc, tree, 14, dir, from)?, &[&[0, 0, 0, 24]])?;
    match tree.handle_of(dir) {
        Some(handle) => with(call, &[&handle, to]),
        None => Ok(call),
    }
}

// A WRITE of so many zeros over the file's first bytes.
fn written(alloc: Global, tree: &Tree, file: u64, count: u32) -> io::Result<Vec<u8>> {
    let count_bytes = count.to_be_bytes();
    let mut call = with(
        record(alloc, tree, 7, file, &[0; 8])?,
        &[&count_bytes, &[0, 0, 0, 2], &count_bytes],
    )?;
    let len = call.len().saturating_add(count as usize);
    call.resize(len, 0)?;
    Ok(call)
}

// A call with more bytes after it.
fn with(mut call: Vec<u8>, parts: &[&[u8]]) -> io::Result<Vec<u8>> {
    for part in parts {
        call.extend_from_slice(part)?;
    }
    Ok(call)
}
