//! The arguments of the procedures of NFS and of MOUNT.

use nfs_args::access::Access;
use nfs_args::args::{NfsArgs, read_nfs};
use nfs_args::byte_range::ByteRange;
use nfs_args::create::{Create, CreateHow};
use nfs_args::dir_op::DirOp;
use nfs_args::link::Link;
use nfs_args::mkdir::Mkdir;
use nfs_args::mknod::{DeviceData, Mknod, NodeData};
use nfs_args::mount_args::{MountArgs, read_mount};
use nfs_args::opaque::Opaque;
use nfs_args::procedure::{MountProcedure, Procedure};
use nfs_args::readdir::{Readdir, Readdirplus};
use nfs_args::rename::Rename;
use nfs_args::setattr::Setattr;
use nfs_args::symlink::Symlink;
use nfs_args::write::{Stability, Write};
use nfs_xdr::input::Input;
use rows::answers::{debug_text, digits, text, then, with};
use rows::words::{bytes, word};
use std::alloc::Global;
use std::str::SplitWhitespace;

// A procedure of one of the programs.
#[derive(Clone, Copy)]
enum Called {
    Nfs(Procedure),
    Mount(MountProcedure),
}

/// `args read PROGRAM PROCEDURE BYTES`, `args cuts PROGRAM PROCEDURE BYTES`, `args spoilt PROGRAM
/// PROCEDURE BYTES` and `args idle PROGRAM PROCEDURE BYTES`: the program is `nfs` or `mount`, the
/// procedure a number.
pub(crate) fn answer(alloc: Global, words: &mut SplitWhitespace<'_>) -> Option<String> {
    let verb = words.next()?;
    let called = procedure(words)?;
    let bytes = bytes(alloc, words)?;
    match verb {
        "read" => read(alloc, called, bytes.as_slice()),
        "cuts" => cuts(alloc, called, bytes.as_slice()),
        "spoilt" => positions(alloc, called, bytes.as_slice(), "unreadable"),
        "idle" => idle(alloc, called, bytes.as_slice()),
        _ => None,
    }
}

fn procedure(words: &mut SplitWhitespace<'_>) -> Option<Called> {
    let program = words.next()?;
    let number = word(words)?;
    match program {
        "nfs" => Some(Called::Nfs(Procedure::of(number)?)),
        "mount" => Some(Called::Mount(MountProcedure::of(number)?)),
        _ => None,
    }
}

// The name of the procedure and the fields of its arguments, or `unreadable`.
fn read(alloc: Global, called: Called, bytes: &[u8]) -> Option<String> {
    match called {
        Called::Nfs(procedure) => read_of_nfs(alloc, procedure, bytes),
        Called::Mount(procedure) => read_of_mount(alloc, procedure, bytes),
    }
}

fn read_of_nfs(alloc: Global, procedure: Procedure, bytes: &[u8]) -> Option<String> {
    match read_nfs(procedure, Input::new(bytes)) {
        Ok(args) => fields_of_nfs(alloc, &args),
        Err(_) => text(alloc, "unreadable"),
    }
}

fn read_of_mount(alloc: Global, procedure: MountProcedure, bytes: &[u8]) -> Option<String> {
    match read_mount(procedure, Input::new(bytes)) {
        Ok(args) => fields_of_mount(alloc, &args),
        Err(_) => text(alloc, "unreadable"),
    }
}

// For how many numbers of bytes the first ones are unreadable.
fn cuts(alloc: Global, called: Called, bytes: &[u8]) -> Option<String> {
    let mut unreadable = 0u32;
    for len in 0..bytes.len() {
        if gives(alloc, called, &bytes[..len], "unreadable")? {
            unreadable = unreadable.saturating_add(1);
        }
    }
    debug_text(alloc, unreadable)
}

// The positions at which a byte ff changes nothing.
fn idle(alloc: Global, called: Called, bytes: &[u8]) -> Option<String> {
    let want = read(alloc, called, bytes)?;
    positions(alloc, called, bytes, want.as_str())
}

// The positions at which a byte ff makes what is read what is wanted.
fn positions(alloc: Global, called: Called, bytes: &[u8], want: &str) -> Option<String> {
    let mut positions = Vec::new(alloc);
    for position in 0..bytes.len() {
        let spoilt = spoilt(alloc, bytes, position)?;
        if gives(alloc, called, spoilt.as_slice(), want)? {
            positions.push(position).ok()?;
        }
    }
    debug_text(alloc, positions.as_slice())
}

// The bytes with ff at a position.
fn spoilt(alloc: Global, bytes: &[u8], position: usize) -> Option<Vec<u8>> {
    let mut spoilt = bytes.to_vec(alloc).ok()?;
    *spoilt.get_mut(position)? = 0xff;
    Some(spoilt)
}

// Whether this is what is read.
fn gives(alloc: Global, called: Called, bytes: &[u8], want: &str) -> Option<bool> {
    let answer = read(alloc, called, bytes)?;
    Some(answer.as_str() == want)
}

fn fields_of_nfs(alloc: Global, args: &NfsArgs<'_>) -> Option<String> {
    match args {
        NfsArgs::Null => text(alloc, "NULL"),
        NfsArgs::Getattr(file) => by_file(alloc, "GETATTR", file),
        NfsArgs::Setattr(args) => setattr(alloc, args),
        NfsArgs::Lookup(args) => by_name(alloc, "LOOKUP", args),
        NfsArgs::Access(args) => access(alloc, args),
        NfsArgs::Readlink(file) => by_file(alloc, "READLINK", file),
        NfsArgs::Read(args) => byte_range(alloc, "READ", args),
        NfsArgs::Write(args) => write(alloc, args),
        NfsArgs::Create(args) => create(alloc, args),
        NfsArgs::Mkdir(args) => mkdir(alloc, args),
        NfsArgs::Symlink(args) => symlink(alloc, args),
        NfsArgs::Mknod(args) => mknod(alloc, args),
        NfsArgs::Remove(args) => by_name(alloc, "REMOVE", args),
        NfsArgs::Rmdir(args) => by_name(alloc, "RMDIR", args),
        NfsArgs::Rename(args) => rename(alloc, args),
        NfsArgs::Link(args) => link(alloc, args),
        NfsArgs::Readdir(args) => readdir(alloc, args),
        NfsArgs::Readdirplus(args) => readdirplus(alloc, args),
        NfsArgs::Fsstat(file) => by_file(alloc, "FSSTAT", file),
        NfsArgs::Fsinfo(file) => by_file(alloc, "FSINFO", file),
        NfsArgs::Pathconf(file) => by_file(alloc, "PATHCONF", file),
        NfsArgs::Commit(args) => byte_range(alloc, "COMMIT", args),
    }
}

fn fields_of_mount(alloc: Global, args: &MountArgs<'_>) -> Option<String> {
    match args {
        MountArgs::Null => text(alloc, "NULL"),
        MountArgs::Mount(path) => by_path(alloc, "MNT", path),
        MountArgs::Dump => text(alloc, "DUMP"),
        MountArgs::Unmount(path) => by_path(alloc, "UMNT", path),
        MountArgs::UnmountAll => text(alloc, "UMNTALL"),
        MountArgs::Export => text(alloc, "EXPORT"),
    }
}

fn by_file(alloc: Global, procedure: &str, file: &Opaque<'_>) -> Option<String> {
    with_bytes(alloc, text(alloc, procedure)?, "file", file)
}

fn by_path(alloc: Global, procedure: &str, path: &Opaque<'_>) -> Option<String> {
    with_bytes(alloc, text(alloc, procedure)?, "path", path)
}

fn by_name(alloc: Global, procedure: &str, place: &DirOp<'_>) -> Option<String> {
    with_name(alloc, text(alloc, procedure)?, place)
}

fn setattr(alloc: Global, args: &Setattr<'_>) -> Option<String> {
    let file = by_file(alloc, "SETATTR", &args.file)?;
    let attributes = with(alloc, file, "set", args.attributes)?;
    with(alloc, attributes, "guard", args.guard)
}

fn access(alloc: Global, args: &Access<'_>) -> Option<String> {
    let file = by_file(alloc, "ACCESS", &args.file)?;
    with(alloc, file, "rights", args.rights)
}

fn byte_range(alloc: Global, procedure: &str, args: &ByteRange<'_>) -> Option<String> {
    let file = by_file(alloc, procedure, &args.file)?;
    let offset = with(alloc, file, "offset", args.offset)?;
    with(alloc, offset, "count", args.count)
}

fn write(alloc: Global, args: &Write<'_>) -> Option<String> {
    let file = by_file(alloc, "WRITE", &args.file)?;
    let offset = with(alloc, file, "offset", args.offset)?;
    let stable = then(offset, stability(args.stable))?;
    with_bytes(alloc, stable, "data", &args.content)
}

fn stability(stable: Stability) -> &'static str {
    match stable {
        Stability::Unstable => "UNSTABLE",
        Stability::DataSync => "DATA_SYNC",
        Stability::FileSync => "FILE_SYNC",
    }
}

fn create(alloc: Global, args: &Create<'_>) -> Option<String> {
    let place = by_name(alloc, "CREATE", &args.place)?;
    match &args.how {
        CreateHow::Unchecked(attributes) => with(alloc, place, "UNCHECKED", *attributes),
        CreateHow::Guarded(attributes) => with(alloc, place, "GUARDED", *attributes),
        CreateHow::Exclusive(verifier) => {
            with_bytes(alloc, place, "EXCLUSIVE", &Opaque::new(verifier.as_slice()))
        }
    }
}

fn mkdir(alloc: Global, args: &Mkdir<'_>) -> Option<String> {
    let place = by_name(alloc, "MKDIR", &args.place)?;
    with(alloc, place, "set", args.attributes)
}

fn symlink(alloc: Global, args: &Symlink<'_>) -> Option<String> {
    let place = by_name(alloc, "SYMLINK", &args.place)?;
    let attributes = with(alloc, place, "set", args.attributes)?;
    with_bytes(alloc, attributes, "path", &args.path)
}

fn mknod(alloc: Global, args: &Mknod<'_>) -> Option<String> {
    let place = by_name(alloc, "MKNOD", &args.place)?;
    match &args.node {
        NodeData::Regular => then(place, "REG"),
        NodeData::Directory => then(place, "DIR"),
        NodeData::BlockDevice(data) => with_device(alloc, place, "BLK", data),
        NodeData::CharacterDevice(data) => with_device(alloc, place, "CHR", data),
        NodeData::SymbolicLink => then(place, "LNK"),
        NodeData::Socket(attributes) => with(alloc, place, "SOCK", *attributes),
        NodeData::Fifo(attributes) => with(alloc, place, "FIFO", *attributes),
    }
}

fn rename(alloc: Global, args: &Rename<'_>) -> Option<String> {
    let from = by_name(alloc, "RENAME", &args.from)?;
    with_name(alloc, then(from, "to")?, &args.to)
}

fn link(alloc: Global, args: &Link<'_>) -> Option<String> {
    let file = by_file(alloc, "LINK", &args.file)?;
    with_name(alloc, file, &args.place)
}

fn readdir(alloc: Global, args: &Readdir<'_>) -> Option<String> {
    let dir = with_bytes(alloc, text(alloc, "READDIR")?, "dir", &args.dir)?;
    let cookie = with(alloc, dir, "cookie", args.cookie)?;
    let verifier = with_bytes(alloc, cookie, "verifier", &args.verifier)?;
    with(alloc, verifier, "count", args.count)
}

fn readdirplus(alloc: Global, args: &Readdirplus<'_>) -> Option<String> {
    let dir = with_bytes(alloc, text(alloc, "READDIRPLUS")?, "dir", &args.dir)?;
    let cookie = with(alloc, dir, "cookie", args.cookie)?;
    let verifier = with_bytes(alloc, cookie, "verifier", &args.verifier)?;
    let dircount = with(alloc, verifier, "dircount", args.dircount)?;
    with(alloc, dircount, "maxcount", args.maxcount)
}

// An answer with the name in a directory after it.
fn with_name(alloc: Global, answer: String, place: &DirOp<'_>) -> Option<String> {
    let dir = with_bytes(alloc, answer, "dir", &place.dir)?;
    with_bytes(alloc, dir, "name", &place.name)
}

// An answer with a kind and what is known of a device after it.
fn with_device(alloc: Global, answer: String, kind: &str, data: &DeviceData) -> Option<String> {
    let attributes = with(alloc, answer, kind, data.attributes)?;
    with(alloc, attributes, "device", data.device)
}

// An answer with a word and bytes after it.
fn with_bytes(alloc: Global, answer: String, word: &str, bytes: &Opaque<'_>) -> Option<String> {
    let said = digits(alloc, bytes.bytes())?;
    then(then(answer, word)?, said.as_str())
}
