//! The names of calls: of their procedures, and of the files that they are about.

use nfs_args::procedure::{MountProcedure, Procedure};
use nfs_args::program::{MOUNT_PROGRAM, NFS_PROGRAM, PROGRAM_VERSION};
use nfs_handles::number::Number;
use nfs_handles::reading::Reading;
use nfs_inodes::tree::Tree;
use nfs_rpc::call::read_call;
use nfs_text::number::decimal;
use nfs_text::words::Words;
use nfs_words::text::Text;
use nfs_xdr::input::Input;
use std::alloc::{AllocError, Global};

/// The largest handle, and the longest path of MOUNT (RFC 1813, sections 2.4 and 5.1.4).
pub(crate) const MAX_HANDLE_BYTES: u32 = 64;

pub(crate) const MAX_PATH_BYTES: u32 = 1_024;

/// The most bytes of a name that is looked at.
pub(crate) const MAX_NAME_BYTES: u32 = 1_024;

// The name of a directory's parent in it.
const PARENT: &[u8] = b"..";

// How many names a path is looked for.
const MOST_NAMES: u32 = 1_024;

/// What stands after the audit line of a call: ` call=NAME`, and ` path=PATH` where its first handle
/// names a file that a path of the tree leads to, or a path is what it asks for. With an entry, the name
/// that the call gives of one in that directory follows the path, after a slash. Nothing of a record
/// that is no call of a procedure that there is. Refused without memory.
pub fn names_of(
    alloc: Global,
    tree: &Tree,
    record: &[u8],
    with_entry: bool,
) -> Result<Vec<u8>, AllocError> {
    let mut names = Text::new(alloc);
    if let Ok(head) = read_call(record)
        && head.vers == PROGRAM_VERSION
        && let Some(name) = procedure_name(head.prog, head.proc)
    {
        names.put(b" call=");
        names.put(name);
        let has_entry = with_entry && head.prog == NFS_PROGRAM && names_entry(head.proc);
        put_path(alloc, tree, head.prog, head.args, has_entry, &mut names)?;
    }
    names.into_bytes()
}

/// The name of the procedure of which an audit line speaks, by its words `prog=` and `proc=`, unless the
/// call was of another version of its program.
pub fn name_in(line: &[u8]) -> Option<&'static [u8]> {
    if Words::new(line).any(|word| word == b"rule=program-version".as_slice()) {
        return None;
    }
    let program = number_after(line, b"prog=")?;
    procedure_name(program, number_after(line, b"proc=")?)
}

fn number_after(line: &[u8], key: &[u8]) -> Option<u32> {
    for word in Words::new(line) {
        if let Some(digits) = word.strip_prefix(key) {
            return u32::try_from(decimal(digits, u64::from(u32::MAX))?).ok();
        }
    }
    None
}

/// The name of a procedure, if there is one of this program and number.
pub fn procedure_name(program: u32, procedure: u32) -> Option<&'static [u8]> {
    match program {
        NFS_PROGRAM => Some(Procedure::of(procedure)?.name()),
        MOUNT_PROGRAM => Some(MountProcedure::of(procedure)?.name()),
        _ => None,
    }
}

/// Whether the arguments of a procedure of NFS begin with a directory and a name in it (RFC 1813, section
/// 2.6, diropargs3).
pub(crate) fn names_entry(procedure: u32) -> bool {
    matches!(
        Procedure::of(procedure),
        Some(
            Procedure::Lookup
                | Procedure::Create
                | Procedure::Mkdir
                | Procedure::Symlink
                | Procedure::Mknod
                | Procedure::Remove
                | Procedure::Rmdir
                | Procedure::Rename
        )
    )
}

// Puts the path that a call is about, where its arguments begin with one or with a handle, and the name of
// the entry that follows the handle, if one does.
fn put_path(
    alloc: Global,
    tree: &Tree,
    program: u32,
    args: Input<'_>,
    has_entry: bool,
    out: &mut Text,
) -> Result<(), AllocError> {
    let mut args = args;
    if program == MOUNT_PROGRAM {
        if let Ok(path) = args.opaque(MAX_PATH_BYTES) {
            out.put(b" path=");
            out.put_name(path);
        }
        return Ok(());
    }
    let Ok(handle) = args.opaque(MAX_HANDLE_BYTES) else {
        return Ok(());
    };
    if let Reading::Live(number) = tree.read_handle(handle)
        && let Some(path) = path_of(alloc, tree, number)?
    {
        out.put(b" path=");
        out.put_name(path.as_slice());
        if has_entry && let Ok(name) = args.opaque(MAX_NAME_BYTES) {
            out.put(b"/");
            out.put_name(name);
        }
    }
    Ok(())
}

// The path of a file, from the path of its volume on, by the first of its names. `None` where no path
// leads to it.
fn path_of(alloc: Global, tree: &Tree, number: Number) -> Result<Option<Vec<u8>>, AllocError> {
    let mut names = Vec::new(alloc);
    let mut at = number;
    for _ in 0..MOST_NAMES {
        if let Some(path) = path_of_root(tree, at) {
            return Ok(Some(joined(alloc, path, names.as_slice())?));
        }
        let Some((dir, name)) = entry_of(alloc, tree, at)? else {
            break;
        };
        names.push(name)?;
        at = dir;
    }
    Ok(None)
}

// The path of the volume that has this root.
fn path_of_root(tree: &Tree, root: Number) -> Option<&[u8]> {
    for index in 0..tree.volumes() {
        if let Some(volume) = tree.volume(index)
            && volume.root.0 == root.0
        {
            return Some(volume.path);
        }
    }
    None
}

// A directory with an entry of a file, and the entry's name: the parent of a directory, and for another
// file the directory of the lowest number that has one.
fn entry_of(
    alloc: Global,
    tree: &Tree,
    file: Number,
) -> Result<Option<(Number, &[u8])>, AllocError> {
    if let Some(parent) = tree.lookup(file, PARENT) {
        return Ok(entry_in(tree, parent, file));
    }
    let mut found: Option<(Number, &[u8])> = None;
    for dir in directories(alloc, tree)?.as_slice() {
        let is_lower = match found {
            Some((lowest, _)) => dir.0 < lowest.0,
            None => true,
        };
        if is_lower && let Some(entry) = entry_in(tree, *dir, file) {
            found = Some(entry);
        }
    }
    Ok(found)
}

fn entry_in(tree: &Tree, dir: Number, file: Number) -> Option<(Number, &[u8])> {
    Some((dir, name_within(tree, dir, file)?))
}

// All directories.
fn directories(alloc: Global, tree: &Tree) -> Result<Vec<Number>, AllocError> {
    let mut dirs = Vec::new(alloc);
    for index in 0..tree.volumes() {
        if let Some(volume) = tree.volume(index) {
            dirs.push(volume.root)?;
        }
    }
    for index in 0..usize::MAX {
        if index >= dirs.len() {
            break;
        }
        let dir = dirs[index];
        put_directories(tree, dir, &mut dirs)?;
    }
    Ok(dirs)
}

// Puts the directories that have an entry in this one after the others.
fn put_directories(tree: &Tree, dir: Number, dirs: &mut Vec<Number>) -> Result<(), AllocError> {
    let Some(dir) = tree.view(dir) else {
        return Ok(());
    };
    let mut entries = dir.entries();
    while let Some(entry) = entries.next() {
        if tree.lookup(entry.number, PARENT).is_some() {
            dirs.push(entry.number)?;
        }
    }
    Ok(())
}

fn name_within(tree: &Tree, dir: Number, file: Number) -> Option<&[u8]> {
    let mut entries = tree.view(dir)?.entries();
    while let Some(entry) = entries.next() {
        if entry.number.0 == file.0 {
            return Some(entry.name);
        }
    }
    None
}

// A path with names below it, of which the last comes first.
fn joined(alloc: Global, path: &[u8], names: &[&[u8]]) -> Result<Vec<u8>, AllocError> {
    let mut whole = path.to_vec(alloc)?;
    for name in names.iter().rev() {
        whole.push(b'/')?;
        whole.extend_from_slice(name)?;
    }
    Ok(whole)
}
