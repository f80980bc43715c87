//! What a call is about.

use crate::names::{MAX_HANDLE_BYTES, MAX_NAME_BYTES, MAX_PATH_BYTES, names_entry};
use nfs_args::program::{MOUNT_PROGRAM, NFS_PROGRAM, PROGRAM_VERSION};
use nfs_handles::number::Number;
use nfs_handles::reading::Reading;
use nfs_inodes::tree::Tree;
use nfs_rpc::call::{CallHead, read_call};
use std::alloc::{AllocError, Global};

/// What a call is about.
#[derive(Drop)]
pub enum Subject {
    /// Nothing that is known.
    Unknown,
    /// The file that its first handle names.
    File(Number),
    /// The entry of this name in the directory that its first handle names.
    Entry(Number, Vec<u8>),
    /// The path of a volume, which MOUNT is asked for.
    Volume(Vec<u8>),
}

/// What a record is about: `Unknown` where it is no call of a procedure that there is, or its arguments begin with no
/// handle of a file that lives. Refused without memory.
pub(crate) fn subject_of(alloc: Global, tree: &Tree, record: &[u8]) -> Result<Subject, AllocError> {
    match read_call(record) {
        Ok(head) if head.vers == PROGRAM_VERSION => match head.prog {
            NFS_PROGRAM => file_of(alloc, tree, head),
            MOUNT_PROGRAM => volume_of(alloc, head),
            _ => Ok(Subject::Unknown),
        },
        _ => Ok(Subject::Unknown),
    }
}

// What a call of NFS is about.
fn file_of(alloc: Global, tree: &Tree, head: CallHead<'_>) -> Result<Subject, AllocError> {
    let mut args = head.args;
    let Ok(handle) = args.opaque(MAX_HANDLE_BYTES) else {
        return Ok(Subject::Unknown);
    };
    let Reading::Live(number) = tree.read_handle(handle) else {
        return Ok(Subject::Unknown);
    };
    if names_entry(head.proc)
        && let Ok(name) = args.opaque(MAX_NAME_BYTES)
    {
        return Ok(Subject::Entry(number, name.to_vec(alloc)?));
    }
    Ok(Subject::File(number))
}

// What a call of MOUNT is about.
fn volume_of(alloc: Global, head: CallHead<'_>) -> Result<Subject, AllocError> {
    let mut args = head.args;
    match args.opaque(MAX_PATH_BYTES) {
        Ok(path) => Ok(Subject::Volume(path.to_vec(alloc)?)),
        Err(_) => Ok(Subject::Unknown),
    }
}
