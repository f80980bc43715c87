//! Directories on disk that are shared as volumes.
ghost use Rattle.std.specs.Prelude.{◌≡◌, IfErr, IfOk, List, OnOk};
ghost use Rattle.nfs_disk.specs.Heads.{room_of};
ghost use Rattle.nfs_named.specs.Lives as lives;
ghost use Rattle.nfs_named.specs.Sharing.{IsTooLargeOf, Refuses, Takes, found_in, name_given};
ghost use Rattle.nfs_named.specs.Sharing as spec;

use crate::filling::fill;
use crate::life::LifeDigest;
use nfs_command_line::sharing::{Owner, Sharing, TreeWords};
use nfs_disk::fault::DiskFault;
use nfs_disk::head::{Head, Volume, head_of, room_for};
use nfs_disk::survey::{Extent, Purpose, Survey};
use nfs_disk::warning::Warning;
use nfs_load::description::load;
use nfs_load::load_error::LoadError;
use nfs_load::loaded::Loaded;
use nfs_source::diagnostic::Diagnostic;
use nfs_source::fault::Fault;
use nfs_source::sharing_fault::SharingFault;
use std::alloc::{AllocError, Global};
use std::fs;
use std::rt::Files;

// By which the key of some directories is multiplied for each further one: 2^64 by the golden ratio. It is odd, so that
// nothing of the key is lost.
const KEY_FACTOR: u64 = 0x9e37_79b9_7f4a_7c15;

/// Directories on disk as the volumes of one tree.
#[derive(Drop)]
pub struct SharedDirectories {
    /// What is skipped of them, in the order of the volumes.
    pub warnings: Vec<Warning>,
    /// The first lines of their description: the key, the limits, and the volumes with their exports.
    pub head: Vec<u8>,
    /// The tree, with the exports.
    pub loaded: Loaded,
}

/// A directory on disk as a volume of a tree.
#[derive(Drop)]
pub struct SharedDirectory {
    /// The path of the volume.
    pub mount: String,
    /// What was found on disk, and what of it is skipped.
    pub survey: Survey,
}

impl SharedDirectories {
    /// The directories that these words name. Their key is the one that is given, or without one that of the
    /// devices and numbers that they have on disk, which are the same each time. The digest takes the lines that
    /// the key of a life is drawn from. `CannotRead` where there is no such directory; `Sharing` where the words
    /// don't fit, or where more was found than a volume takes, before a file is read; `Memory`.
    pub fn read<R: Files + AllocGlobal, D: LifeDigest>(
        rt: &R,
        alloc: Global,
        trees: &[TreeWords<'_, '_>],
        key: Option<[u8; 8]>,
        purpose: Purpose,
        digest: &mut D,
    ) -> Result<SharedDirectories, Diagnostic>
        ensures { IfOk result (λ it. (made : List lives.MadeDirectory) × lives.Takes D.has digest.old (lives.life_lines it.head.items made) digest.new) }
    {
        let directories = survey_all(rt, alloc, trees, purpose)?;
        let key = key.unwrap_or(key_on_disk(directories.as_slice()));
        let head = head_for(alloc, trees, directories.as_slice(), key)?;
        let mut loaded = load_head(alloc, head.as_slice())?;
        digest.take_head(head.as_slice());
        let warnings = fill(rt, alloc, directories, &mut loaded.tree, digest)?;
        Ok(SharedDirectories {
            warnings,
            head,
            loaded,
        })
    }

    /// Whether something of them is skipped.
    pub fn is_partial(&self) -> bool
        ensures { result ≡ spec.is_any self.now.warnings.items }
    {
        !self.warnings.is_empty()
    }
}

impl SharedDirectory {
    // What stands in the directory of these words, before it is in a tree.
    fn survey<R: Files + AllocGlobal>(
        rt: &R,
        alloc: Global,
        tree: TreeWords<'_, '_>,
        purpose: Purpose,
    ) -> Result<SharedDirectory, Fault> {
        let (name, sharing) = (tree.name(), tree.sharing());
        let mut survey = match Survey::of(rt, name, purpose) {
            Ok(survey) => survey,
            Err(fault) => return Err(fault_of(alloc, name, fault)),
        };
        if let Some(owner) = sharing.chown().and_then(Owner::of_text) {
            survey.chown(owner.uid, owner.gid);
        }
        let mount = match sharing.mount() {
            Some(mount) => mount.to_string(alloc)?,
            None => mount_of(rt, alloc, name)?,
        };
        Ok(SharedDirectory { mount, survey })
    }

    // The directory as a volume that is shared like this.
    fn volume<'a>(&'a self, sharing: Sharing<'a, '_>) -> Volume<'a> {
        Volume {
            head: Head {
                mount: self.mount.as_str(),
                bytes: sharing.bytes(),
                files: sharing.files(),
                exports: sharing.exports(),
            },
            survey: &self.survey,
        }
    }
}

// What stands in each of the directories.
fn survey_all<R: Files + AllocGlobal>(
    rt: &R,
    alloc: Global,
    trees: &[TreeWords<'_, '_>],
    purpose: Purpose,
) -> Result<Vec<SharedDirectory>, Fault> {
    let mut directories = Vec::new(alloc);
    for tree in trees {
        directories.push(SharedDirectory::survey(rt, alloc, *tree, purpose)?)?;
    }
    Ok(directories)
}

// The key of directories by what each has on disk, where their order counts. That of one is what it has.
fn key_on_disk(directories: &[SharedDirectory]) -> [u8; 8] {
    let mut key = 0u64;
    for directory in directories {
        key = key.wrapping_mul(KEY_FACTOR) ^ number_on_disk(&directory.survey);
    }
    key.to_be_bytes()
}

// The device of a directory and its number there, in one number.
fn number_on_disk(survey: &Survey) -> u64 {
    match survey.found.first() {
        Some(first) => {
            let (device, number) = first.identity;
            device.rotate_left(32) ^ number
        }
        None => 0,
    }
}

// The first lines of the description. `TooLarge` and `TooLargeOf` where more was found than a volume takes.
fn head_for(
    alloc: Global,
    trees: &[TreeWords<'_, '_>],
    directories: &[SharedDirectory],
    key: [u8; 8],
) -> Result<Vec<u8>, Fault> {
    let mut volumes = Vec::new(alloc);
    for (tree, directory) in trees.iter().zip(directories.iter()) {
        let volume = directory.volume(tree.sharing());
        refuse_larger(alloc, name_among(trees, *tree), &volume)?;
        volumes.push(volume)?;
    }
    Ok(head_of(alloc, key, volumes.as_slice())?)
}

/// The name of one of several directories; that of an only one goes without saying.
pub(crate) fn name_among<'a>(
    trees: &[TreeWords<'_, '_>],
    tree: TreeWords<'a, '_>,
) -> Option<&'a str> {
    if trees.len() > 1 {
        Some(tree.name())
    } else {
        None
    }
}

// Refuses a directory in which more was found than its volume takes. It is named where it is one of several.
fn refuse_larger(alloc: Global, name: Option<&str>, volume: &Volume<'_>) -> Result<(), Fault>
    ensures takes { OnOk result (Takes (room_of volume.now) (found_in volume.now)) }
    ensures refuses { IfErr result (Refuses (name_given name.entry) (room_of volume.now) (found_in volume.now)) }
{
    match volume.survey.extent(alloc) {
        Ok(found) => check_extent(alloc, name, room_for(&volume.head, found), found),
        Err(error) => Err(Fault::Memory(error)),
    }
}

// Whether a volume takes what was found.
fn check_extent(alloc: Global, name: Option<&str>, room: Extent, found: Extent) -> Result<(), Fault>
    ensures takes { OnOk result (Takes room found) }
    ensures refuses { IfErr result (Refuses (name_given name.entry) room found) }
{
    if found.files <= room.files && found.bytes <= room.bytes {
        return Ok(());
    }
    match name {
        Some(name) => Err(too_large_of(alloc, name, room, found)),
        None => Err(Fault::Sharing(SharingFault::TooLarge {
            files: found.files,
            bytes: found.bytes,
            most_files: room.files,
            most_bytes: room.bytes,
        })),
    }
}

// The same fault of a directory with this name.
fn too_large_of(alloc: Global, name: &str, room: Extent, found: Extent) -> Fault
    ensures { IsTooLargeOf name.now room found result }
{
    match name.to_string(alloc) {
        Ok(name) => Fault::Sharing(SharingFault::TooLargeOf {
            name,
            files: found.files,
            bytes: found.bytes,
            most_files: room.files,
            most_bytes: room.bytes,
        }),
        Err(error) => Fault::Memory(error),
    }
}

// The path by which a directory is mounted where none is given: its name after a slash.
fn mount_of<R: Files + AllocGlobal>(rt: &R, alloc: Global, name: &str) -> Result<String, Fault> {
    match fs::canonicalize(rt, name) {
        Ok(path) => Ok(mount_at(alloc, path.as_str())?),
        Err(error) => Err(fault_of(alloc, name, DiskFault::CannotRead(error))),
    }
}

// A slash, and what stands after the last one of a path.
fn mount_at(alloc: Global, path: &str) -> Result<String, AllocError> {
    let last = match path.rsplit_once('/') {
        Some((_, last)) => last,
        None => path,
    };
    format!(in alloc; "/{last}")
}

// The volumes with nothing in them but their roots.
fn load_head(alloc: Global, head: &[u8]) -> Result<Loaded, Diagnostic> {
    match load(alloc, head) {
        Ok(loaded) => Ok(loaded),
        Err(LoadError::Memory) => Err(AllocError.into()),
        Err(LoadError::Fault { line, cause }) => {
            Err(Diagnostic::of_option(alloc, head, line, cause))
        }
    }
}

fn fault_of(alloc: Global, name: &str, fault: DiskFault) -> Fault {
    match fault {
        DiskFault::CannotRead(error) => match name.to_string(alloc) {
            Ok(name) => Fault::CannotRead { name, error },
            Err(error) => Fault::Memory(error),
        },
        DiskFault::Memory => Fault::Memory(AllocError),
    }
}
