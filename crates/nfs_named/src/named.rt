//! The tree that words name.
ghost use Rattle.std.specs.Prelude.{◌≡◌, ℕ, List, IfOk};
ghost use Rattle.nfs_named.specs.Lives.{MadeDirectory, Takes, key_of, life_lines};

use crate::life::{LifeDigest, NoDigest};
use crate::shared::{SharedDirectories, name_among};
use crate::skipped::report_skipped;
use nfs_command_line::sharing::{Sharing, TreeWords};
use nfs_command_line::trees::Trees;
use nfs_disk::survey::Purpose;
use nfs_lives::path_digest::PathDigest;
use nfs_load::loaded::Loaded;
use nfs_source::description::{Description, Life, load_life};
use nfs_source::diagnostic::Diagnostic;
use nfs_source::fault::Fault;
use nfs_source::sharing_fault::SharingFault;
use nfs_source::source::Source;
use std::alloc::{AllocError, Global};
use std::fs;
use std::os::unix::fs::MetadataExt;
use std::rt::Files;

/// The tree of a description or of a directory.
#[derive(Drop)]
pub struct NamedTree<'a> {
    /// What it says, with what is looked at of its text; of a directory the first lines, which a description of it would
    /// have.
    pub description: Description<'a>,
    /// Whether something of a directory is skipped.
    pub is_partial: bool,
}

impl<'a> NamedTree<'a> {
    /// The tree that the words name. What is skipped of a directory is reported on standard error. The
    /// faults of `Description::read` and of `SharedDirectories::read`; `Sharing` where words for a directory
    /// stand beside a description.
    pub fn read<R: Files + Input + Eprint + AllocGlobal>(
        rt: &R,
        alloc: Global,
        words: TreeWords<'a, '_>,
    ) -> Result<NamedTree<'a>, Diagnostic> {
        if !is_directory(rt, words.name()) {
            refuse_sharing(words.sharing())?;
            return Ok(NamedTree {
                description: Description::read(rt, alloc, words.name())?,
                is_partial: false,
            });
        }
        let shared = share(rt, alloc, &[words], &mut NoDigest)?;
        Ok(NamedTree::of_shared(words.name(), shared))
    }

    // The tree of a directory of this name.
    fn of_shared(name: &'a str, shared: SharedDirectories) -> NamedTree<'a> {
        let is_partial = shared.is_partial();
        let SharedDirectories { head, loaded, .. } = shared;
        let source = Source { name, text: head };
        NamedTree {
            description: Description { source, loaded },
            is_partial,
        }
    }

    /// The tree alone.
    pub fn load<R: Files + Input + Eprint + AllocGlobal>(
        rt: &R,
        alloc: Global,
        words: TreeWords<'a, '_>,
    ) -> Result<Loaded, Diagnostic> {
        let NamedTree { description, .. } = NamedTree::read(rt, alloc, words)?;
        let Description { loaded, .. } = description;
        Ok(loaded)
    }
}

/// The life of a server of the tree that the words name: that of a description, or of directories, each a volume of
/// it. Its key is that of the tree's key and of its paths; of directories, of their paths with the number that each
/// got. Each directory has to be exported to somebody, and where that is strict nothing of them may be skipped. The
/// faults of `NamedTree::read`, and `Sharing`.
pub fn begin_life<R: Files + Input + Eprint + AllocGlobal>(
    rt: &R,
    alloc: Global,
    words: Trees<'_, '_>,
    is_strict: bool,
) -> Result<Life, Diagnostic> {
    let trees: Vec<_> = words.collect(alloc)?;
    begin_life_of(rt, alloc, trees.as_slice(), is_strict)
}

/// The same of these words.
pub fn begin_life_of<R: Files + Input + Eprint + AllocGlobal>(
    rt: &R,
    alloc: Global,
    trees: &[TreeWords<'_, '_>],
    is_strict: bool,
) -> Result<Life, Diagnostic> {
    match description_in(rt, trees) {
        Some(alone) => {
            refuse_sharing(alone.sharing())?;
            load_life(rt, alloc, alone.name())
        }
        None => {
            refuse_unshared(rt, alloc, trees)?;
            begin_shared_life(rt, alloc, trees, is_strict)
        }
    }
}

/// The name of the description that the words name; `None` where they name directories.
pub fn description_name<'a, R: Files>(
    rt: &R,
    alloc: Global,
    words: Trees<'a, '_>,
) -> Result<Option<&'a str>, AllocError> {
    let trees: Vec<_> = words.collect(alloc)?;
    Ok(description_in(rt, trees.as_slice()).map(|tree| tree.name()))
}

// The one that names a description, where it is alone.
fn description_in<'a, 'w, R: Files>(
    rt: &R,
    trees: &[TreeWords<'a, 'w>],
) -> Option<TreeWords<'a, 'w>> {
    match trees.first() {
        Some(first) if trees.len() == 1 && !is_directory(rt, first.name()) => Some(*first),
        _ => None,
    }
}

// Refuses what is no directory, and a directory that nobody may reach. It is named where it is one of several.
fn refuse_unshared<R: Files>(
    rt: &R,
    alloc: Global,
    trees: &[TreeWords<'_, '_>],
) -> Result<(), Fault> {
    for tree in trees {
        if !is_directory(rt, tree.name()) {
            let name = tree.name().to_string(alloc)?;
            return Err(Fault::Sharing(SharingFault::NotAlone(name)));
        }
        if tree.sharing().exports().is_empty() {
            return Err(no_export(alloc, name_among(trees, *tree)));
        }
    }
    Ok(())
}

fn no_export(alloc: Global, name: Option<&str>) -> Fault {
    match name.map(|name| name.to_string(alloc)) {
        Some(Ok(name)) => Fault::Sharing(SharingFault::NoExportOf(name)),
        Some(Err(error)) => Fault::Memory(error),
        None => Fault::Sharing(SharingFault::NoExport),
    }
}

// The life of a server of directories, of which nothing may be skipped where that is strict.
fn begin_shared_life<R: Files + Eprint + AllocGlobal>(
    rt: &R,
    alloc: Global,
    trees: &[TreeWords<'_, '_>],
    is_strict: bool,
) -> Result<Life, Diagnostic>
    ensures { IfOk result (λ life. (head : List ℕ) × (made : List MadeDirectory) × (life.key ≡ key_of life.loaded.tree.key head made)) }
{
    let mut digest = PathDigest::new();
    let shared = share(rt, alloc, trees, &mut digest)?;
    if is_strict && shared.is_partial() {
        return Err(Fault::Sharing(SharingFault::Skipped).into());
    }
    let SharedDirectories { loaded, .. } = shared;
    let key = digest.finish(loaded.tree.key());
    Ok(Life { loaded, key })
}

/// Whether this is the name of a directory on disk.
pub fn is_directory<R: Files>(rt: &R, name: &str) -> bool {
    match fs::metadata(rt, name) {
        Ok(metadata) => metadata.is_dir(),
        Err(_) => false,
    }
}

/// Whether this is the name of a regular file, whose text can be read again from its begin, as that of standard input or
/// of a pipe can't.
pub fn is_file<R: Files>(rt: &R, name: &str) -> bool {
    if name == "-" {
        return false;
    }
    match fs::metadata(rt, name) {
        Ok(metadata) => metadata.is_file(),
        Err(_) => false,
    }
}

/// Whether two names are those of one file on disk.
pub fn is_same_file<R: Files>(rt: &R, one: &str, other: &str) -> bool {
    match (fs::metadata(rt, one), fs::metadata(rt, other)) {
        (Ok(one), Ok(other)) => one.dev() == other.dev() && one.ino() == other.ino(),
        _ => false,
    }
}

/// A description says itself how its volumes are shared: `Sharing` where words for a directory stand beside
/// one.
pub fn refuse_sharing(sharing: Sharing<'_, '_>) -> Result<(), Fault> {
    let is_plain = sharing.mount().is_none()
        && sharing.bytes().is_none()
        && sharing.files().is_none()
        && sharing.chown().is_none()
        && sharing.exports().is_empty();
    if is_plain {
        Ok(())
    } else {
        Err(Fault::Sharing(SharingFault::NoDirectory))
    }
}

// The directories, and what is skipped of them is reported.
fn share<R: Files + Eprint + AllocGlobal, D: LifeDigest>(
    rt: &R,
    alloc: Global,
    trees: &[TreeWords<'_, '_>],
    digest: &mut D,
) -> Result<SharedDirectories, Diagnostic>
    ensures { IfOk result (λ it. (made : List MadeDirectory) × Takes D.has digest.old (life_lines it.head.items made) digest.new) }
{
    let shared = SharedDirectories::read(rt, alloc, trees, None, Purpose::Serving, digest)?;
    report_skipped(rt, shared.warnings.as_slice());
    Ok(shared)
}
