//! The tree that has what was found in directories on disk.
ghost use Rattle.std.specs.Prelude.{◌≡◌, ℕ, List, drop, map, IfOk, OnOk};
ghost use Rattle.nfs_named.specs.Lives.{AreMadeOf, IsMadeOf, MadeDirectory, Takes, directory_lines, found_of, lines_at, mount_lines, path_line};
ghost use Rattle.nfs_disk.specs.declared.building.Made.{Made};

use crate::life::LifeDigest;
use crate::shared::SharedDirectory;
use nfs_disk::building::Building;
use nfs_disk::survey::Survey;
use nfs_disk::warning::Warning;
use nfs_handles::number::Number;
use nfs_inodes::tree::Tree;
use std::alloc::{AllocError, Global};
use std::rt::Files;

/// Makes what was found in each directory below the root of its volume, and lets it go. The digest takes its lines. What
/// is skipped is answered. `AllocError`.
pub(crate) fn fill<R: Files + AllocGlobal, D: LifeDigest>(
    rt: &R,
    alloc: Global,
    directories: Vec<SharedDirectory>,
    tree: &mut Tree,
    digest: &mut D,
) -> Result<Vec<Warning>, AllocError>
    ensures { IfOk result (λ _. (made : List MadeDirectory) × AreMadeOf directories.items made
        × Takes D.has digest.old (directory_lines 0 made) digest.new) }
{
    let mut warnings = Vec::new(alloc);
    let mut left = directories.into_iter();
    let mut index = 0usize;
    while let Some(directory) = left.next() {
        let mut skipped = fill_at(rt, alloc, index, directory, tree, digest)?;
        warnings.append(&mut skipped)?;
        index += 1;
    }
    Ok(warnings)
}

// The same for the directory of the volume at this index.
fn fill_at<R: Files + AllocGlobal, D: LifeDigest>(
    rt: &R,
    alloc: Global,
    index: usize,
    directory: SharedDirectory,
    tree: &mut Tree,
    digest: &mut D,
) -> Result<Vec<Warning>, AllocError>
    ensures { IfOk result (λ _. (it : MadeDirectory) × IsMadeOf directory it × Takes D.has digest.old (lines_at index it) digest.new) }
{
    let SharedDirectory { mount, survey } = directory;
    begin_volume(alloc, index, mount.as_str(), digest)?;
    let root = tree.volume(index).map(|volume| volume.root);
    fill_below(rt, alloc, survey, tree, root, digest)
}

// The line of a volume. The first has none.
fn begin_volume<D: LifeDigest>(
    alloc: Global,
    index: usize,
    mount: &str,
    digest: &mut D,
) -> Result<(), AllocError>
    ensures { OnOk result (Takes D.has digest.old (mount_lines index mount.now) digest.new) }
{
    if index == 0 {
        return Ok(());
    }
    digest.take_mount(alloc, mount)
}

// Makes what was found below a root.
fn fill_below<R: Files + AllocGlobal, D: LifeDigest>(
    rt: &R,
    alloc: Global,
    survey: Survey,
    tree: &mut Tree,
    root: Option<Number>,
    digest: &mut D,
) -> Result<Vec<Warning>, AllocError>
    ensures { IfOk result (λ _. (made : List Made) × (map found_of made ≡ drop 1 survey.found.items)
        × Takes D.has digest.old (map path_line made) digest.new) }
{
    let mut building = Building::begin(alloc, survey, tree, root)?;
    while let Some(made) = building.make_next(rt)? {
        digest.take_path(alloc, &made)?;
    }
    Ok(building.end())
}
