//! The places of volumes, directory by directory.
ghost use Rattle.std.specs.Prelude.{◌≡◌, ◌∷◌, ◌++◌, IfOk};
ghost use Rattle.nfs_describe.specs.Places.{AreWalks, IsWalk, places_below, walks_of};

use crate::file_path::FilePath;
use nfs_handles::number::Number;
use nfs_inodes::tree::Tree;
use std::alloc::{AllocError, Global};

/// The places of each volume, volume by volume. Refused without memory.
pub(crate) fn walks(alloc: Global, tree: &Tree) -> Result<Vec<Vec<FilePath>>, AllocError>
    ensures { IfOk result (λ walks. AreWalks tree.now (walks_of walks.items)) }
{
    let mut walks = Vec::new(alloc);
    while let Some(volume) = tree.volume(walks.len()) {
        walks.push(walk(alloc, tree, volume.root)?)?;
    }
    Ok(walks)
}

/// The places below a root: the root, then what stands in it, then what stands in each directory of
/// these, and so on. Refused without memory.
pub(crate) fn walk(alloc: Global, tree: &Tree, root: Number) -> Result<Vec<FilePath>, AllocError>
    ensures { IfOk result (λ walk. IsWalk tree.now root.0 walk.items) }
{
    let mut places = Vec::new(alloc);
    places.push(FilePath {
        path: Vec::new(alloc),
        number: root,
    })?;
    for index in 0..usize::MAX {
        if index >= places.len() {
            return Ok(places);
        }
        let mut below = walk_below(alloc, tree, &places[index])?;
        places.append(&mut below)?;
    }
    Err(AllocError)
}

// The entries of a directory, in their order; none of another file.
fn walk_below(alloc: Global, tree: &Tree, place: &FilePath) -> Result<Vec<FilePath>, AllocError>
    ensures { IfOk result (λ below. below.items ≡ places_below tree.now place.now) }
{
    let mut below = Vec::new(alloc);
    let Some(dir) = tree.view(place.number) else {
        return Ok(below);
    };
    let mut entries = dir.entries();
    while let Some(entry) = entries.next() {
        below.push(FilePath {
            path: path_below(alloc, place, entry.name)?,
            number: entry.number,
        })?;
    }
    Ok(below)
}

// The path of a name in the directory at a place.
fn path_below(alloc: Global, place: &FilePath, name: &[u8]) -> Result<Vec<u8>, AllocError>
    ensures { IfOk result (λ path. path.items ≡ place.now.path ++ 47 ∷ name.now) }
{
    let mut path = Vec::new(alloc);
    path.extend_from_slice(place.path.as_slice())?;
    path.push(b'/')?;
    path.extend_from_slice(name)?;
    Ok(path)
}
