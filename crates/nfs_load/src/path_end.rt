//! Where a path leads in a volume.
ghost use Rattle.std.specs.Prelude.{◌≡◌, [], option_map};
ghost use Rattle.nfs_inodes.specs.Tree.{on_some};
ghost use Rattle.nfs_inodes.specs.Reading.{attributes_at};
ghost use Rattle.nfs_load.specs.PathEnds as spec;
ghost use Rattle.nfs_load.specs.PathEnds.{file_at, file_or_root_at, free_end, end_at, end_of, ends_of};

use crate::cause::Cause;
use crate::name_form::Name;
use crate::path::{Path, PathName};
use nfs_attrs::file_type::FileType;
use nfs_handles::number::Number;
use nfs_inodes::tree::Tree;

/// A directory, and a name in it.
#[derive(Drop)]
pub struct PathEnd<'a> {
    /// The directory.
    pub dir: Number,
    /// The name, which may be taken or not.
    pub name: PathName<'a>,
}

/// The directory in which a path ends, and the name that it ends with, from a root on. `None`
/// where a name on the way is missing, or what has to be a directory is none.
pub(crate) fn find_path_end<'a>(tree: &Tree, root: Number, path: &Path<'a>) -> Option<PathEnd<'a>>
    ensures { option_map end_of result ≡ end_at tree.now root.0 path.now }
{
    let mut names = path.names();
    let mut name = names.next()?;
    let mut dir = root;
    let mut room = Name::new();
    while let Some(next) = names.next() {
        dir = tree.lookup(dir, name.bytes(&mut room))?;
        name = next;
    }
    if !is_directory(tree, dir) {
        return None;
    }
    Some(PathEnd { dir, name })
}

/// An end whose name is not taken. The first of these: `NoParent` where there is no such end,
/// `NameTaken`.
pub(crate) fn find_free_end<'a>(
    tree: &Tree,
    root: Number,
    path: &Path<'a>,
) -> Result<PathEnd<'a>, Cause>
    ensures { ends_of result ≡ free_end tree.now root.0 path.now }
{
    let Some(end) = find_path_end(tree, root, path) else {
        return Err(Cause::NoParent);
    };
    let mut room = Name::new();
    if tree.lookup(end.dir, end.name.bytes(&mut room)).is_some() {
        return Err(Cause::NameTaken);
    }
    Ok(end)
}

/// The file that a path names, from a root on. `None` where there is none.
pub(crate) fn find_file(tree: &Tree, root: Number, path: &Path<'_>) -> Option<Number>
    ensures { option_map (λ n. n.0) result ≡ file_at tree.now root.0 path.now }
{
    let end = find_path_end(tree, root, path)?;
    let mut room = Name::new();
    tree.lookup(end.dir, end.name.bytes(&mut room))
}

/// The file that a path names; without one, the root.
pub(crate) fn find_file_or_root(
    tree: &Tree,
    root: Number,
    path: &Option<Path<'_>>,
) -> Option<Number>
    ensures { option_map (λ n. n.0) result ≡ file_or_root_at tree.now root.0 (on_some path.now [] (λ names. names)) }
{
    match path {
        Some(path) => {
            path.law();
            find_file(tree, root, path)
        }
        None => Some(root),
    }
}

/// Whether a file is a directory.
pub fn is_directory(tree: &Tree, number: Number) -> bool
    ensures { result ≡ spec.is_directory (attributes_at tree.now number.0) }
{
    match tree.attributes(number) {
        Some(attributes) => attributes.file_type == FileType::Directory,
        None => false,
    }
}
