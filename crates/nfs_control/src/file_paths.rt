//! The paths of some files, found in one walk over the tree.

use nfs_handles::number::Number;
use nfs_inodes::tree::Tree;
use nfs_words::text::Text;
use std::alloc::{AllocError, Global};
use std::collections::{BTreeMap, BTreeSet};

// The name of a directory's parent in it.
const PARENT: &[u8] = b"..";

// How many names a path may have that is looked for.
const MOST_NAMES: usize = 1_024;

/// The paths of some files, each by the first of its names that a walk comes to.
#[derive(Drop)]
pub(crate) struct FilePaths<'a> {
    // The directories, each after its parent.
    directories: Vec<Directory<'a>>,
    // Where the files that are wanted stand, by their numbers.
    places: BTreeMap<u64, Place<'a>>,
}

// Where a file stands: its name in a directory, by the place of that; or the path of a volume whose root it is.
#[derive(Clone, Copy)]
struct Place<'a> {
    parent: Option<usize>,
    name: &'a [u8],
}

#[derive(Clone, Copy)]
struct Directory<'a> {
    number: Number,
    place: Place<'a>,
}

impl<'a> FilePaths<'a> {
    /// Those of the files that are wanted. `AllocError` where there is no memory for that.
    pub(crate) fn find(
        alloc: Global,
        tree: &'a Tree,
        wanted: &BTreeSet<u64>,
    ) -> Result<FilePaths<'a>, AllocError> {
        let mut paths = FilePaths {
            directories: Vec::new(alloc),
            places: BTreeMap::new(alloc),
        };
        paths.put_roots(tree, wanted)?;
        for at in 0..usize::MAX {
            let Some(directory) = paths.directories.get(at).copied() else {
                break;
            };
            paths.enter(tree, at, directory.number, wanted)?;
        }
        Ok(paths)
    }

    /// Puts the path of a file at the end of a text, from that of its volume on; nothing where none was found.
    pub(crate) fn put(
        &self,
        alloc: Global,
        out: &mut Text,
        number: Number,
    ) -> Result<(), AllocError> {
        let mut names = Vec::new(alloc);
        let mut at = self.places.get(&number.0).copied();
        for _ in 0..MOST_NAMES {
            let Some(place) = at else {
                break;
            };
            names.push(place.name)?;
            at = self.parent_of(place);
        }
        let mut is_first = true;
        for name in names.iter().rev() {
            if !is_first {
                out.put(b"/");
            }
            out.put_name(name);
            is_first = false;
        }
        Ok(())
    }

    // Where the directory of a place stands.
    fn parent_of(&self, place: Place<'a>) -> Option<Place<'a>> {
        let parent = self.directories.get(place.parent?)?;
        Some(parent.place)
    }

    fn put_roots(&mut self, tree: &'a Tree, wanted: &BTreeSet<u64>) -> Result<(), AllocError> {
        for index in 0..tree.volumes() {
            if let Some(volume) = tree.volume(index) {
                let place = Place {
                    parent: None,
                    name: volume.path,
                };
                self.put_place(volume.root, place, wanted)?;
                self.directories.push(Directory {
                    number: volume.root,
                    place,
                })?;
            }
        }
        Ok(())
    }

    // Looks at the entries of a directory.
    fn enter(
        &mut self,
        tree: &'a Tree,
        at: usize,
        directory: Number,
        wanted: &BTreeSet<u64>,
    ) -> Result<(), AllocError> {
        let Some(view) = tree.view(directory) else {
            return Ok(());
        };
        let mut entries = view.entries();
        while let Some(entry) = entries.next() {
            let place = Place {
                parent: Some(at),
                name: entry.name,
            };
            self.put_place(entry.number, place, wanted)?;
            if tree.lookup(entry.number, PARENT).is_some() {
                self.directories.push(Directory {
                    number: entry.number,
                    place,
                })?;
            }
        }
        Ok(())
    }

    // Keeps where a file stands that is wanted, and was not found before.
    fn put_place(
        &mut self,
        number: Number,
        place: Place<'a>,
        wanted: &BTreeSet<u64>,
    ) -> Result<(), AllocError> {
        if wanted.contains(&number.0) && !self.places.contains_key(&number.0) {
            self.places.insert(number.0, place)?;
        }
        Ok(())
    }
}
