//! The tree that has what was found on disk.
ghost use Rattle.std.specs.Prelude.{◌≡◌, List, [], ◌∷◌, drop, IfOk, MatchOption};
ghost use Rattle.nfs_disk.specs.declared.found.Found.{Found};

use crate::content::{CHUNK_BYTES, ContentFault, content_of};
use crate::found::{Found, Kind, Times};
use crate::queue::FoundQueue;
use crate::survey::Survey;
use crate::warning::{SkipReason, Warning};
use nfs_attrs::moment::Moment;
use nfs_content::content::Content;
use nfs_handles::number::Number;
use nfs_inodes::given_attributes::GivenAttributes;
use nfs_inodes::new_file::{NewContent, NewFile};
use nfs_inodes::tree::Tree;
use nfs_load::statement::Given;
use std::alloc::{AllocError, Global};
use std::collections::BTreeMap;
use std::fs;
use std::marker::Model;
use std::rt::Files;

// The time of everything that is described.
const START: Moment = Moment {
    seconds: 0,
    nanos: 0,
};

/// A tree that is built from what was found on disk: each file by its first name and then its others. What can't be
/// made is skipped, with a warning, and so is what stands below it. What was found is let go bit by bit, so that there
/// is memory for the tree.
#[derive(Drop)]
pub struct Building<'a> {
    left: FoundQueue,
    builder: Builder<'a>,
}

impl<'a> Model for Building<'a> {
    ghost Value = { List Found };

    ghost view = { λ it. it.left };
}

/// One that was found, and what was made of it.
#[derive(Drop)]
pub struct Made {
    /// What was found.
    pub found: Found,
    /// The number that it has in the tree; `None` where it was not made.
    pub number: Option<Number>,
}

impl<'a> Building<'a> {
    /// Nothing is made yet. What was found is to be made below the root, which stands for the first of it; without a
    /// root nothing will be. `AllocError` where there is no memory.
    pub fn begin(
        alloc: Global,
        survey: Survey,
        tree: &'a mut Tree,
        root: Option<Number>,
    ) -> Result<Building<'a>, AllocError>
        ensures { IfOk result (λ it. it ≡ drop 1 survey.found.items) }
    {
        let Survey {
            purpose,
            directory,
            found,
            warnings,
        } = survey;
        let mut left = FoundQueue::new(found);
        let first = left.pop();
        let mut builder = Builder::new(alloc, tree, directory, purpose.has_times(), warnings)?;
        if let Some(root) = root
            && let Some(first) = first
        {
            builder.take(0, &first, root)?;
        }
        Ok(Building { left, builder })
    }

    /// Makes the next one, or skips it, and hands it on; `None` where none is left. `AllocError` where there is no memory.
    pub fn make_next<R: Files + AllocGlobal>(&mut self, rt: &R) -> Result<Option<Made>, AllocError>
        ensures { IfOk result (λ made. MatchOption made (self.old ≡ []) (λ it. self.old ≡ it.found ∷ self.new)) }
    {
        match self.left.pop() {
            Some(found) => {
                let number = self.builder.add(rt, &found)?;
                Ok(Some(Made { found, number }))
            }
            None => Ok(None),
        }
    }

    /// Gives each directory its times, once nothing more comes into it, and each file with several names. Answers what
    /// is skipped: what the survey left out, and then what could not be made.
    pub fn end(self) -> Vec<Warning> {
        let Building { builder, .. } = self;
        builder.end()
    }
}

// A tree that is built, without what is left to be made.
#[derive(Drop)]
struct Builder<'a> {
    alloc: Global,
    tree: &'a mut Tree,
    // The path of the first directory on disk.
    directory: String,
    // Whether files get the times that they have on disk.
    has_times: bool,
    // What files are read through.
    chunk: Vec<u8>,
    // The place of the next one among those that were found.
    place: usize,
    // The number of each directory that was made, by its place.
    directories: BTreeMap<usize, Number>,
    // The number of each file that has hard links, by its device and number on disk.
    first_names: BTreeMap<(u64, u64), Number>,
    // The times of files that may still change.
    late_times: Vec<(Number, Times)>,
    warnings: Vec<Warning>,
}

impl<'a> Builder<'a> {
    // Nothing is made yet.
    fn new(
        alloc: Global,
        tree: &'a mut Tree,
        directory: String,
        has_times: bool,
        warnings: Vec<Warning>,
    ) -> Result<Builder<'a>, AllocError> {
        let mut chunk = Vec::new(alloc);
        chunk.resize(CHUNK_BYTES, 0)?;
        Ok(Builder {
            alloc,
            tree,
            directory,
            has_times,
            chunk,
            place: 1,
            directories: BTreeMap::new(alloc),
            first_names: BTreeMap::new(alloc),
            late_times: Vec::new(alloc),
            warnings,
        })
    }

    // The number of one that was found, or a warning.
    fn add<R: Files + AllocGlobal>(
        &mut self,
        rt: &R,
        found: &Found,
    ) -> Result<Option<Number>, AllocError> {
        let place = self.place;
        self.place = place.saturating_add(1);
        let Some(dir) = self.directories.get(&found.parent).copied() else {
            return Ok(None);
        };
        match self.make(rt, dir, found)? {
            Ok(number) => {
                self.take(place, found, number)?;
                Ok(Some(number))
            }
            Err(reason) => {
                self.warnings.push(Warning {
                    path: found.disk_path(self.alloc, self.directory.as_str())?,
                    reason,
                })?;
                Ok(None)
            }
        }
    }

    // One that was made, with its place. It gets its times now if nothing that comes later changes them.
    fn take(&mut self, place: usize, found: &Found, number: Number) -> Result<(), AllocError> {
        let is_directory = found.kind == Kind::Directory;
        if is_directory {
            self.directories.insert(place, number)?;
        }
        if !self.has_times {
            return Ok(());
        }
        if is_directory || self.first_names.contains_key(&found.identity) {
            self.late_times.push((number, found.times))?;
        } else {
            set_times(self.tree, number, found.times);
        }
        Ok(())
    }

    // Sets the times that are left; what is skipped.
    fn end(self) -> Vec<Warning> {
        let Builder {
            tree,
            late_times,
            warnings,
            ..
        } = self;
        for (number, times) in &late_times {
            set_times(tree, *number, *times);
        }
        warnings
    }

    // A file in a directory, or why there is none.
    fn make<R: Files + AllocGlobal>(
        &mut self,
        rt: &R,
        dir: Number,
        found: &Found,
    ) -> Result<Result<Number, SkipReason>, AllocError> {
        let name = last_name(found.path.as_bytes());
        if found.kind == Kind::Directory {
            return self.mkdir(dir, name, found.given);
        }
        if let Some(first) = self.first_names.get(&found.identity).copied() {
            return self.add_name(dir, name, first);
        }
        let made = if found.kind == Kind::Link {
            self.make_link(rt, dir, name, found)?
        } else {
            self.make_file(rt, dir, name, found)?
        };
        if let Ok(number) = made
            && found.names > 1
        {
            self.first_names.insert(found.identity, number)?;
        }
        Ok(made)
    }

    fn mkdir(
        &mut self,
        dir: Number,
        name: &[u8],
        given: Given,
    ) -> Result<Result<Number, SkipReason>, AllocError> {
        if !self.tree.may_mkdir(dir, name) {
            return Ok(Err(SkipReason::Full));
        }
        Ok(Ok(self.tree.mkdir(dir, name, &new_file(given), START)?))
    }

    // A hard link of a file that was made.
    fn add_name(
        &mut self,
        dir: Number,
        name: &[u8],
        file: Number,
    ) -> Result<Result<Number, SkipReason>, AllocError> {
        if !self.tree.may_link(file, dir, name) {
            return Ok(Err(SkipReason::Full));
        }
        self.tree.link(file, dir, name, START)?;
        Ok(Ok(file))
    }

    fn make_file<R: Files + AllocGlobal>(
        &mut self,
        rt: &R,
        dir: Number,
        name: &[u8],
        found: &Found,
    ) -> Result<Result<Number, SkipReason>, AllocError> {
        self.tree.law();
        let most = self.tree.limits().file_size;
        let path = found.disk_path(self.alloc, self.directory.as_str())?;
        let path = path.as_str();
        let pages = match content_of(rt, self.alloc, self.chunk.as_mut_slice(), path, most) {
            Ok(pages) => pages,
            Err(ContentFault::Skipped(reason)) => return Ok(Err(reason)),
            Err(ContentFault::Memory) => return Err(AllocError),
        };
        if !self.tree.may_make(dir, name, pages.len()) {
            return Ok(Err(SkipReason::Full));
        }
        let content = NewContent {
            pages,
            verifier: None,
        };
        let given = new_file(found.given);
        Ok(Ok(self.tree.make_file(dir, name, content, &given, START)?))
    }

    fn make_link<R: Files + AllocGlobal>(
        &mut self,
        rt: &R,
        dir: Number,
        name: &[u8],
        found: &Found,
    ) -> Result<Result<Number, SkipReason>, AllocError> {
        let path = found.disk_path(self.alloc, self.directory.as_str())?;
        let Ok(target) = fs::read_link(rt, path.as_str()) else {
            return Ok(Err(SkipReason::Unreadable));
        };
        let target = target.to_string_lossy().as_bytes();
        if !self.tree.may_make_link(dir, name, target) {
            return Ok(Err(SkipReason::Full));
        }
        let given = new_file(found.given);
        Ok(Ok(self.tree.make_link(dir, name, target, &given, START)?))
    }
}

// The times of a file that lives.
fn set_times(tree: &mut Tree, number: Number, times: Times) {
    if tree.attributes(number).is_none() {
        return;
    }
    let given = GivenAttributes {
        mode: None,
        uid: None,
        gid: None,
        atime: Some(times.atime),
        mtime: Some(times.mtime),
    };
    tree.set(number, &given, times.ctime);
}

// What stands after a path's last slash.
fn last_name(path: &[u8]) -> &[u8] {
    match path.rsplit(|byte| *byte == b'/').next() {
        Some(name) => name,
        None => path,
    }
}

fn new_file(given: Given) -> NewFile {
    NewFile {
        mode: given.mode,
        uid: given.uid,
        gid: given.gid,
        atime: START,
        mtime: START,
    }
}
