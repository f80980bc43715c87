//! What changes the tree: names that come, go and move, attributes and sizes.

use crate::tree::{GIVEN, ROOT, ROUNDS, START, grown, letters};
use nfs_conditions::bytes::may_resize;
use nfs_conditions::entries::may_unlink;
use nfs_conditions::moves::may_rename;
use nfs_content::pages::Pages;
use nfs_handles::number::Number;
use nfs_inodes::given_attributes::GivenAttributes;
use nfs_inodes::new_file::NewContent;
use nfs_inodes::tree::Tree;
use std::alloc::{AllocError, Global};
use std::io;
use std::rt::Clock;
use std::time::Instant;

const MODE: GivenAttributes = GivenAttributes {
    mode: Some(0o640),
    uid: None,
    gid: None,
    atime: None,
    mtime: None,
};

#[derive(Clone, Copy)]
enum Change {
    MakeAndUnlink,
    RenameWithin,
    RenameBetween,
    Set,
    Resize,
}

// A tree with two directories of ten files, and the first file of the first one.
#[derive(Drop)]
struct Changed {
    alloc: Global,
    tree: Tree,
    first: Number,
    second: Number,
    file: Number,
}

/// Makes each change a few times in a small tree, and prints how many files it has then.
pub(crate) fn fixed<R: Print + AllocGlobal>(rt: &R) -> io::Result<()> {
    let mut changed = Changed::new(rt.alloc(), 1)?;
    changed.run(Change::MakeAndUnlink, 3);
    changed.run(Change::RenameWithin, 4);
    changed.run(Change::RenameBetween, 4);
    changed.run(Change::Set, 3);
    changed.run(Change::Resize, 3);
    match changed.tree.totals(0) {
        Some(totals) => println!(rt; "changed {} files, {} bytes", totals.files, totals.bytes),
        None => Ok(()),
    }
}

/// Prints the nanoseconds of each change in a tree of so many thousand files.
pub(crate) fn measure<R: Clock + Print + AllocGlobal>(rt: &R, thousands: u32) -> io::Result<()> {
    let mut changed = Changed::new(rt.alloc(), thousands)?;
    time_each(rt, &mut changed)
}

fn time_each<R: Clock + Print>(rt: &R, changed: &mut Changed) -> io::Result<()> {
    time(rt, "make-unlink", changed, Change::MakeAndUnlink)?;
    time(rt, "rename-within", changed, Change::RenameWithin)?;
    time(rt, "rename-between", changed, Change::RenameBetween)?;
    time(rt, "set", changed, Change::Set)?;
    time(rt, "resize", changed, Change::Resize)
}

// Prints a change's nanoseconds in tenths, the least of five runs.
fn time<R: Clock + Print>(
    rt: &R,
    name: &str,
    changed: &mut Changed,
    change: Change,
) -> io::Result<()> {
    let mut least = u128::MAX;
    for _ in 0..5u8 {
        let start = Instant::now(rt)?;
        changed.run(change, ROUNDS / 10);
        least = least.min(start.elapsed(rt)?.as_nanos() / u128::from(ROUNDS / 100));
    }
    println!(rt; "{name} {}.{}", least / 10, least % 10)
}

// A directory of ten files in the root.
fn add_dir(alloc: Global, tree: &mut Tree, name: &[u8]) -> Result<Number, AllocError> {
    if !tree.may_mkdir(ROOT, name) {
        return Ok(ROOT);
    }
    let dir = tree.mkdir(ROOT, name, &GIVEN, START)?;
    for file in 0..10 {
        make(alloc, tree, dir, &letters(file));
    }
    Ok(dir)
}

fn make(alloc: Global, tree: &mut Tree, dir: Number, name: &[u8]) {
    if tree.may_make(dir, name, 0) {
        let content = NewContent {
            pages: Pages::zeros(alloc, 0),
            verifier: None,
        };
        let _ = tree.make_file(dir, name, content, &GIVEN, START);
    }
}

/// The entry of a name goes, if it may.
pub(crate) fn unlink(tree: &mut Tree, dir: Number, name: &[u8]) {
    if may_unlink(tree, dir, name) {
        tree.unlink(dir, name, START);
    }
}

fn rename(tree: &mut Tree, from: Number, name: &[u8], to: Number, new_name: &[u8]) {
    if may_rename(tree, from, name, to, new_name) {
        let _ = tree.rename(from, name, to, new_name, START);
    }
}

fn resize(tree: &mut Tree, file: Number, size: usize) {
    if may_resize(tree, file, size) {
        let _ = tree.resize(file, size, START);
    }
}

fn set(tree: &mut Tree, file: Number) {
    if tree.attributes(file).is_some() {
        tree.set(file, &MODE, START);
    }
}

impl Changed {
    fn new(alloc: Global, thousands: u32) -> Result<Changed, AllocError> {
        let mut tree = grown(alloc, thousands)?;
        let first = add_dir(alloc, &mut tree, b"first")?;
        let second = add_dir(alloc, &mut tree, b"second")?;
        let file = tree.lookup(first, &letters(0)).unwrap_or(first);
        Ok(Changed {
            alloc,
            tree,
            first,
            second,
            file,
        })
    }

    // Does a change so many times, each second time back where it was.
    fn run(&mut self, change: Change, rounds: u32) {
        for round in 0..rounds {
            self.change(change, round % 2 == 0);
        }
    }

    fn change(&mut self, change: Change, there: bool) {
        match change {
            Change::MakeAndUnlink => self.make_and_unlink(),
            Change::RenameWithin => self.rename(self.first, there),
            Change::RenameBetween => self.rename(self.second, there),
            Change::Set => set(&mut self.tree, self.file),
            Change::Resize => resize(&mut self.tree, self.file, if there { 1 } else { 0 }),
        }
    }

    fn make_and_unlink(&mut self) {
        make(self.alloc, &mut self.tree, self.first, b"new");
        unlink(&mut self.tree, self.first, b"new");
    }

    fn rename(&mut self, to: Number, there: bool) {
        if there {
            rename(&mut self.tree, self.first, &letters(0), to, b"new");
        } else {
            rename(&mut self.tree, to, b"new", self.first, &letters(0));
        }
    }
}
