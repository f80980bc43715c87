//! A long random walk of operations on a tree.

use crate::counts::{agrees, links};
use crate::tree::{GIVEN, NOW, directory};
use nfs_conditions::bytes::may_resize;
use nfs_conditions::entries::may_unlink;
use nfs_conditions::moves::may_rename;
use nfs_content::pages::Pages;
use nfs_handles::number::Number;
use nfs_inodes::new_file::NewContent;
use nfs_inodes::tree::Tree;
use rows::words::number;
use std::alloc::Global;
use std::str::SplitWhitespace;

#[derive(Drop)]
struct Walk {
    alloc: Global,
    tree: Tree,
    state: u64,
    done: u64,
}

/// `walk SEED STEPS`: whether the tree agrees with what is counted afresh after so many steps, how
/// many of them were done, the links of all files, the next number, and what each volume has.
pub(crate) fn answer(alloc: Global, words: &mut SplitWhitespace<'_>) -> Option<String> {
    let seed = number(words)?;
    let steps = number(words)?;
    let mut walk = Walk::new(alloc, seed)?;
    walk.run(steps);
    walk.report()
}

// A volume of few bytes and files, so that some steps are refused.
fn add_volume(tree: &mut Tree, path: &[u8], max_bytes: u64, max_files: u64) -> Option<()> {
    if !tree.may_add_volume(path, max_bytes, max_files) {
        return None;
    }
    tree.add_volume(path, max_bytes, max_files, &GIVEN, NOW)
        .ok()?;
    Some(())
}

impl Walk {
    // A tree of two volumes, whose roots are the directories 1 and 2.
    fn new(alloc: Global, seed: u64) -> Option<Walk> {
        let mut tree = Tree::new(alloc, [0; 8]);
        add_volume(&mut tree, b"/a", 2_000, 100)?;
        add_volume(&mut tree, b"/b", 100, 40)?;
        Some(Walk {
            alloc,
            tree,
            state: seed,
            done: 0,
        })
    }

    fn run(&mut self, steps: u64) {
        for _ in 0..steps {
            if self.step().is_some() {
                self.done = self.done.saturating_add(1);
            }
        }
    }

    fn report(&self) -> Option<String> {
        let verdict = if agrees(&self.tree) {
            "agrees"
        } else {
            "differs"
        };
        let (done, links, next) = (self.done, links(&self.tree), self.tree.next_number());
        let (large, small) = (self.tree.totals(0), self.tree.totals(1));
        format!(in self.alloc;
            "{verdict} done {done} links {links} next {next} {large:?} {small:?}"
        ).ok()
    }

    // The next number of xorshift (G. Marsaglia, Xorshift RNGs, 2003), of which the high half.
    fn next(&mut self) -> u64 {
        self.state ^= self.state << 13;
        self.state ^= self.state >> 7;
        self.state ^= self.state << 17;
        self.state >> 32
    }

    // One of four names.
    fn name(&mut self) -> [u8; 1] {
        [b'a' + (self.next() & 3) as u8]
    }

    // A directory down to five below a root, the root of the large volume three times out of four.
    fn dir(&mut self) -> Number {
        let mut dir = Number::new(if self.next() & 3 == 0 { 2 } else { 1 });
        for _ in 0..self.next() % 6 {
            let name = self.name();
            dir = self.child(dir, &name);
        }
        dir
    }

    // The directory of a name in a directory, or else that one itself.
    fn child(&self, dir: Number, name: &[u8]) -> Number {
        match self.tree.lookup(dir, name) {
            Some(found) if self.tree.next_cookie(found).is_some() => found,
            _ => dir,
        }
    }

    // Does what comes next, where it may be done.
    fn step(&mut self) -> Option<()> {
        let dir = self.dir();
        let name = self.name();
        match self.next() & 7 {
            0 => self.make_file(dir, &name),
            1 => directory(&mut self.tree, dir, &name).map(|_| ()),
            2 => self.link(dir, &name),
            3 | 4 => self.rename(dir, &name),
            5 => self.unlink(dir, &name),
            6 => self.resize(dir, &name),
            _ => self.make_link(dir, &name),
        }
    }

    fn make_file(&mut self, dir: Number, name: &[u8]) -> Option<()> {
        let size = (self.next() & 63) as usize;
        if !self.tree.may_make(dir, name, size) {
            return None;
        }
        let content = NewContent {
            pages: Pages::zeros(self.alloc, size),
            verifier: None,
        };
        let made = self.tree.make_file(dir, name, content, &GIVEN, NOW);
        made.ok().map(|_| ())
    }

    fn make_link(&mut self, dir: Number, name: &[u8]) -> Option<()> {
        if !self.tree.may_make_link(dir, name, b"../x") {
            return None;
        }
        let made = self.tree.make_link(dir, name, b"../x", &GIVEN, NOW);
        made.ok().map(|_| ())
    }

    // A name for a file that has another.
    fn link(&mut self, dir: Number, name: &[u8]) -> Option<()> {
        let from = self.dir();
        let other = self.name();
        let file = self.tree.lookup(from, &other)?;
        if !self.tree.may_link(file, dir, name) {
            return None;
        }
        self.tree.link(file, dir, name, NOW).ok()
    }

    fn rename(&mut self, dir: Number, name: &[u8]) -> Option<()> {
        let to = self.dir();
        let new_name = self.name();
        if !may_rename(&self.tree, dir, name, to, &new_name) {
            return None;
        }
        self.tree.rename(dir, name, to, &new_name, NOW).ok()
    }

    fn unlink(&mut self, dir: Number, name: &[u8]) -> Option<()> {
        if !may_unlink(&self.tree, dir, name) {
            return None;
        }
        self.tree.unlink(dir, name, NOW);
        Some(())
    }

    fn resize(&mut self, dir: Number, name: &[u8]) -> Option<()> {
        let size = (self.next() & 127) as usize;
        let file = self.tree.lookup(dir, name)?;
        if !may_resize(&self.tree, file, size) {
            return None;
        }
        self.tree.resize(file, size, NOW).ok()
    }
}
