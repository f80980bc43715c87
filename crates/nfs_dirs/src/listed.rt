//! What a directory lists, from a cookie on.
ghost use Rattle.std.specs.Prelude.{◌≡◌, [], ◌∷◌, Option, Some, None};
ghost use Rattle.nfs_inodes.specs.Views.{entry_seen, IsSeen};
ghost use Rattle.nfs_dirs.specs.Pages.{left_after};
ghost use Rattle.nfs_dirs.specs.Walk.{left_of, Steps, StepsDots};

use nfs_inodes::directory::{Entries, EntryView};
use nfs_inodes::tree::Tree;
use nfs_inodes::view::FileView;

/// What a directory lists after a cookie, in turn: `.`, `..` and its entries.
#[derive(Drop)]
pub(crate) struct Listed<'a> {
    dot: Option<EntryView<'a>>,
    dot_dot: Option<EntryView<'a>>,
    entries: Entries<'a>,
}

impl<'a> Listed<'a> {
    pub(crate) fn new(tree: &'a Tree, dir: &FileView<'a>, cookie: u64) -> Listed<'a>
        requires { IsSeen tree.now dir.now }
        ensures { left_of result ≡ left_after tree.entry.now dir.now.attributes.fileid cookie }
    {
        let number = dir.number();
        Listed {
            dot: if cookie < 1 {
                tree.entry_after(number, 0)
            } else {
                None
            },
            dot_dot: if cookie < 2 {
                tree.entry_after(number, 1)
            } else {
                None
            },
            entries: tree.entries_after(dir, cookie),
        }
    }

    /// The next entry, if there is one.
    #[inline(always)]
    pub(crate) fn next(&mut self) -> Option<EntryView<'a>>
        ensures { Steps result self.old self.new }
    {
        if self.dot.is_some() || self.dot_dot.is_some() {
            if let Some(entry) = self.next_dot() {
                return Some(entry);
            }
        }
        self.entries.next()
    }

    // The next of `.` and `..`, if one is left. Not inlined, so that the entries are walked through
    // in few registers.
    #[inline(never)]
    fn next_dot(&mut self) -> Option<EntryView<'a>>
        ensures { StepsDots result self.old self.new }
    {
        match self.dot.take() {
            Some(entry) => Some(entry),
            None => self.dot_dot.take(),
        }
    }
}
