//! Pages that have room for their first entry.
ghost use Rattle.std.specs.Prelude.{◌≡◌, ◌≤◌, ◌+◌, min, false, nat_lt, option_map, IfOk};
ghost use Rattle.nfs_args.specs.Sizes.{max_page};
ghost use Rattle.nfs_inodes.specs.Tree.{on_some};
ghost use Rattle.nfs_inodes.specs.Views.{entry_seen, IsSeen};
ghost use Rattle.nfs_dirs.specs.Pages.{entry_bytes, left_after, plus_bytes};
ghost use Rattle.nfs_dirs.specs.Opening.{Opens};

use crate::answer::TooSmall;
use crate::limits::{PAGE_HEAD_BYTES, entry_bytes, plus_bytes};
use crate::listed::Listed;
use nfs_args::limits::MAX_PAGE_BYTES;
use nfs_inodes::directory::EntryView;
use nfs_inodes::tree::Tree;
use nfs_inodes::view::FileView;

/// A page of READDIR before its entries are written: what is left of the directory, the first of it looked
/// up, for which there is room.
#[derive(Drop)]
pub struct OpenPage<'a> {
    // None where nothing is left.
    pub(crate) first: Option<EntryView<'a>>,
    pub(crate) rest: Listed<'a>,
    // How many bytes the entries may have.
    pub(crate) room: usize,
}

/// The same of READDIRPLUS.
#[derive(Drop)]
pub struct OpenPagePlus<'a> {
    pub(crate) page: OpenPage<'a>,
    pub(crate) searchable: bool,
}

impl<'a> OpenPage<'a> {
    /// The page of what directory `dir` lists after a cookie, of at most `count` bytes and
    /// `MAX_PAGE_BYTES`. `TooSmall` where not even the first entry fits.
    pub fn new(
        tree: &'a Tree,
        dir: &FileView<'a>,
        cookie: u64,
        count: u32,
    ) -> Result<OpenPage<'a>, TooSmall>
        requires { IsSeen tree.now dir.now }
        ensures { Opens (λ p. p) (left_after tree.entry.now dir.now.attributes.fileid cookie) (min count max_page) 0 result }
    {
        open(tree, dir, cookie, count, 0)
    }
}

impl<'a> OpenPagePlus<'a> {
    /// The same where the caller may search the directory, and is shown what the entries' files are, or
    /// may not.
    pub fn new(
        tree: &'a Tree,
        dir: &FileView<'a>,
        cookie: u64,
        maxcount: u32,
        searchable: bool,
    ) -> Result<OpenPagePlus<'a>, TooSmall>
        requires { IsSeen tree.now dir.now }
        ensures opens { Opens (λ p. p.page) (left_after tree.entry.now dir.now.attributes.fileid cookie) (min maxcount max_page)
            (plus_bytes searchable) result }
        ensures searchable { IfOk result (λ p. p.searchable ≡ searchable) }
    {
        let page = open(tree, dir, cookie, maxcount, plus_bytes(searchable))?;
        Ok(OpenPagePlus { page, searchable })
    }
}

// A page whose entries have so many bytes each beside their own.
#[inline(always)]
fn open<'a>(
    tree: &'a Tree,
    dir: &FileView<'a>,
    cookie: u64,
    count: u32,
    beside: usize,
) -> Result<OpenPage<'a>, TooSmall>
    requires seen { IsSeen tree.now dir.now }
    requires beside { beside ≤ 120 }
    ensures { Opens (λ p. p) (left_after tree.entry.now dir.now.attributes.fileid cookie) (min count max_page) beside result }
{
    let bound = (count as usize).min(MAX_PAGE_BYTES);
    if bound < PAGE_HEAD_BYTES {
        return Err(TooSmall);
    }
    let room = bound - PAGE_HEAD_BYTES;
    let mut rest = Listed::new(tree, dir, cookie);
    let first = rest.next();
    if is_above(first, beside, room) {
        return Err(TooSmall);
    }
    Ok(OpenPage { first, rest, room })
}

// Whether an entry, if there is one, has more bytes than there is room for.
fn is_above(entry: Option<EntryView<'_>>, beside: usize, room: usize) -> bool
    requires { beside ≤ 120 }
    ensures { result ≡ on_some (option_map entry_seen entry.entry) false (λ e. nat_lt room (entry_bytes e + beside)) }
{
    match entry {
        Some(entry) => entry_bytes(entry.name) + beside > room,
        None => false,
    }
}
