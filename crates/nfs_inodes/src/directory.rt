//! Directories as they are read.
ghost use Rattle.std.specs.Prelude.{◌≡◌, option_map};
ghost use Rattle.std.specs.Iterator.{YieldsFirstBy, item_count};
ghost use Rattle.nfs_entries.specs.Seen as directory;
ghost use Rattle.nfs_inodes.specs.Tree.{entries_in};
ghost use Rattle.nfs_inodes.specs.Storage.{kind_of};
ghost use Rattle.nfs_inodes.specs.Reading.{listing, number_named, first_after, entries_beyond, number_under};
ghost use Rattle.nfs_inodes.specs.Reading.{entry_at, entry_after, next_cookie_at};
ghost use Rattle.nfs_inodes.specs.Reading as spec;
ghost use Rattle.nfs_inodes.specs.Views.{entries_left, entry_seen, kind_seen, IsSeen};

use crate::stored_file::Node;
use crate::tree::Tree;
use crate::view::FileView;
use nfs_entries::directory_entries;
use nfs_entries::directory_entries::DirectoryEntries;
use nfs_handles::number::Number;

/// An entry of a directory (RFC 1813, section 3.3.16, entry3).
#[derive(Clone, Copy, Debug)]
pub struct EntryView<'a> {
    /// Where a listing goes on after it.
    pub cookie: u64,
    /// Its name.
    pub name: &'a [u8],
    /// The file that it names.
    pub number: Number,
}

/// Gives the entries of a directory in turn, by rising cookies, without `.` and `..`.
#[derive(Drop)]
pub struct Entries<'a> {
    entries: Option<directory_entries::Entries<'a>>,
}

impl<'a> Iterator for Entries<'a> {
    type Item = EntryView<'a>;

    ghost next_gives = { YieldsFirstBy entry_seen entries_left };

    ghost remaining = { item_count entries_left };

    #[inline(always)]
    fn next(&mut self) -> Option<EntryView<'a>> {
        match &mut self.entries {
            Some(entries) => {
                let entry = entries.next()?;
                Some(entry_view(&entry))
            }
            None => None,
        }
    }
}

impl<'a> FileView<'a> {
    /// The entries of this directory. None where it is no directory.
    pub fn entries(&self) -> Entries<'a>
        ensures { entries_left result ≡ entries_in (kind_seen self.now) }
    {
        match self.node() {
            Node::Directory { entries, .. } => Entries {
                entries: Some(entries.entries()),
            },
            _ => Entries { entries: None },
        }
    }
}

impl Tree {
    /// The file under a name in directory `dir`; `.` is the directory itself and `..` its parent
    /// (RFC 1813, section 3.3.3). `None` where there is no such name or no directory.
    pub fn lookup(&self, dir: Number, name: &[u8]) -> Option<Number>
        ensures { option_map (λ n. n.0) result ≡ number_under self.now dir.0 name.now }
    {
        match self.files.get(dir) {
            Some(stored_file) => under_name(&stored_file.node, dir, name),
            None => None,
        }
    }

    /// What directory `dir` lists first after a cookie: `.` has the cookie 1, `..` the cookie 2,
    /// and then come its entries (RFC 1813, section 3.3.16). `None` where there is no more or no
    /// directory. The entry is found by halving, since cookies rise.
    pub fn entry_after(&self, dir: Number, cookie: u64) -> Option<EntryView<'_>>
        ensures { option_map entry_seen result ≡ entry_after self.now dir.0 cookie }
    {
        match self.files.get(dir) {
            Some(stored_file) => after_cookie(&stored_file.node, dir, cookie),
            None => None,
        }
    }

    /// The same of a directory that is seen, without a search.
    pub fn entry_after_in<'a>(&self, dir: &FileView<'a>, cookie: u64) -> Option<EntryView<'a>>
        requires { IsSeen self.now dir.now }
        ensures { option_map entry_seen result ≡ entry_after self.now dir.now.attributes.fileid cookie }
    {
        after_cookie(dir.node(), dir.number(), cookie)
    }

    // The file that the entry of a name in directory `dir` names; `.` and `..` are no entries.
    pub(crate) fn entry(&self, dir: Number, name: &[u8]) -> Option<Number>
        ensures { option_map (λ n. n.0) result ≡ option_map (λ e. e.number) (entry_at self.now dir.0 name.now) }
    {
        match self.files.get(dir) {
            Some(stored_file) => entry_named(&stored_file.node, name),
            None => None,
        }
    }

    /// The entries with cookies above this one, of a directory that is seen; of another file none.
    /// The first of them is found by halving, since cookies rise.
    pub fn entries_after<'a>(&self, dir: &FileView<'a>, cookie: u64) -> Entries<'a>
        requires { IsSeen self.now dir.now }
        ensures { entries_left result ≡ entries_beyond cookie (entries_in (kind_seen dir.now)) }
    {
        match dir.node() {
            Node::Directory { entries, .. } => Entries {
                entries: Some(entries.after(cookie)),
            },
            _ => Entries { entries: None },
        }
    }

    /// The cookie that the next entry of directory `dir` takes. `None` where there is none.
    pub fn next_cookie(&self, dir: Number) -> Option<u64>
        ensures { result ≡ next_cookie_at self.now dir.0 }
    {
        match self.files.get(dir) {
            Some(stored_file) => cookie_of_next(&stored_file.node),
            None => None,
        }
    }

    /// The same of a directory that is seen, without a search.
    #[inline(always)]
    pub fn next_cookie_in(&self, dir: &FileView<'_>) -> Option<u64>
        requires { IsSeen self.now dir.now }
        ensures { result ≡ next_cookie_at self.now dir.now.attributes.fileid }
    {
        cookie_of_next(dir.node())
    }
}

fn cookie_of_next(node: &Node) -> Option<u64>
    ensures { result ≡ spec.cookie_of_next (kind_of node.now) }
{
    match node {
        Node::Directory { entries, .. } => Some(entries.next()),
        _ => None,
    }
}

fn entry_named(node: &Node, name: &[u8]) -> Option<Number>
    ensures { option_map (λ n. n.0) result ≡ number_named name.now (entries_in (kind_of node.now)) }
{
    match node {
        Node::Directory { entries, .. } => named(entries, name),
        _ => None,
    }
}

#[inline(always)]
pub(crate) fn under_name(node: &Node, dir: Number, name: &[u8]) -> Option<Number>
    ensures { option_map (λ n. n.0) result ≡ number_named name.now (listing dir.0 (kind_of node.now)) }
{
    match node {
        Node::Directory {
            parent,
            entries,
            ..
        } => {
            if name == b".".as_slice() {
                Some(dir)
            } else if name == b"..".as_slice() {
                Some(*parent)
            } else {
                named(entries, name)
            }
        }
        _ => None,
    }
}

#[inline(always)]
fn named(entries: &DirectoryEntries, name: &[u8]) -> Option<Number>
    ensures { option_map (λ n. n.0) result ≡ number_named name.now entries.now.entries }
{
    entries.number(name)
}

fn after_cookie(node: &Node, dir: Number, cookie: u64) -> Option<EntryView<'_>>
    ensures { option_map entry_seen result ≡ first_after cookie (listing dir.0 (kind_of node.now)) }
{
    match node {
        Node::Directory {
            parent,
            entries,
            ..
        } => {
            if cookie < 1 {
                Some(EntryView {
                    cookie: 1,
                    name: b".",
                    number: dir,
                })
            } else if cookie < 2 {
                Some(EntryView {
                    cookie: 2,
                    name: b"..",
                    number: *parent,
                })
            } else {
                later(entries, cookie)
            }
        }
        _ => None,
    }
}

fn later(entries: &DirectoryEntries, cookie: u64) -> Option<EntryView<'_>>
    ensures { option_map entry_seen result ≡ first_after cookie entries.now.entries }
{
    let entry = entries.after(cookie).next()?;
    Some(entry_view(&entry))
}

#[inline(always)]
fn entry_view<'a>(entry: &directory_entries::EntryView<'a>) -> EntryView<'a>
    ensures { entry_seen result ≡ directory.entry_seen entry.now }
{
    EntryView {
        cookie: entry.cookie,
        name: entry.name,
        number: entry.number,
    }
}
