//! Pages of READDIRPLUS (RFC 1813, section 3.3.17).
ghost use Rattle.std.specs.Prelude.{◌≡◌, ◌+◌, ◌≤◌, ◌&&◌, nat_lt, Ok};
ghost use Rattle.nfs_xdr.specs.Written.{Appends};
ghost use Rattle.nfs_args.specs.Chains.{chained_text};
ghost use Rattle.nfs_args.specs.Pages.{IsEntryPlus, entry_plus_text};
ghost use Rattle.nfs_inodes.specs.Views.{entry_seen, IsSeen};
ghost use Rattle.nfs_args.specs.Sizes.{max_page};
ghost use Rattle.nfs_dirs.specs.Opening.{IsOpen, left_in};
ghost use Rattle.nfs_dirs.specs.Pages.{page_front_bytes, page_head_bytes, entry_bytes, plus_bytes, entry_plus_reported, entries_plus_text};
ghost use Rattle.nfs_dirs.specs.Pages.{EntriesPlusEncoded, fits_plus, left_after, AnswersPage};

use crate::answer::{TooSmall, WrittenPage, cut_off};
use crate::limits::{entry_bytes, plus_bytes};
use crate::open_page::{OpenPage, OpenPagePlus};
use crate::readdir::put as put_entry;
use nfs_args::dir_page::write_page_end;
use nfs_args::entry_plus::write_entry_file;
use nfs_args::opaque::Opaque;
use nfs_inodes::directory::EntryView;
use nfs_inodes::tree::Tree;
use nfs_inodes::view::FileView;
use nfs_xdr::output::Output;

/// Writes the entries of a page, with what follows them: of what directory `dir` lists after a
/// cookie, as many as fit, so that attributes, verifier and entries have at most `maxcount` bytes and
/// at most `MAX_PAGE_BYTES`, and the numbers, names and cookies of two or more at most `dircount`.
/// Where the directory is `searchable` by the caller, each has its file's attributes and handle.
/// `TooSmall` where not even the first fits; then nothing is written.
pub fn page_plus(
    tree: &Tree,
    dir: &FileView<'_>,
    cookie: u64,
    dircount: u32,
    maxcount: u32,
    searchable: bool,
    out: &mut Output,
) -> Result<WrittenPage, TooSmall>
    requires seen { IsSeen tree.now dir.now }
    requires room { max_page ≤ out.old.room + page_front_bytes }
    ensures { AnswersPage (fits_plus dircount maxcount searchable) (entries_plus_text tree.now searchable)
        (EntriesPlusEncoded tree.now searchable) (left_after tree.now dir.now.attributes.fileid cookie) result out.old out.new }
{
    let page = OpenPagePlus::new(tree, dir, cookie, maxcount, searchable)?;
    Ok(page.write(tree, dircount, out))
}

impl<'a> OpenPagePlus<'a> {
    /// Writes the entries of the page, with what follows them: as many as fit, of which the numbers, names
    /// and cookies of two or more have at most `dircount` bytes, and the first at least.
    #[inline(never)]
    pub fn write(self, tree: &Tree, dircount: u32, out: &mut Output) -> WrittenPage
        requires open { IsOpen (left_in self.page) (self.page.room + page_head_bytes) (plus_bytes self.searchable)
            self.page }
        requires bound { self.page.room + page_head_bytes ≤ max_page }
        requires room { max_page ≤ out.old.room + page_front_bytes }
        ensures { AnswersPage (fits_plus dircount (self.entry.page.room + page_head_bytes) self.entry.searchable)
            (entries_plus_text tree.now self.entry.searchable) (EntriesPlusEncoded tree.now self.entry.searchable)
            (left_in self.entry.page) (Ok result) out.old out.new }
    {
        let OpenPagePlus { page, searchable } = self;
        let OpenPage { first, rest, room } = page;
        let Some(first) = first else {
            write_page_end(out, true);
            return WrittenPage {
                given: 0,
                eof: true,
            };
        };
        put(tree, searchable, &first, out);
        let beside = plus_bytes(searchable);
        let mut named = entry_bytes(first.name);
        let mut room = room - (named + beside);
        let mut given = 1;
        let mut listed = rest;
        while let Some(entry) = listed.next() {
            let bytes = entry_bytes(entry.name);
            if room < bytes + beside {
                return cut_off(given, out);
            }
            if is_above(given, named + bytes, dircount) {
                return cut_off(given, out);
            }
            put(tree, searchable, &entry, out);
            room -= bytes + beside;
            named += bytes;
            given += 1;
        }
        write_page_end(out, true);
        WrittenPage { given, eof: true }
    }
}

// Whether an entry after so many would bring their numbers, names and cookies to more than the bound
// for two or more.
fn is_above(given: usize, named: usize, dircount: u32) -> bool
    ensures { result ≡ (nat_lt 0 given && nat_lt dircount named) }
{
    given > 0 && named > dircount as usize
}

// Writes an entry.
#[inline(always)]
fn put(tree: &Tree, searchable: bool, entry: &EntryView<'_>, out: &mut Output)
    requires room { entry_bytes (entry_seen entry.now) + plus_bytes searchable ≤ out.old.room }
    requires bound { entry_bytes (entry_seen entry.now) ≤ max_page }
    ensures text { Appends (chained_text entry_plus_text (entry_plus_reported tree.now searchable (entry_seen entry.now))) out.old out.new }
    ensures encoded { IsEntryPlus (entry_plus_reported tree.now searchable (entry_seen entry.now))
        (entry_plus_text (entry_plus_reported tree.now searchable (entry_seen entry.now))) }
    ensures room { out.old.room ≤ out.new.room + (entry_bytes (entry_seen entry.now) + plus_bytes searchable) }
{
    put_entry(out, entry);
    if searchable {
        if let Some(file) = tree.view(entry.number) {
            let attributes = file.attributes();
            let handle = tree.handle(&file);
            write_entry_file(out, Some(&attributes), &Some(Opaque::new(&handle)));
            return;
        }
    }
    write_entry_file(out, None, &None);
}
