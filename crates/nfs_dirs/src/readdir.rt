//! Pages of READDIR (RFC 1813, section 3.3.16).
ghost use Rattle.std.specs.Prelude.{◌≡◌, ◌+◌, ◌≤◌, Ok};
ghost use Rattle.nfs_xdr.specs.Written.{Appends};
ghost use Rattle.nfs_args.specs.Chains.{chained_text};
ghost use Rattle.nfs_args.specs.Pages.{IsEntry, entry_text};
ghost use Rattle.nfs_inodes.specs.Views.{entry_seen, IsSeen};
ghost use Rattle.nfs_args.specs.Sizes.{max_page};
ghost use Rattle.nfs_dirs.specs.Opening.{IsOpen, left_in};
ghost use Rattle.nfs_dirs.specs.Pages.{page_front_bytes, page_head_bytes, entry_bytes, entry_reported, entries_text, EntriesEncoded};
ghost use Rattle.nfs_dirs.specs.Pages.{fits, left_after, AnswersPage};

use crate::answer::{TooSmall, WrittenPage, cut_off};
use crate::limits::entry_bytes;
use crate::open_page::OpenPage;
use nfs_args::dir_page::write_page_end;
use nfs_args::entry::{Entry, write_entry};
use nfs_args::opaque::Opaque;
use nfs_inodes::directory::EntryView;
use nfs_inodes::tree::Tree;
use nfs_inodes::view::FileView;
use nfs_xdr::output::Output;

/// Writes the entries of a page, with what follows them: of what directory `dir` lists after a
/// cookie, as many as fit, so that attributes, verifier and entries have at most `count` bytes and at
/// most `MAX_PAGE_BYTES`. `TooSmall` where not even the first fits; then nothing is written.
pub fn page(
    tree: &Tree,
    dir: &FileView<'_>,
    cookie: u64,
    count: u32,
    out: &mut Output,
) -> Result<WrittenPage, TooSmall>
    requires seen { IsSeen tree.now dir.now }
    requires room { max_page ≤ out.old.room + page_front_bytes }
    ensures { AnswersPage (fits count) entries_text EntriesEncoded (left_after tree.now dir.now.attributes.fileid cookie) result
        out.old out.new }
{
    let page = OpenPage::new(tree, dir, cookie, count)?;
    Ok(page.write(out))
}

impl<'a> OpenPage<'a> {
    /// Writes the entries of the page, with what follows them: as many as fit, the first at least.
    #[inline(never)]
    pub fn write(self, out: &mut Output) -> WrittenPage
        requires open { IsOpen (left_in self) (self.room + page_head_bytes) 0 self }
        requires bound { self.room + page_head_bytes ≤ max_page }
        requires room { max_page ≤ out.old.room + page_front_bytes }
        ensures { AnswersPage (fits (self.entry.room + page_head_bytes)) entries_text EntriesEncoded (left_in self.entry) (Ok result)
            out.old out.new }
    {
        let OpenPage { first, rest, room } = self;
        let Some(first) = first else {
            write_page_end(out, true);
            return WrittenPage {
                given: 0,
                eof: true,
            };
        };
        put(out, &first);
        let mut room = room - entry_bytes(first.name);
        let mut given = 1;
        let mut listed = rest;
        while let Some(entry) = listed.next() {
            let bytes = entry_bytes(entry.name);
            if room < bytes {
                return cut_off(given, out);
            }
            put(out, &entry);
            room -= bytes;
            given += 1;
        }
        write_page_end(out, true);
        WrittenPage { given, eof: true }
    }
}

// Writes an entry.
#[inline(always)]
pub(crate) fn put(out: &mut Output, entry: &EntryView<'_>)
    requires room { entry_bytes (entry_seen entry.now) ≤ out.old.room }
    requires bound { entry_bytes (entry_seen entry.now) ≤ max_page }
    ensures text { Appends (chained_text entry_text (entry_reported (entry_seen entry.now))) out.old out.new }
    ensures encoded { IsEntry (entry_reported (entry_seen entry.now)) (entry_text (entry_reported (entry_seen entry.now))) }
    ensures room { out.new.room + entry_bytes (entry_seen entry.now) ≡ out.old.room }
{
    let entry = Entry {
        fileid: entry.number.0,
        name: Opaque::new(entry.name),
        cookie: entry.cookie,
    };
    write_entry(out, &entry);
}
