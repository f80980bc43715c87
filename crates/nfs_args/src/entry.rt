//! Entries of a directory.
ghost use Rattle.std.specs.Prelude.{◌≡◌, ◌≤◌, length};
ghost use Rattle.nfs_xdr.specs.Written.{Appends};
ghost use Rattle.nfs_args.specs.Chains.{Each, AreEncoded, chained_text, links_text};
ghost use Rattle.nfs_args.specs.Pages.{IsEntry, entry_text, EntryFits};

use crate::opaque::Opaque;
use nfs_xdr::output::{Output, halves};

/// An entry of a directory (RFC 1813, section 3.3.16, entry3).
#[derive(Drop)]
pub struct Entry<'a> {
    /// The number of the file.
    pub fileid: u64,
    /// Its name, of fewer than 2^32 bytes.
    pub name: Opaque<'a>,
    /// What a client sends to go on after this entry.
    pub cookie: u64,
}

/// Writes an entry of a chain: that there is one, and the entry.
#[inline(always)]
pub fn write_entry(out: &mut Output, entry: &Entry<'_>)
    requires fits { EntryFits entry.now }
    requires room { length (chained_text entry_text entry.now) ≤ out.old.room }
    ensures text { Appends (chained_text entry_text entry.now) out.old out.new }
    ensures encoded { IsEntry entry.now (entry_text entry.now) }
{
    // What stands before the name goes as one chunk, since a page has hundreds of entries.
    let (fileid_high, fileid_low) = halves(entry.fileid);
    let name = entry.name.bytes();
    out.numbers([1, fileid_high, fileid_low, name.len() as u32]);
    out.fixed(name);
    out.u64(entry.cookie);
}

// Entries of a chain, without its end.
pub(crate) fn write_entries(out: &mut Output, entries: &[Entry<'_>])
    requires fits { Each EntryFits entries.now }
    requires room { length (links_text entry_text entries.now) ≤ out.old.room }
    ensures text { Appends (links_text entry_text entries.now) out.old out.new }
    ensures encoded { AreEncoded IsEntry entry_text entries.now }
{
    for entry in entries {
        write_entry(out, entry);
    }
}
