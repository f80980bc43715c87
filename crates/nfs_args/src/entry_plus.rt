//! Entries of a directory with what their files are.
ghost use Rattle.std.specs.Prelude.{◌≡◌, ◌≤◌, ◌++◌, length, option_copied};
ghost use Rattle.nfs_xdr.specs.Encoding.{IsOptional, ◌⨾◌, opaque_text, optional_text};
ghost use Rattle.nfs_xdr.specs.Written.{Appends};
ghost use Rattle.nfs_attrs.specs.Encoding.{IsPostOpAttr, post_op_attr_text};
ghost use Rattle.nfs_args.specs.Encoding.{IsHandle};
ghost use Rattle.nfs_args.specs.Results.{HandleFits};
ghost use Rattle.nfs_args.specs.Chains.{Each, AreEncoded, chained_text, links_text};
ghost use Rattle.nfs_args.specs.Pages.{IsEntryPlus, entry_plus_text, IsEntryFile, entry_file_text, EntryPlusFits};

use crate::entry::{Entry, write_entry};
use crate::opaque::{Opaque, write_post_op_handle};
use nfs_attrs::fattr::{Fattr, write_post_op_attr};
use nfs_xdr::output::Output;

/// An entry of a directory with what its file is (RFC 1813, section 3.3.17, entryplus3).
#[derive(Drop)]
pub struct EntryPlus<'a> {
    /// The number of the file.
    pub fileid: u64,
    /// Its name, of fewer than 2^32 bytes.
    pub name: Opaque<'a>,
    /// What a client sends to go on after this entry.
    pub cookie: u64,
    /// The file's attributes.
    pub attributes: Option<Fattr>,
    /// The file's handle, of at most 64 bytes.
    pub file: Option<Opaque<'a>>,
}

/// Writes an entry of a chain: that there is one, and the entry.
#[inline(always)]
pub fn write_entry_plus(out: &mut Output, entry: &EntryPlus<'_>)
    requires fits { EntryPlusFits entry.now }
    requires room { length (chained_text entry_plus_text entry.now) ≤ out.old.room }
    ensures text { Appends (chained_text entry_plus_text entry.now) out.old out.new }
    ensures encoded { IsEntryPlus entry.now (entry_plus_text entry.now) }
{
    let head = Entry {
        fileid: entry.fileid,
        name: Opaque::new(entry.name.bytes()),
        cookie: entry.cookie,
    };
    write_entry(out, &head);
    write_entry_file(out, entry.attributes.as_ref(), &entry.file);
}

/// Writes what an entry says of its file, of which the handle has at most 64 bytes. After what
/// `write_entry` writes, that is what `write_entry_plus` writes.
#[inline(always)]
pub fn write_entry_file(out: &mut Output, attributes: Option<&Fattr>, file: &Option<Opaque<'_>>)
    requires bound { HandleFits file.now }
    requires room { length (entry_file_text (option_copied attributes) file.now) ≤ out.old.room }
    ensures text { Appends (entry_file_text (option_copied attributes.entry) file.now) out.old out.new }
    ensures encoded { IsEntryFile (option_copied attributes.entry) file.now (entry_file_text (option_copied attributes.entry) file.now) }
{
    write_post_op_attr(out, attributes);
    write_post_op_handle(out, file);
}

// Entries of a chain, without its end.
pub(crate) fn write_entries_plus(out: &mut Output, entries: &[EntryPlus<'_>])
    requires fits { Each EntryPlusFits entries.now }
    requires room { length (links_text entry_plus_text entries.now) ≤ out.old.room }
    ensures text { Appends (links_text entry_plus_text entries.now) out.old out.new }
    ensures encoded { AreEncoded IsEntryPlus entry_plus_text entries.now }
{
    for entry in entries {
        write_entry_plus(out, entry);
    }
}
