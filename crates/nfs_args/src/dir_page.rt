//! Entries of a directory that were read.
ghost use Rattle.std.specs.Prelude.{◌≡◌, ◌≤◌, length, option_copied};
ghost use Rattle.nfs_xdr.specs.Written.{Appends};
ghost use Rattle.nfs_attrs.specs.Encoding.{IsPostOpAttr, post_op_attr_text};
ghost use Rattle.nfs_args.specs.Pages.{IsEntry, entry_text, IsEntryPlus, entry_plus_text, BeginsPage, page_head_text, page_end_text};
ghost use Rattle.nfs_args.specs.Pages.{IsPage, page_text, PageFits, IsPagePlus, page_plus_text, PagePlusFits};
ghost use Rattle.nfs_args.specs.Results.{ResultFits, IsResult, result_text};

use crate::entry::{Entry, write_entries};
use crate::entry_plus::{EntryPlus, write_entries_plus};
use crate::failed::{Failed, write_failed_attributes};
use crate::items::Items;
use nfs_attrs::fattr::{Fattr, write_post_op_attr};
use nfs_xdr::output::Output;

/// Entries of a directory that were read: of `Entry` (RFC 1813, section 3.3.16, READDIR3resok) or
/// `EntryPlus` (section 3.3.17, READDIRPLUS3resok). They are lent; where they are made one by one,
/// a caller writes the status 0, `write_page_head`, each entry by `write_entry` or
/// `write_entry_plus`, and `write_page_end`, and keeps no list of them.
#[derive(Drop)]
pub struct DirPage<E> {
    /// The directory's attributes.
    pub attributes: Option<Fattr>,
    /// The verifier of the cookies: 8 bytes, the first as the most significant.
    pub verifier: u64,
    /// The entries.
    pub entries: E,
    /// Whether the directory ends after them.
    pub eof: bool,
}

/// Writes entries of a directory.
pub(crate) fn write_page(out: &mut Output, answer: &DirPage<Items<'_, Entry<'_>>>)
    requires fits { PageFits answer.now }
    requires room { length (page_text answer.now) ≤ out.old.room }
    ensures text { Appends (page_text answer.now) out.old out.new }
    ensures encoded { IsPage answer.now (page_text answer.now) }
{
    write_page_head(out, answer.attributes.as_ref(), answer.verifier);
    write_entries(out, answer.entries.all());
    write_page_end(out, answer.eof);
}

/// Writes entries of a directory with what their files are.
pub(crate) fn write_page_plus(out: &mut Output, answer: &DirPage<Items<'_, EntryPlus<'_>>>)
    requires fits { PagePlusFits answer.now }
    requires room { length (page_plus_text answer.now) ≤ out.old.room }
    ensures text { Appends (page_plus_text answer.now) out.old out.new }
    ensures encoded { IsPagePlus answer.now (page_plus_text answer.now) }
{
    write_page_head(out, answer.attributes.as_ref(), answer.verifier);
    write_entries_plus(out, answer.entries.all());
    write_page_end(out, answer.eof);
}

/// Writes what stands in front of entries: with any entries and the end of a page after it, that is
/// the answer of READDIR or READDIRPLUS.
pub fn write_page_head(out: &mut Output, attributes: Option<&Fattr>, verifier: u64)
    requires { length (page_head_text (option_copied attributes) verifier) ≤ out.old.room }
    ensures text { Appends (page_head_text (option_copied attributes.entry) verifier) out.old out.new }
    ensures entries { BeginsPage IsEntry entry_text (option_copied attributes.entry) verifier }
    ensures entries_plus { BeginsPage IsEntryPlus entry_plus_text (option_copied attributes.entry) verifier }
{
    write_post_op_attr(out, attributes);
    out.u64(verifier);
}

/// Writes that no entry follows, and whether the directory ends there.
pub fn write_page_end(out: &mut Output, eof: bool)
    requires { 8 ≤ out.old.room }
    ensures { Appends (page_end_text eof) out.old out.new }
{
    out.boolean(false);
    out.boolean(eof);
}

// The result of READDIR.
pub(crate) fn write_readdir_result(
    out: &mut Output,
    answer: &Result<DirPage<Items<'_, Entry<'_>>>, Failed<Option<Fattr>>>,
)
    requires fits { ResultFits PageFits answer.now }
    requires room { length (result_text page_text post_op_attr_text answer.now) ≤ out.old.room }
    ensures text { Appends (result_text page_text post_op_attr_text answer.now) out.old out.new }
    ensures encoded { IsResult IsPage IsPostOpAttr answer.now (result_text page_text post_op_attr_text answer.now) }
{
    match answer {
        Ok(value) => {
            out.u32(0);
            write_page(out, value);
        }
        Err(failed) => write_failed_attributes(out, failed),
    }
}

// The result of READDIRPLUS.
pub(crate) fn write_readdirplus_result(
    out: &mut Output,
    answer: &Result<DirPage<Items<'_, EntryPlus<'_>>>, Failed<Option<Fattr>>>,
)
    requires fits { ResultFits PagePlusFits answer.now }
    requires room { length (result_text page_plus_text post_op_attr_text answer.now) ≤ out.old.room }
    ensures text { Appends (result_text page_plus_text post_op_attr_text answer.now) out.old out.new }
    ensures encoded { IsResult IsPagePlus IsPostOpAttr answer.now (result_text page_plus_text post_op_attr_text answer.now) }
{
    match answer {
        Ok(value) => {
            out.u32(0);
            write_page_plus(out, value);
        }
        Err(failed) => write_failed_attributes(out, failed),
    }
}
