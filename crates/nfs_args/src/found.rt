//! A file that was found.
ghost use Rattle.std.specs.Prelude.{◌≡◌, ◌≤◌, length};
ghost use Rattle.nfs_xdr.specs.Written.{Appends};
ghost use Rattle.nfs_attrs.specs.Encoding.{IsPostOpAttr, post_op_attr_text};
ghost use Rattle.nfs_args.specs.Results.{IsFound, found_text, FoundFits, ResultFits, IsResult, result_text};

use crate::failed::{Failed, write_failed_attributes};
use crate::opaque::{Opaque, write_handle};
use nfs_attrs::fattr::{Fattr, write_post_op_attr};
use nfs_xdr::output::Output;

/// The file that was found (RFC 1813, section 3.3.3, LOOKUP3resok).
#[derive(Drop)]
pub struct Found<'a> {
    /// The file's handle, of at most 64 bytes.
    pub file: Opaque<'a>,
    /// The file's attributes.
    pub attributes: Option<Fattr>,
    /// The directory's attributes.
    pub dir: Option<Fattr>,
}

/// Writes the file that was found.
#[inline(always)]
pub fn write_found(out: &mut Output, answer: &Found<'_>)
    requires fits { FoundFits answer.now }
    requires room { length (found_text answer.now) ≤ out.old.room }
    ensures text { Appends (found_text answer.now) out.old out.new }
    ensures encoded { IsFound answer.now (found_text answer.now) }
{
    write_handle(out, &answer.file);
    write_post_op_attr(out, answer.attributes.as_ref());
    write_post_op_attr(out, answer.dir.as_ref());
}

// The result of LOOKUP.
pub(crate) fn write_lookup_result(
    out: &mut Output,
    answer: &Result<Found<'_>, Failed<Option<Fattr>>>,
)
    requires fits { ResultFits FoundFits answer.now }
    requires room { length (result_text found_text post_op_attr_text answer.now) ≤ out.old.room }
    ensures text { Appends (result_text found_text post_op_attr_text answer.now) out.old out.new }
    ensures encoded { IsResult IsFound IsPostOpAttr answer.now (result_text found_text post_op_attr_text answer.now) }
{
    match answer {
        Ok(value) => {
            out.u32(0);
            write_found(out, value);
        }
        Err(failed) => write_failed_attributes(out, failed),
    }
}
