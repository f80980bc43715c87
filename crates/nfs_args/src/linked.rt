//! A file that got a hard link.
ghost use Rattle.std.specs.Prelude.{◌≡◌, ◌≤◌, length};
ghost use Rattle.nfs_xdr.specs.Written.{Appends};
ghost use Rattle.nfs_args.specs.Results.{IsLinked, linked_text, AlwaysFits, ResultFits, IsResult, result_text};

use crate::failed::{Failed, write_failed_link};
use nfs_attrs::fattr::{Fattr, write_post_op_attr};
use nfs_attrs::wcc::{Wcc, write_wcc};
use nfs_xdr::output::Output;

/// A file that got a hard link (RFC 1813, section 3.3.15, LINK3res).
#[derive(Drop)]
pub struct Linked {
    /// The file's attributes.
    pub attributes: Option<Fattr>,
    /// The directory of the name.
    pub dir: Wcc,
}

/// Writes a file that got a hard link.
pub fn write_linked(out: &mut Output, answer: &Linked)
    requires { length (linked_text answer.now) ≤ out.old.room }
    ensures text { Appends (linked_text answer.now) out.old out.new }
    ensures encoded { IsLinked answer.now (linked_text answer.now) }
{
    write_post_op_attr(out, answer.attributes.as_ref());
    write_wcc(out, &answer.dir);
}

// The result of LINK.
pub(crate) fn write_link_result(out: &mut Output, answer: &Result<Linked, Failed<Linked>>)
    requires fits { ResultFits AlwaysFits answer.now }
    requires room { length (result_text linked_text linked_text answer.now) ≤ out.old.room }
    ensures text { Appends (result_text linked_text linked_text answer.now) out.old out.new }
    ensures encoded { IsResult IsLinked IsLinked answer.now (result_text linked_text linked_text answer.now) }
{
    match answer {
        Ok(value) => {
            out.u32(0);
            write_linked(out, value);
        }
        Err(failed) => write_failed_link(out, failed),
    }
}
