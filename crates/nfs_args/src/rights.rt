//! The rights that a caller has.
ghost use Rattle.std.specs.Prelude.{◌≡◌, ◌≤◌, length};
ghost use Rattle.nfs_xdr.specs.Written.{Appends};
ghost use Rattle.nfs_attrs.specs.Encoding.{IsPostOpAttr, post_op_attr_text};
ghost use Rattle.nfs_args.specs.Results.{IsRights, rights_text, AlwaysFits, ResultFits, IsResult, result_text};

use crate::failed::{Failed, write_failed_attributes};
use nfs_attrs::fattr::{Fattr, write_post_op_attr};
use nfs_xdr::output::Output;

/// The rights that a caller has (RFC 1813, section 3.3.4, ACCESS3resok).
#[derive(Drop)]
pub struct Rights {
    /// The file's attributes.
    pub attributes: Option<Fattr>,
    /// One bit for each right that was asked for and is there.
    pub rights: u32,
}

/// Writes the rights that a caller has.
pub fn write_rights(out: &mut Output, answer: &Rights)
    requires { length (rights_text answer.now) ≤ out.old.room }
    ensures text { Appends (rights_text answer.now) out.old out.new }
    ensures encoded { IsRights answer.now (rights_text answer.now) }
{
    write_post_op_attr(out, answer.attributes.as_ref());
    out.u32(answer.rights);
}

// The result of ACCESS.
pub(crate) fn write_access_result(out: &mut Output, answer: &Result<Rights, Failed<Option<Fattr>>>)
    requires fits { ResultFits AlwaysFits answer.now }
    requires room { length (result_text rights_text post_op_attr_text answer.now) ≤ out.old.room }
    ensures text { Appends (result_text rights_text post_op_attr_text answer.now) out.old out.new }
    ensures encoded { IsResult IsRights IsPostOpAttr answer.now (result_text rights_text post_op_attr_text answer.now) }
{
    match answer {
        Ok(value) => {
            out.u32(0);
            write_rights(out, value);
        }
        Err(failed) => write_failed_attributes(out, failed),
    }
}
