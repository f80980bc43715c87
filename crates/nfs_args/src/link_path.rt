//! The path that a symbolic link stands for.
ghost use Rattle.std.specs.Prelude.{◌≡◌, ◌≤◌, length};
ghost use Rattle.nfs_xdr.specs.Written.{Appends};
ghost use Rattle.nfs_attrs.specs.Encoding.{IsPostOpAttr, post_op_attr_text};
ghost use Rattle.nfs_args.specs.Results.{IsLinkPath, link_path_text, LinkPathFits, ResultFits, IsResult, result_text};

use crate::failed::{Failed, write_failed_attributes};
use crate::opaque::{Opaque, write_string};
use nfs_attrs::fattr::{Fattr, write_post_op_attr};
use nfs_xdr::output::Output;

/// The path that a symbolic link stands for (RFC 1813, section 3.3.5, READLINK3resok).
#[derive(Drop)]
pub struct LinkPath<'a> {
    /// The link's attributes.
    pub attributes: Option<Fattr>,
    /// The path, of fewer than 2^32 bytes.
    pub path: Opaque<'a>,
}

/// Writes the path that a symbolic link stands for.
pub fn write_link_path(out: &mut Output, answer: &LinkPath<'_>)
    requires fits { LinkPathFits answer.now }
    requires room { length (link_path_text answer.now) ≤ out.old.room }
    ensures text { Appends (link_path_text answer.now) out.old out.new }
    ensures encoded { IsLinkPath answer.now (link_path_text answer.now) }
{
    write_post_op_attr(out, answer.attributes.as_ref());
    write_string(out, &answer.path);
}

// The result of READLINK.
pub(crate) fn write_readlink_result(
    out: &mut Output,
    answer: &Result<LinkPath<'_>, Failed<Option<Fattr>>>,
)
    requires fits { ResultFits LinkPathFits answer.now }
    requires room { length (result_text link_path_text post_op_attr_text answer.now) ≤ out.old.room }
    ensures text { Appends (result_text link_path_text post_op_attr_text answer.now) out.old out.new }
    ensures encoded { IsResult IsLinkPath IsPostOpAttr answer.now (result_text link_path_text post_op_attr_text answer.now) }
{
    match answer {
        Ok(value) => {
            out.u32(0);
            write_link_path(out, value);
        }
        Err(failed) => write_failed_attributes(out, failed),
    }
}
