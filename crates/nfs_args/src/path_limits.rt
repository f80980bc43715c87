//! What names may be.
ghost use Rattle.std.specs.Prelude.{◌≡◌, ◌≤◌, length};
ghost use Rattle.nfs_xdr.specs.Written.{Appends};
ghost use Rattle.nfs_attrs.specs.Encoding.{IsPostOpAttr, post_op_attr_text};
ghost use Rattle.nfs_args.specs.Results.{IsPathLimits, path_limits_text, AlwaysFits, ResultFits, IsResult, result_text};

use crate::failed::{Failed, write_failed_attributes};
use nfs_attrs::fattr::{Fattr, write_post_op_attr};
use nfs_xdr::output::Output;

/// What names may be (RFC 1813, section 3.3.20, PATHCONF3resok).
#[derive(Drop)]
pub struct PathLimits {
    /// The named file's attributes.
    pub attributes: Option<Fattr>,
    /// How many names a file may have.
    pub linkmax: u32,
    /// How many bytes a name may have.
    pub name_max: u32,
    /// Whether a longer name is refused, and not cut.
    pub no_trunc: bool,
    /// Whether an owner may not give a file away.
    pub chown_restricted: bool,
    /// Whether names that differ only in case are one.
    pub case_insensitive: bool,
    /// Whether a name keeps its case.
    pub case_preserving: bool,
}

/// Writes what names may be.
pub fn write_path_limits(out: &mut Output, answer: &PathLimits)
    requires { length (path_limits_text answer.now) ≤ out.old.room }
    ensures text { Appends (path_limits_text answer.now) out.old out.new }
    ensures encoded { IsPathLimits answer.now (path_limits_text answer.now) }
{
    write_post_op_attr(out, answer.attributes.as_ref());
    out.u32(answer.linkmax);
    out.u32(answer.name_max);
    out.boolean(answer.no_trunc);
    out.boolean(answer.chown_restricted);
    out.boolean(answer.case_insensitive);
    out.boolean(answer.case_preserving);
}

// The result of PATHCONF.
pub(crate) fn write_pathconf_result(
    out: &mut Output,
    answer: &Result<PathLimits, Failed<Option<Fattr>>>,
)
    requires fits { ResultFits AlwaysFits answer.now }
    requires room { length (result_text path_limits_text post_op_attr_text answer.now) ≤ out.old.room }
    ensures text { Appends (result_text path_limits_text post_op_attr_text answer.now) out.old out.new }
    ensures encoded { IsResult IsPathLimits IsPostOpAttr answer.now (result_text path_limits_text post_op_attr_text answer.now) }
{
    match answer {
        Ok(value) => {
            out.u32(0);
            write_path_limits(out, value);
        }
        Err(failed) => write_failed_attributes(out, failed),
    }
}
