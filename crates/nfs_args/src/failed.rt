//! The arms of results whose status is not that of success.
ghost use Rattle.std.specs.Prelude.{◌≡◌, ◌+◌, ◌<◌, ◌≤◌, length};
ghost use Rattle.nfs_xdr.specs.Written.{Appends};
ghost use Rattle.nfs_attrs.specs.Encoding.{IsPostOpAttr, IsWcc, post_op_attr_text, wcc_text};
ghost use Rattle.nfs_args.specs.Results.{IsEmpty, empty_text, IsRenamed, renamed_text, IsLinked, linked_text, IsFailed, failed_text};

use crate::linked::{Linked, write_linked};
use crate::renamed::{Renamed, write_renamed};
use nfs_attrs::fattr::{Fattr, write_post_op_attr};
use nfs_attrs::wcc::{Wcc, write_wcc};
use nfs_xdr::output::Output;

/// Why a procedure was not done, and what its result shows all the same (RFC 1813, section 2.6,
/// nfsstat3, and the `resfail` of each procedure in section 3.3).
#[derive(Drop)]
pub struct Failed<T> {
    /// The status: not 0, which is that of success.
    pub status: u32,
    /// What is shown of the files that were named.
    pub shown: T,
}

// A failure that shows nothing.
pub(crate) fn write_failed(out: &mut Output, failed: &Failed<()>)
    requires status { 0 < failed.now.status }
    requires room { length (failed_text empty_text failed.now) ≤ out.old.room }
    ensures text { Appends (failed_text empty_text failed.now) out.old out.new }
    ensures encoded { IsFailed IsEmpty failed.now (failed_text empty_text failed.now) }
{
    out.u32(failed.status);
}

// A failure that shows the attributes of a file.
pub(crate) fn write_failed_attributes(out: &mut Output, failed: &Failed<Option<Fattr>>)
    requires status { 0 < failed.now.status }
    requires room { length (failed_text post_op_attr_text failed.now) ≤ out.old.room }
    ensures text { Appends (failed_text post_op_attr_text failed.now) out.old out.new }
    ensures encoded { IsFailed IsPostOpAttr failed.now (failed_text post_op_attr_text failed.now) }
{
    out.u32(failed.status);
    write_post_op_attr(out, failed.shown.as_ref());
}

// A failure that shows a file before and after.
pub(crate) fn write_failed_change(out: &mut Output, failed: &Failed<Wcc>)
    requires status { 0 < failed.now.status }
    requires room { length (failed_text wcc_text failed.now) ≤ out.old.room }
    ensures text { Appends (failed_text wcc_text failed.now) out.old out.new }
    ensures encoded { IsFailed IsWcc failed.now (failed_text wcc_text failed.now) }
{
    out.u32(failed.status);
    write_wcc(out, &failed.shown);
}

// A failure that shows both directories of a name.
pub(crate) fn write_failed_rename(out: &mut Output, failed: &Failed<Renamed>)
    requires status { 0 < failed.now.status }
    requires room { length (failed_text renamed_text failed.now) ≤ out.old.room }
    ensures text { Appends (failed_text renamed_text failed.now) out.old out.new }
    ensures encoded { IsFailed IsRenamed failed.now (failed_text renamed_text failed.now) }
{
    out.u32(failed.status);
    write_renamed(out, &failed.shown);
}

// A failure that shows a file and the directory of a name.
pub(crate) fn write_failed_link(out: &mut Output, failed: &Failed<Linked>)
    requires status { 0 < failed.now.status }
    requires room { length (failed_text linked_text failed.now) ≤ out.old.room }
    ensures text { Appends (failed_text linked_text failed.now) out.old out.new }
    ensures encoded { IsFailed IsLinked failed.now (failed_text linked_text failed.now) }
{
    out.u32(failed.status);
    write_linked(out, &failed.shown);
}
