//! What the server bears.
ghost use Rattle.std.specs.Prelude.{◌≡◌, ◌≤◌, length};
ghost use Rattle.nfs_xdr.specs.Written.{Appends};
ghost use Rattle.nfs_attrs.specs.Encoding.{IsPostOpAttr, post_op_attr_text};
ghost use Rattle.nfs_args.specs.Results.{IsTransfer, transfer_text, IsServerLimits, server_limits_text, AlwaysFits, ResultFits, IsResult, result_text};

use crate::failed::{Failed, write_failed_attributes};
use nfs_attrs::fattr::{Fattr, write_post_op_attr};
use nfs_attrs::moment::{Moment, write_moment};
use nfs_xdr::output::Output;

/// How many bytes one call may move.
#[derive(Drop)]
pub struct Transfer {
    /// At most.
    pub max: u32,
    /// Best.
    pub preferred: u32,
    /// A number is best a multiple of this.
    pub multiple: u32,
}

/// What the server bears (RFC 1813, section 3.3.19, FSINFO3resok).
#[derive(Drop)]
pub struct ServerLimits {
    /// The named file's attributes.
    pub attributes: Option<Fattr>,
    /// The bytes of a READ.
    pub read: Transfer,
    /// The bytes of a WRITE.
    pub write: Transfer,
    /// The best number of bytes of a READDIR.
    pub readdir: u32,
    /// The most bytes of a file.
    pub max_file_size: u64,
    /// How exact the server's times are.
    pub time_delta: Moment,
    /// One bit for each property that the volume has.
    pub properties: u32,
}

/// Writes what the server bears.
pub fn write_server_limits(out: &mut Output, answer: &ServerLimits)
    requires { length (server_limits_text answer.now) ≤ out.old.room }
    ensures text { Appends (server_limits_text answer.now) out.old out.new }
    ensures encoded { IsServerLimits answer.now (server_limits_text answer.now) }
{
    write_post_op_attr(out, answer.attributes.as_ref());
    write_transfer(out, &answer.read);
    write_transfer(out, &answer.write);
    out.u32(answer.readdir);
    out.u64(answer.max_file_size);
    write_moment(out, answer.time_delta);
    out.u32(answer.properties);
}

fn write_transfer(out: &mut Output, transfer: &Transfer)
    requires { 12 ≤ out.old.room }
    ensures text { Appends (transfer_text transfer.now) out.old out.new }
    ensures encoded { IsTransfer transfer.now (transfer_text transfer.now) }
{
    out.u32(transfer.max);
    out.u32(transfer.preferred);
    out.u32(transfer.multiple);
}

// The result of FSINFO.
pub(crate) fn write_fsinfo_result(
    out: &mut Output,
    answer: &Result<ServerLimits, Failed<Option<Fattr>>>,
)
    requires fits { ResultFits AlwaysFits answer.now }
    requires room { length (result_text server_limits_text post_op_attr_text answer.now) ≤ out.old.room }
    ensures text { Appends (result_text server_limits_text post_op_attr_text answer.now) out.old out.new }
    ensures encoded { IsResult IsServerLimits IsPostOpAttr answer.now (result_text server_limits_text post_op_attr_text answer.now) }
{
    match answer {
        Ok(value) => {
            out.u32(0);
            write_server_limits(out, value);
        }
        Err(failed) => write_failed_attributes(out, failed),
    }
}
