//! Bytes that were read.
ghost use Rattle.std.specs.Prelude.{◌≡◌, ◌≤◌, length, option_copied};
ghost use Rattle.nfs_xdr.specs.Written.{Appends};
ghost use Rattle.nfs_attrs.specs.Encoding.{IsPostOpAttr, post_op_attr_text};
ghost use Rattle.nfs_args.specs.Results.{IsReadData, BeginsReadData, read_head_text, read_data_text, ReadDataFits, ResultFits, IsResult, result_text};

use crate::failed::{Failed, write_failed_attributes};
use crate::opaque::Opaque;
use nfs_attrs::fattr::{Fattr, write_post_op_attr};
use nfs_xdr::output::Output;

/// Bytes that were read (RFC 1813, section 3.3.6, READ3resok). They are lent; where they lie in
/// chunks, or are long, a caller writes the status 0, `write_read_head`, the bytes by
/// `Output::part` and their padding by `Output::pad`, and makes no copy of them.
#[derive(Drop)]
pub struct ReadData<'a> {
    /// The file's attributes.
    pub attributes: Option<Fattr>,
    /// Whether the file ends after these bytes.
    pub eof: bool,
    /// The bytes, fewer than 2^32.
    pub content: Opaque<'a>,
}

/// Writes the bytes that were read.
pub(crate) fn write_read_data(out: &mut Output, answer: &ReadData<'_>)
    requires fits { ReadDataFits answer.now }
    requires room { length (read_data_text answer.now) ≤ out.old.room }
    ensures text { Appends (read_data_text answer.now) out.old out.new }
    ensures encoded { IsReadData answer.now (read_data_text answer.now) }
{
    let content = answer.content.bytes();
    write_read_head(
        out,
        answer.attributes.as_ref(),
        content.len() as u32,
        answer.eof,
    );
    out.fixed(content);
}

/// Writes what stands in front of so many bytes that were read: with them and their padding after
/// it, that is the answer.
pub fn write_read_head(out: &mut Output, attributes: Option<&Fattr>, count: u32, eof: bool)
    requires { length (read_head_text (option_copied attributes) count eof) ≤ out.old.room }
    ensures text { Appends (read_head_text (option_copied attributes.entry) count eof) out.old out.new }
    ensures encoded { BeginsReadData (option_copied attributes.entry) count eof }
{
    write_post_op_attr(out, attributes);
    out.u32(count);
    out.boolean(eof);
    out.u32(count);
}

// The result of READ.
pub(crate) fn write_read_result(
    out: &mut Output,
    answer: &Result<ReadData<'_>, Failed<Option<Fattr>>>,
)
    requires fits { ResultFits ReadDataFits answer.now }
    requires room { length (result_text read_data_text post_op_attr_text answer.now) ≤ out.old.room }
    ensures text { Appends (result_text read_data_text post_op_attr_text answer.now) out.old out.new }
    ensures encoded { IsResult IsReadData IsPostOpAttr answer.now (result_text read_data_text post_op_attr_text answer.now) }
{
    match answer {
        Ok(value) => {
            out.u32(0);
            write_read_data(out, value);
        }
        Err(failed) => write_failed_attributes(out, failed),
    }
}
