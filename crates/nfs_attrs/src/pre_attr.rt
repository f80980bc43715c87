//! The attributes of a file that an operation is judged by.
ghost use Rattle.std.specs.Prelude.{◌≡◌, ◌≤◌, length};
ghost use Rattle.nfs_xdr.specs.Reading.{Gives, Reads};
ghost use Rattle.nfs_xdr.specs.Written.{Appends};
ghost use Rattle.nfs_attrs.specs.Encoding.{IsPreAttr, IsPreOpAttr, pre_attr_text, pre_op_attr_text};
ghost use Rattle.nfs_attrs.specs.Reading.{pre_attr_at, pre_op_attr_at};

use crate::moment::{Moment, read_moment};
use nfs_xdr::fault::XdrFault;
use nfs_xdr::input::Input;
use nfs_xdr::output::{Output, hyper_of};

/// What a client compares with the attributes it knew, to see whether the file was changed by
/// others (RFC 1813, section 2.6, wcc_attr).
#[derive(Clone, Copy, Debug, PartialEq, Eq)]
pub struct PreAttr {
    /// The file's size in bytes.
    pub size: u64,
    /// When the content was last changed.
    pub mtime: Moment,
    /// When the attributes were last changed.
    pub ctime: Moment,
}

/// Reads a file's size and times. `Short` where fewer than 24 bytes are left.
pub fn read_pre_attr(input: &mut Input<'_>) -> Result<PreAttr, XdrFault>
    ensures exact { Gives (λ a. a) input.old input.new result (pre_attr_at input.old) }
    ensures reads { Reads (λ a. a) IsPreAttr input.old input.new result }
{
    let (attributes, rest) = pre_attr_of(input.rest())?;
    *input = rest;
    Ok(attributes)
}

fn pre_attr_of(bytes: &[u8]) -> Result<(PreAttr, Input<'_>), XdrFault>
    ensures { result ≡ pre_attr_at bytes.now }
{
    let mut input = Input::new(bytes);
    let size = input.u64()?;
    let mtime = read_moment(&mut input)?;
    let ctime = read_moment(&mut input)?;
    Ok((PreAttr { size, mtime, ctime }, input))
}

/// Writes a file's size and times.
pub fn write_pre_attr(out: &mut Output, attributes: &PreAttr)
    requires { 24 ≤ out.old.room }
    ensures text { Appends (pre_attr_text attributes.now) out.old out.new }
    ensures encoded { IsPreAttr attributes.now (pre_attr_text attributes.now) }
{
    out.hypers([
        attributes.size,
        hyper_of(attributes.mtime.seconds, attributes.mtime.nanos),
        hyper_of(attributes.ctime.seconds, attributes.ctime.nanos),
    ]);
}

/// Reads a file's size and times, or that there are none (RFC 1813, section 2.6, pre_op_attr).
/// The first fault from left to right: `Short` where the bytes end, `BadBool` where it is not
/// said whether they are there.
pub fn read_pre_op_attr(input: &mut Input<'_>) -> Result<Option<PreAttr>, XdrFault>
    ensures exact { Gives (λ a. a) input.old input.new result (pre_op_attr_at input.old) }
    ensures reads { Reads (λ a. a) IsPreOpAttr input.old input.new result }
{
    let (attributes, rest) = pre_op_attr_of(input.rest())?;
    *input = rest;
    Ok(attributes)
}

fn pre_op_attr_of(bytes: &[u8]) -> Result<(Option<PreAttr>, Input<'_>), XdrFault>
    ensures { result ≡ pre_op_attr_at bytes.now }
{
    let mut input = Input::new(bytes);
    if !input.boolean()? {
        return Ok((None, input));
    }
    let attributes = read_pre_attr(&mut input)?;
    Ok((Some(attributes), input))
}

/// Writes a file's size and times, or that there are none (RFC 1813, section 2.6, pre_op_attr).
#[inline(always)]
pub fn write_pre_op_attr(out: &mut Output, attributes: Option<PreAttr>)
    requires { length (pre_op_attr_text attributes) ≤ out.old.room }
    ensures text { Appends (pre_op_attr_text attributes) out.old out.new }
    ensures encoded { IsPreOpAttr attributes (pre_op_attr_text attributes) }
{
    match attributes {
        None => out.u32(0),
        Some(attributes) => {
            out.u32(1);
            write_pre_attr(out, &attributes);
        }
    }
}
