//! What an operation found and left of a file's attributes.
ghost use Rattle.std.specs.Prelude.{◌≡◌, ◌≤◌, length};
ghost use Rattle.nfs_xdr.specs.Reading.{Gives, Reads};
ghost use Rattle.nfs_xdr.specs.Written.{Appends};
ghost use Rattle.nfs_attrs.specs.Encoding.{IsWcc, wcc_text};
ghost use Rattle.nfs_attrs.specs.Reading.{wcc_at};

use crate::fattr::{Fattr, read_post_op_attr, write_post_op_attr};
use crate::pre_attr::{PreAttr, read_pre_op_attr, write_pre_op_attr};
use nfs_xdr::fault::XdrFault;
use nfs_xdr::input::Input;
use nfs_xdr::output::Output;

/// The attributes of a file before and after an operation, each where it is known (RFC 1813,
/// section 2.6, wcc_data).
#[derive(Clone, Copy, Debug, PartialEq, Eq)]
pub struct Wcc {
    /// Some of the attributes before the operation.
    pub before: Option<PreAttr>,
    /// The attributes after it.
    pub after: Option<Fattr>,
}

/// Reads the attributes before and after an operation. The first fault from left to right:
/// `Short` where the bytes end, `BadBool` where it is not said whether attributes are there,
/// `BadEnum` at a number of no kind of file.
pub fn read_wcc(input: &mut Input<'_>) -> Result<Wcc, XdrFault>
    ensures exact { Gives (λ w. w) input.old input.new result (wcc_at input.old) }
    ensures reads { Reads (λ w. w) IsWcc input.old input.new result }
{
    let (wcc, rest) = wcc_of(input.rest())?;
    *input = rest;
    Ok(wcc)
}

fn wcc_of(bytes: &[u8]) -> Result<(Wcc, Input<'_>), XdrFault>
    ensures { result ≡ wcc_at bytes.now }
{
    let mut input = Input::new(bytes);
    let before = read_pre_op_attr(&mut input)?;
    let after = read_post_op_attr(&mut input)?;
    Ok((Wcc { before, after }, input))
}

/// Writes the attributes before and after an operation.
#[inline(always)]
pub fn write_wcc(out: &mut Output, wcc: &Wcc)
    requires { length (wcc_text wcc.now) ≤ out.old.room }
    ensures text { Appends (wcc_text wcc.now) out.old out.new }
    ensures encoded { IsWcc wcc.now (wcc_text wcc.now) }
{
    write_pre_op_attr(out, wcc.before);
    write_post_op_attr(out, wcc.after.as_ref());
}
