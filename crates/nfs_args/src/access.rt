//! Rights to be tested.
ghost use Rattle.nfs_args.specs.Reading.{Takes, access_at};

use crate::opaque::{Opaque, handle_of};
use nfs_xdr::fault::XdrFault;
use nfs_xdr::input::Input;

/// Rights to be tested (RFC 1813, section 3.3.4, ACCESS3args).
#[derive(Drop)]
pub struct Access<'a> {
    /// The file's handle.
    pub file: Opaque<'a>,
    /// One bit for each right.
    pub rights: u32,
}

pub(crate) fn access_of<'a>(input: &mut Input<'a>) -> Result<Access<'a>, XdrFault>
    ensures { Takes input.old input.new result (access_at input.old) }
{
    let file = handle_of(input)?;
    let rights = input.u32()?;
    Ok(Access { file, rights })
}
