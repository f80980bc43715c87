//! A hard link of a file.
ghost use Rattle.nfs_args.specs.Reading.{Takes, link_at};

use crate::dir_op::{DirOp, dir_op_of};
use crate::opaque::{Opaque, handle_of};
use nfs_xdr::fault::XdrFault;
use nfs_xdr::input::Input;

/// A hard link of a file (RFC 1813, section 3.3.15, LINK3args).
#[derive(Drop)]
pub struct Link<'a> {
    /// The file's handle.
    pub file: Opaque<'a>,
    /// The name that it gets.
    pub place: DirOp<'a>,
}

pub(crate) fn link_of<'a>(input: &mut Input<'a>) -> Result<Link<'a>, XdrFault>
    ensures { Takes input.old input.new result (link_at input.old) }
{
    let file = handle_of(input)?;
    let place = dir_op_of(input)?;
    Ok(Link { file, place })
}
