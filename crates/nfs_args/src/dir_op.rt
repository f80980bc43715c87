//! A name in a directory.
ghost use Rattle.nfs_args.specs.Reading.{Takes, dir_op_at};

use crate::opaque::{Opaque, handle_of, string_of};
use nfs_xdr::fault::XdrFault;
use nfs_xdr::input::Input;

/// A name in a directory (RFC 1813, section 2.6, diropargs3).
#[derive(Drop)]
pub struct DirOp<'a> {
    /// The directory's handle.
    pub dir: Opaque<'a>,
    /// The name.
    pub name: Opaque<'a>,
}

pub(crate) fn dir_op_of<'a>(input: &mut Input<'a>) -> Result<DirOp<'a>, XdrFault>
    ensures { Takes input.old input.new result (dir_op_at input.old) }
{
    let dir = handle_of(input)?;
    let name = string_of(input)?;
    Ok(DirOp { dir, name })
}
