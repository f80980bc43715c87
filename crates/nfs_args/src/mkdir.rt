//! A directory to be made.
ghost use Rattle.nfs_args.specs.Reading.{Takes, mkdir_at};

use crate::dir_op::{DirOp, dir_op_of};
use nfs_attrs::sattr::{Sattr, read_sattr};
use nfs_xdr::fault::XdrFault;
use nfs_xdr::input::Input;

/// A directory to be made (RFC 1813, section 3.3.9, MKDIR3args).
#[derive(Drop)]
pub struct Mkdir<'a> {
    /// Where it is to be.
    pub place: DirOp<'a>,
    /// What it is to be like.
    pub attributes: Sattr,
}

pub(crate) fn mkdir_of<'a>(input: &mut Input<'a>) -> Result<Mkdir<'a>, XdrFault>
    ensures { Takes input.old input.new result (mkdir_at input.old) }
{
    let place = dir_op_of(input)?;
    let attributes = read_sattr(input)?;
    Ok(Mkdir { place, attributes })
}
