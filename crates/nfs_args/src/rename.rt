//! A name to be changed.
ghost use Rattle.nfs_args.specs.Reading.{Takes, rename_at};

use crate::dir_op::{DirOp, dir_op_of};
use nfs_xdr::fault::XdrFault;
use nfs_xdr::input::Input;

/// A name to be changed (RFC 1813, section 3.3.14, RENAME3args).
#[derive(Drop)]
pub struct Rename<'a> {
    /// The name that the file has.
    pub from: DirOp<'a>,
    /// The name that it gets.
    pub to: DirOp<'a>,
}

pub(crate) fn rename_of<'a>(input: &mut Input<'a>) -> Result<Rename<'a>, XdrFault>
    ensures { Takes input.old input.new result (rename_at input.old) }
{
    let from = dir_op_of(input)?;
    let to = dir_op_of(input)?;
    Ok(Rename { from, to })
}
