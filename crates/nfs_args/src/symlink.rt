//! A symbolic link to be made.
ghost use Rattle.nfs_args.specs.Reading.{Takes, symlink_at};

use crate::dir_op::{DirOp, dir_op_of};
use crate::opaque::{Opaque, string_of};
use nfs_attrs::sattr::{Sattr, read_sattr};
use nfs_xdr::fault::XdrFault;
use nfs_xdr::input::Input;

/// A symbolic link to be made (RFC 1813, section 3.3.10, SYMLINK3args).
#[derive(Drop)]
pub struct Symlink<'a> {
    /// Where it is to be.
    pub place: DirOp<'a>,
    /// What it is to be like.
    pub attributes: Sattr,
    /// The path that it stands for.
    pub path: Opaque<'a>,
}

pub(crate) fn symlink_of<'a>(input: &mut Input<'a>) -> Result<Symlink<'a>, XdrFault>
    ensures { Takes input.old input.new result (symlink_at input.old) }
{
    let place = dir_op_of(input)?;
    let attributes = read_sattr(input)?;
    let path = string_of(input)?;
    Ok(Symlink {
        place,
        attributes,
        path,
    })
}
