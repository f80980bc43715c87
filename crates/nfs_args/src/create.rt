//! A file to be created.
ghost use Rattle.nfs_args.specs.Reading.{Takes, create_how_at, create_at, verifier_at};

use crate::dir_op::{DirOp, dir_op_of};
use nfs_attrs::sattr::{Sattr, read_sattr};
use nfs_xdr::fault::XdrFault;
use nfs_xdr::input::Input;

/// What is done where the name is there already, and what the new file is like (RFC 1813, section
/// 3.3.8, createhow3).
#[derive(Clone, Copy)]
pub enum CreateHow {
    /// The file that is there is taken.
    Unchecked(Sattr),
    /// It is refused.
    Guarded(Sattr),
    /// It is refused, unless the file was made by this verifier.
    Exclusive([u8; 8]),
}

/// A file to be created (RFC 1813, section 3.3.8, CREATE3args).
#[derive(Drop)]
pub struct Create<'a> {
    /// Where it is to be.
    pub place: DirOp<'a>,
    /// How it is created.
    pub how: CreateHow,
}

pub(crate) fn create_of<'a>(input: &mut Input<'a>) -> Result<Create<'a>, XdrFault>
    ensures { Takes input.old input.new result (create_at input.old) }
{
    let place = dir_op_of(input)?;
    let how = create_how_of(input)?;
    Ok(Create { place, how })
}

fn create_how_of(input: &mut Input<'_>) -> Result<CreateHow, XdrFault>
    ensures { Takes input.old input.new result (create_how_at input.old) }
{
    match input.u32()? {
        0 => Ok(CreateHow::Unchecked(read_sattr(input)?)),
        1 => Ok(CreateHow::Guarded(read_sattr(input)?)),
        2 => Ok(CreateHow::Exclusive(verifier_of(input)?)),
        _ => Err(XdrFault::BadEnum),
    }
}

// A verifier, which is kept with the file (RFC 1813, section 2.5, createverf3).
fn verifier_of(input: &mut Input<'_>) -> Result<[u8; 8], XdrFault>
    ensures { Takes input.old input.new result (verifier_at input.old) }
{
    match input.fixed(8)?.first_chunk::<8>() {
        Some(verifier) => Ok(*verifier),
        None => unreachable!(),
    }
}
