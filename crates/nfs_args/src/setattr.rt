//! Attributes to be set, and the guard of that.
ghost use Rattle.nfs_args.specs.Reading.{Takes, guard_at, setattr_at};

use crate::opaque::{Opaque, handle_of};
use nfs_attrs::moment::{Moment, read_moment};
use nfs_attrs::sattr::{Sattr, read_sattr};
use nfs_xdr::fault::XdrFault;
use nfs_xdr::input::Input;

/// Attributes to be set (RFC 1813, section 3.3.2, SETATTR3args).
#[derive(Drop)]
pub struct Setattr<'a> {
    /// The file's handle.
    pub file: Opaque<'a>,
    /// What is to be set.
    pub attributes: Sattr,
    /// The guard: when the file's attributes must have been changed last, where it is checked.
    pub guard: Option<Moment>,
}

pub(crate) fn setattr_of<'a>(input: &mut Input<'a>) -> Result<Setattr<'a>, XdrFault>
    ensures { Takes input.old input.new result (setattr_at input.old) }
{
    let file = handle_of(input)?;
    let attributes = read_sattr(input)?;
    let guard = guard_of(input)?;
    Ok(Setattr {
        file,
        attributes,
        guard,
    })
}

fn guard_of(input: &mut Input<'_>) -> Result<Option<Moment>, XdrFault>
    ensures { Takes input.old input.new result (guard_at input.old) }
{
    if !input.boolean()? {
        return Ok(None);
    }
    let ctime = read_moment(input)?;
    Ok(Some(ctime))
}
