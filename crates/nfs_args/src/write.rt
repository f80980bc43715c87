//! Bytes to be written to a file.
ghost use Rattle.nfs_args.specs.Reading.{Takes, stability_at, write_at};

use crate::opaque::{Opaque, handle_of, string_of};
use nfs_xdr::fault::XdrFault;
use nfs_xdr::input::Input;

/// How safe written bytes have to be before they are answered (RFC 1813, section 3.3.7, stable_how).
#[derive(Clone, Copy)]
pub enum Stability {
    /// As the server likes.
    Unstable,
    /// The bytes, and what is needed to find them.
    DataSync,
    /// The bytes and all attributes.
    FileSync,
}

/// Bytes to be written to a file (RFC 1813, section 3.3.7, WRITE3args). Their count is their number.
#[derive(Drop)]
pub struct Write<'a> {
    /// The file's handle.
    pub file: Opaque<'a>,
    /// Where the bytes begin.
    pub offset: u64,
    /// How safe they have to be.
    pub stable: Stability,
    /// The bytes.
    pub content: Opaque<'a>,
}

// `TooLong` as well where the content isn't as long as the count says.
pub(crate) fn write_of<'a>(input: &mut Input<'a>) -> Result<Write<'a>, XdrFault>
    ensures { Takes input.old input.new result (write_at input.old) }
{
    let file = handle_of(input)?;
    let offset = input.u64()?;
    let count = input.u32()?;
    let stable = stability_of(input)?;
    let content = string_of(input)?;
    if content.bytes().len() != count as usize {
        return Err(XdrFault::TooLong);
    }
    Ok(Write {
        file,
        offset,
        stable,
        content,
    })
}

fn stability_of(input: &mut Input<'_>) -> Result<Stability, XdrFault>
    ensures { Takes input.old input.new result (stability_at input.old) }
{
    match input.u32()? {
        0 => Ok(Stability::Unstable),
        1 => Ok(Stability::DataSync),
        2 => Ok(Stability::FileSync),
        _ => Err(XdrFault::BadEnum),
    }
}
