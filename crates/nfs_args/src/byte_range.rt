//! Bytes of a file.
ghost use Rattle.nfs_args.specs.Reading.{Takes, byte_range_at};

use crate::opaque::{Opaque, handle_of};
use nfs_xdr::fault::XdrFault;
use nfs_xdr::input::Input;

/// Bytes of a file, to be read or to be committed (RFC 1813, sections 3.3.6 and 3.3.21, READ3args
/// and COMMIT3args).
#[derive(Drop)]
pub struct ByteRange<'a> {
    /// The file's handle.
    pub file: Opaque<'a>,
    /// Where the bytes begin.
    pub offset: u64,
    /// How many they are at most.
    pub count: u32,
}

pub(crate) fn byte_range_of<'a>(input: &mut Input<'a>) -> Result<ByteRange<'a>, XdrFault>
    ensures { Takes input.old input.new result (byte_range_at input.old) }
{
    let file = handle_of(input)?;
    let offset = input.u64()?;
    let count = input.u32()?;
    Ok(ByteRange {
        file,
        offset,
        count,
    })
}
