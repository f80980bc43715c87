//! Entries of a directory to be read, alone or with what their files are.
ghost use Rattle.nfs_args.specs.Reading.{Takes, readdir_at, readdirplus_at};

use crate::opaque::{Opaque, handle_of, verifier_of};
use nfs_xdr::fault::XdrFault;
use nfs_xdr::input::Input;

/// Entries of a directory to be read (RFC 1813, section 3.3.16, READDIR3args).
#[derive(Drop)]
pub struct Readdir<'a> {
    /// The directory's handle.
    pub dir: Opaque<'a>,
    /// The cookie of the entry after which they begin, 0 for the first.
    pub cookie: u64,
    /// The 8 bytes that came with the cookie.
    pub verifier: Opaque<'a>,
    /// How many bytes the answer has at most.
    pub count: u32,
}

/// Entries of a directory to be read with what their files are (RFC 1813, section 3.3.17,
/// READDIRPLUS3args).
#[derive(Drop)]
pub struct Readdirplus<'a> {
    /// The directory's handle.
    pub dir: Opaque<'a>,
    /// The cookie of the entry after which they begin, 0 for the first.
    pub cookie: u64,
    /// The 8 bytes that came with the cookie.
    pub verifier: Opaque<'a>,
    /// How many bytes the numbers, names and cookies of the entries have at most.
    pub dircount: u32,
    /// How many bytes the answer has at most.
    pub maxcount: u32,
}

pub(crate) fn readdir_of<'a>(input: &mut Input<'a>) -> Result<Readdir<'a>, XdrFault>
    ensures { Takes input.old input.new result (readdir_at input.old) }
{
    let dir = handle_of(input)?;
    let cookie = input.u64()?;
    let verifier = verifier_of(input)?;
    let count = input.u32()?;
    Ok(Readdir {
        dir,
        cookie,
        verifier,
        count,
    })
}

pub(crate) fn readdirplus_of<'a>(input: &mut Input<'a>) -> Result<Readdirplus<'a>, XdrFault>
    ensures { Takes input.old input.new result (readdirplus_at input.old) }
{
    let dir = handle_of(input)?;
    let cookie = input.u64()?;
    let verifier = verifier_of(input)?;
    let dircount = input.u32()?;
    let maxcount = input.u32()?;
    Ok(Readdirplus {
        dir,
        cookie,
        verifier,
        dircount,
        maxcount,
    })
}
