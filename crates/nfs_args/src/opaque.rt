//! Bytes that are lent from a record: handles, names, paths and data.
ghost use Rattle.std.specs.Prelude.{◌≡◌, ◌≤◌, length};
ghost use Rattle.std.specs.Int.{w64, to_be_bytes};
ghost use Rattle.nfs_xdr.specs.Encoding.{IsOptional, hypers_text, opaque_text, optional_text};
ghost use Rattle.nfs_xdr.specs.Written.{Appends};
ghost use Rattle.nfs_args.specs.Encoding.{IsHandle, IsString};
ghost use Rattle.nfs_args.specs.Results.{StringFits, HandleFits};
ghost use Rattle.nfs_args.specs.Reading.{Takes, handle_at, string_at, verifier_at};

use crate::limits::MAX_HANDLE_BYTES;
use nfs_xdr::fault::XdrFault;
use nfs_xdr::input::Input;
use nfs_xdr::output::{Output, hyper_of};
use std::marker::Model;

/// How many bytes a verifier has (RFC 1813, section 2.4, NFS3_CREATEVERFSIZE and
/// NFS3_COOKIEVERFSIZE).
const VERIFIER_BYTES: usize = 8;

// How many bytes the handles of this server have, which are written as numbers.
const OWN_HANDLE_BYTES: usize = 24;

/// Bytes of a record, without their length and their padding. Contracts see them as a list.
#[derive(Drop)]
pub struct Opaque<'a> {
    bytes: &'a [u8],
}

impl<'a> Model for Opaque<'a> {
    ghost use Rattle.std.specs.Prelude.{ℕ, List};

    ghost Value = { List ℕ };

    ghost view = { λ a. a.bytes.now };
}

impl<'a> Opaque<'a> {
    /// These bytes.
    pub fn new(bytes: &'a [u8]) -> Opaque<'a>
        ensures { result ≡ bytes.entry.now }
    {
        Opaque { bytes }
    }

    /// The bytes, where they lie in the record.
    pub fn bytes(&self) -> &'a [u8]
        ensures { result.now ≡ self.now }
    {
        self.bytes
    }
}

// A handle: at most 64 bytes (RFC 1813, section 2.6, nfs_fh3).
pub(crate) fn handle_of<'a>(input: &mut Input<'a>) -> Result<Opaque<'a>, XdrFault>
    ensures { Takes input.old input.new result (handle_at input.old) }
{
    let bytes = input.opaque(MAX_HANDLE_BYTES as u32)?;
    Ok(Opaque { bytes })
}

// A name, a path or data, without a bound of its own.
#[inline(always)]
pub(crate) fn string_of<'a>(input: &mut Input<'a>) -> Result<Opaque<'a>, XdrFault>
    ensures { Takes input.old input.new result (string_at input.old) }
{
    let bytes = input.opaque(u32::MAX)?;
    Ok(Opaque { bytes })
}

// A verifier: 8 bytes.
pub(crate) fn verifier_of<'a>(input: &mut Input<'a>) -> Result<Opaque<'a>, XdrFault>
    ensures { Takes input.old input.new result (verifier_at input.old) }
{
    let bytes = input.fixed(VERIFIER_BYTES)?;
    Ok(Opaque { bytes })
}

// A handle: at most 64 bytes.
#[inline(always)]
pub(crate) fn write_handle(out: &mut Output, handle: &Opaque<'_>)
    requires bound { length handle.now ≤ 64 }
    requires room { length (opaque_text handle.now) ≤ out.old.room }
    ensures text { Appends (opaque_text handle.now) out.old out.new }
    ensures encoded { IsHandle handle.now (opaque_text handle.now) }
{
    let handle = handle.bytes();
    if handle.len() == OWN_HANDLE_BYTES {
        out.u32(OWN_HANDLE_BYTES as u32);
        out.hypers(hypers_of(handle));
    } else {
        out.opaque(handle);
    }
}

// A handle, or that there is none (RFC 1813, section 2.6, post_op_fh3).
#[inline(always)]
pub(crate) fn write_post_op_handle(out: &mut Output, handle: &Option<Opaque<'_>>)
    requires bound { HandleFits handle.now }
    requires room { length (optional_text opaque_text handle.now) ≤ out.old.room }
    ensures text { Appends (optional_text opaque_text handle.now) out.old out.new }
    ensures encoded { IsOptional IsHandle handle.now (optional_text opaque_text handle.now) }
{
    match handle {
        None => out.u32(0),
        Some(handle) if handle.bytes().len() == OWN_HANDLE_BYTES => {
            out.hypers([hyper_of(1, OWN_HANDLE_BYTES as u32)]);
            out.hypers(hypers_of(handle.bytes()));
        }
        Some(handle) => {
            out.u32(1);
            write_handle(out, handle);
        }
    }
}

// The hyper integers that are encoded as these bytes. Written so, a handle that was put together from
// numbers needn't be laid down byte by byte first.
#[inline(always)]
fn hypers_of(bytes: &[u8]) -> [u64; 3]
    requires { length bytes.now ≡ OWN_HANDLE_BYTES }
    ensures { hypers_text result ≡ bytes.now }
{
    let (a, rest) = bytes.split_at(8);
    let (b, c) = rest.split_at(8);
    [hyper(a), hyper(b), hyper(c)]
}

// The hyper integer that is encoded as these bytes.
#[inline(always)]
fn hyper(b: &[u8]) -> u64
    requires { length b.now ≡ 8 }
    ensures { to_be_bytes w64 result ≡ b.now }
{
    u64::from_be_bytes([b[0], b[1], b[2], b[3], b[4], b[5], b[6], b[7]])
}

// A name or a path.
pub(crate) fn write_string(out: &mut Output, string: &Opaque<'_>)
    requires fits { StringFits string.now }
    requires room { length (opaque_text string.now) ≤ out.old.room }
    ensures text { Appends (opaque_text string.now) out.old out.new }
    ensures encoded { IsString string.now (opaque_text string.now) }
{
    out.opaque(string.bytes());
}
