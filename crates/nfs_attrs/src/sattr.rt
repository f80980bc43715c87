//! The attributes that a client sets.
ghost use Rattle.std.specs.Prelude.{◌≡◌, ◌≤◌, length};
ghost use Rattle.std.specs.Int.{w32, w64, to_be_bytes};
ghost use Rattle.nfs_xdr.specs.Encoding.{IsNumber, IsOptional, optional_text};
ghost use Rattle.nfs_xdr.specs.Reading.{Gives, Reads, number_at, optional_at};
ghost use Rattle.nfs_xdr.specs.Written.{Appends};
ghost use Rattle.nfs_attrs.specs.Encoding.{IsSattr, sattr_text};
ghost use Rattle.nfs_attrs.specs.Reading.{sattr_at};

use crate::time_setting::{TimeSetting, read_time_setting, write_time_setting};
use nfs_xdr::fault::XdrFault;
use nfs_xdr::input::Input;
use nfs_xdr::output::Output;

/// Which attributes of a file are to be set, and to what (RFC 1813, section 2.6, sattr3).
#[derive(Clone, Copy, Debug, PartialEq, Eq)]
pub struct Sattr {
    /// The protection bits.
    pub mode: Option<u32>,
    /// The owner's user number.
    pub uid: Option<u32>,
    /// The number of the file's group.
    pub gid: Option<u32>,
    /// The file's size in bytes.
    pub size: Option<u64>,
    /// When the content was last read.
    pub atime: TimeSetting,
    /// When the content was last changed.
    pub mtime: TimeSetting,
}

// Inlined with all that it calls: settings that are handed over in memory are copied in wider words
// than they were written in, which costs more than all of their reading.
/// Reads which attributes are to be set. The first fault from left to right: `Short` where the
/// bytes end, `BadBool` where it is not said whether a number is given, `BadEnum` where it is not
/// said how a time is to be set.
#[inline(always)]
pub fn read_sattr(input: &mut Input<'_>) -> Result<Sattr, XdrFault>
    ensures exact { Gives (λ s. s) input.old input.new result (sattr_at input.old) }
    ensures reads { Reads (λ s. s) IsSattr input.old input.new result }
{
    let (settings, rest) = sattr_of(input.rest())?;
    *input = rest;
    Ok(settings)
}

#[inline(always)]
fn sattr_of(bytes: &[u8]) -> Result<(Sattr, Input<'_>), XdrFault>
    ensures { result ≡ sattr_at bytes.now }
{
    let mut input = Input::new(bytes);
    let mode = read_word(&mut input)?;
    let uid = read_word(&mut input)?;
    let gid = read_word(&mut input)?;
    let size = read_hyper(&mut input)?;
    let atime = read_time_setting(&mut input)?;
    let mtime = read_time_setting(&mut input)?;
    let settings = Sattr {
        mode,
        uid,
        gid,
        size,
        atime,
        mtime,
    };
    Ok((settings, input))
}

#[inline(always)]
fn read_word(input: &mut Input<'_>) -> Result<Option<u32>, XdrFault>
    ensures { Gives (λ o. o) input.old input.new result (optional_at (number_at w32) input.old) }
{
    let mut ahead = Input::new(input.rest());
    if !ahead.boolean()? {
        *input = ahead;
        return Ok(None);
    }
    let n = ahead.u32()?;
    *input = ahead;
    Ok(Some(n))
}

#[inline(always)]
fn read_hyper(input: &mut Input<'_>) -> Result<Option<u64>, XdrFault>
    ensures { Gives (λ o. o) input.old input.new result (optional_at (number_at w64) input.old) }
{
    let mut ahead = Input::new(input.rest());
    if !ahead.boolean()? {
        *input = ahead;
        return Ok(None);
    }
    let n = ahead.u64()?;
    *input = ahead;
    Ok(Some(n))
}

/// Writes which attributes are to be set.
pub fn write_sattr(out: &mut Output, settings: &Sattr)
    requires { length (sattr_text settings.now) ≤ out.old.room }
    ensures text { Appends (sattr_text settings.now) out.old out.new }
    ensures encoded { IsSattr settings.now (sattr_text settings.now) }
{
    write_word(out, settings.mode);
    write_word(out, settings.uid);
    write_word(out, settings.gid);
    write_hyper(out, settings.size);
    write_time_setting(out, settings.atime);
    write_time_setting(out, settings.mtime);
}

fn write_word(out: &mut Output, value: Option<u32>)
    requires { length (optional_text (to_be_bytes w32) value) ≤ out.old.room }
    ensures text { Appends (optional_text (to_be_bytes w32) value) out.old out.new }
    ensures encoded { IsOptional (IsNumber w32) value (optional_text (to_be_bytes w32) value) }
{
    match value {
        None => out.u32(0),
        Some(n) => {
            out.u32(1);
            out.u32(n);
        }
    }
}

fn write_hyper(out: &mut Output, value: Option<u64>)
    requires { length (optional_text (to_be_bytes w64) value) ≤ out.old.room }
    ensures text { Appends (optional_text (to_be_bytes w64) value) out.old out.new }
    ensures encoded { IsOptional (IsNumber w64) value (optional_text (to_be_bytes w64) value) }
{
    match value {
        None => out.u32(0),
        Some(n) => {
            out.u32(1);
            out.u64(n);
        }
    }
}
