//! How a time of a file is to be set.
ghost use Rattle.std.specs.Prelude.{◌≡◌, ◌≤◌, length};
ghost use Rattle.nfs_xdr.specs.Reading.{Gives, Reads};
ghost use Rattle.nfs_xdr.specs.Written.{Appends};
ghost use Rattle.nfs_attrs.specs.Encoding.{IsTimeSetting, time_setting_text};
ghost use Rattle.nfs_attrs.specs.Reading.{time_setting_at};

use crate::moment::{Moment, read_moment, write_moment};
use nfs_xdr::fault::XdrFault;
use nfs_xdr::input::Input;
use nfs_xdr::output::Output;

/// What becomes of a time of a file (RFC 1813, section 2.6, time_how, set_atime and set_mtime).
#[derive(Clone, Copy, Debug, PartialEq, Eq)]
pub enum TimeSetting {
    /// It stays as it is.
    Leave,
    /// It becomes the server's time.
    ServerTime,
    /// It becomes this time of the client's.
    ClientTime(Moment),
}

/// Reads how a time is to be set. The first fault from left to right: `Short` where the bytes
/// end, `BadEnum` at a number above 2.
#[inline(always)]
pub fn read_time_setting(input: &mut Input<'_>) -> Result<TimeSetting, XdrFault>
    ensures exact { Gives (λ s. s) input.old input.new result (time_setting_at input.old) }
    ensures reads { Reads (λ s. s) IsTimeSetting input.old input.new result }
{
    let (setting, rest) = time_setting_of(input.rest())?;
    *input = rest;
    Ok(setting)
}

#[inline(always)]
fn time_setting_of(bytes: &[u8]) -> Result<(TimeSetting, Input<'_>), XdrFault>
    ensures { result ≡ time_setting_at bytes.now }
{
    let mut input = Input::new(bytes);
    match input.u32()? {
        0 => Ok((TimeSetting::Leave, input)),
        1 => Ok((TimeSetting::ServerTime, input)),
        2 => {
            let moment = read_moment(&mut input)?;
            Ok((TimeSetting::ClientTime(moment), input))
        }
        _ => Err(XdrFault::BadEnum),
    }
}

/// Writes how a time is to be set.
pub fn write_time_setting(out: &mut Output, setting: TimeSetting)
    requires { length (time_setting_text setting) ≤ out.old.room }
    ensures text { Appends (time_setting_text setting) out.old out.new }
    ensures encoded { IsTimeSetting setting (time_setting_text setting) }
{
    match setting {
        TimeSetting::Leave => out.u32(0),
        TimeSetting::ServerTime => out.u32(1),
        TimeSetting::ClientTime(moment) => {
            out.u32(2);
            write_moment(out, moment);
        }
    }
}
