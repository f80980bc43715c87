//! Times.
ghost use Rattle.std.specs.Prelude.{◌≡◌, ◌≤◌};
ghost use Rattle.nfs_xdr.specs.Reading.{Gives, Reads};
ghost use Rattle.nfs_xdr.specs.Written.{Appends};
ghost use Rattle.nfs_attrs.specs.Encoding.{IsMoment, moment_text};
ghost use Rattle.nfs_attrs.specs.Reading.{moment_at};

use nfs_xdr::fault::XdrFault;
use nfs_xdr::input::Input;
use nfs_xdr::output::Output;

/// A time: seconds and nanoseconds since 1970, any two numbers (RFC 1813, section 2.6, nfstime3).
#[derive(Clone, Copy, Debug, PartialEq, Eq)]
pub struct Moment {
    /// Whole seconds.
    pub seconds: u32,
    /// Nanoseconds beyond these.
    pub nanos: u32,
}

/// Reads a time. `Short` where fewer than 8 bytes are left.
pub fn read_moment(input: &mut Input<'_>) -> Result<Moment, XdrFault>
    ensures exact { Gives (λ m. m) input.old input.new result (moment_at input.old) }
    ensures reads { Reads (λ m. m) IsMoment input.old input.new result }
{
    let (moment, rest) = moment_of(input.rest())?;
    *input = rest;
    Ok(moment)
}

fn moment_of(bytes: &[u8]) -> Result<(Moment, Input<'_>), XdrFault>
    ensures { result ≡ moment_at bytes.now }
{
    let mut input = Input::new(bytes);
    let seconds = input.u32()?;
    let nanos = input.u32()?;
    Ok((Moment { seconds, nanos }, input))
}

/// Writes a time.
#[inline(always)]
pub fn write_moment(out: &mut Output, moment: Moment)
    requires { 8 ≤ out.old.room }
    ensures text { Appends (moment_text moment) out.old out.new }
    ensures encoded { IsMoment moment (moment_text moment) }
{
    out.numbers([moment.seconds, moment.nanos]);
}
