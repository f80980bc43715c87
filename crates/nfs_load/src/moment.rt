//! Fields that are times.
ghost use Rattle.std.specs.Prelude.{◌≡◌, ◌*◌, ◌<◌, None};
ghost use Rattle.nfs_load.specs.Moments as spec;
ghost use Rattle.nfs_load.specs.Moments.{fraction_in, moment_in, seconds_in, units_in};

use crate::cause::Cause;
use crate::field::read_number;
use nfs_attrs::moment::Moment;
use nfs_text::chunks::cut;

// The largest of the seconds and of the nanoseconds.
const MAX: u64 = 4_294_967_295;

/// A time: `SECONDS` since 1970, `SECONDS.FRACTION` with one to nine digits after the point, or
/// `SECONDS+NANOSECONDS`. `BadNumber` where the field is none of these, or its seconds or nanoseconds
/// are more than 32 bits hold.
pub(crate) fn read_moment(field: &[u8]) -> Result<Moment, Cause>
    ensures { result ≡ moment_in field.now }
{
    match cut(field, b'.') {
        (whole, Some(fraction)) => {
            let seconds = read_seconds(whole)?;
            let nanos = read_fraction(fraction)?;
            Ok(Moment { seconds, nanos })
        }
        (whole, None) => read_sum(whole),
    }
}

// Whole seconds, and nanoseconds after a plus.
fn read_sum(field: &[u8]) -> Result<Moment, Cause>
    ensures { result ≡ spec.after_point field.now None }
{
    match cut(field, b'+') {
        (whole, Some(nanos)) => {
            let seconds = read_seconds(whole)?;
            let nanos = read_seconds(nanos)?;
            Ok(Moment { seconds, nanos })
        }
        (whole, None) => {
            let seconds = read_seconds(whole)?;
            Ok(Moment { seconds, nanos: 0 })
        }
    }
}

// A number of 32 bits.
fn read_seconds(text: &[u8]) -> Result<u32, Cause>
    ensures { result ≡ seconds_in text.now }
{
    let number = read_number(text, 0, MAX)?;
    Ok(number as u32)
}

// The digits after a point, as nanoseconds.
fn read_fraction(text: &[u8]) -> Result<u32, Cause>
    ensures { result ≡ fraction_in text.now }
{
    match text.len() {
        1 => read_digits(text, 9, 100_000_000),
        2 => read_digits(text, 99, 10_000_000),
        3 => read_digits(text, 999, 1_000_000),
        4 => read_digits(text, 9_999, 100_000),
        5 => read_digits(text, 99_999, 10_000),
        6 => read_digits(text, 999_999, 1_000),
        7 => read_digits(text, 9_999_999, 100),
        8 => read_digits(text, 99_999_999, 10),
        9 => read_digits(text, 999_999_999, 1),
        _ => Err(Cause::BadNumber),
    }
}

// A number of digits, each of which counts so many nanoseconds in the last place.
fn read_digits(text: &[u8], max: u64, unit: u64) -> Result<u32, Cause>
    requires { max * unit < 4294967296 }
    ensures { result ≡ units_in max unit text.now }
{
    let number = read_number(text, 0, max)?;
    Ok((number * unit) as u32)
}
