//! Numbers as lines of a description have them.
ghost use Rattle.std.specs.Prelude.{◌≡◌, ◌+◌, ◌≤◌, ◌++◌, codes};
ghost use Rattle.arrayvec.specs.ArrayVec.{array_vec_len};
ghost use Rattle.nfs_load.specs.Listings.{octal};
ghost use Rattle.nfs_describe.specs.Lines.{given_text, moment_text, nine_digits};

use nfs_attrs::moment::Moment;
use nfs_load::statement::Given;
use nfs_text::line::{Line, put, put_number};

/// Puts ` MODE UID GID` at the end of a line.
pub(crate) fn put_given(line: &mut Line, given: Given)
    requires { array_vec_len line.old + 64 ≤ 1024 }
    ensures items { line.new.items ≡ line.old.items ++ given_text given }
    ensures len { array_vec_len line.new ≤ array_vec_len line.old + 47 }
{
    put(line, b" ");
    put_octal(line, given.mode);
    put_number(line, b" ", u64::from(given.uid));
    put_number(line, b" ", u64::from(given.gid));
}

// The low 12 bits of a mode, in four octal digits.
fn put_octal(line: &mut Line, mode: u32)
    requires { array_vec_len line.old + 4 ≤ 1024 }
    ensures items { line.new.items ≡ line.old.items ++ octal mode }
    ensures len { array_vec_len line.new ≡ array_vec_len line.old + 4 }
{
    let digit = |place: u32| b'0' + (mode / place % 8) as u8;
    put(line, &[digit(512), digit(64), digit(8), digit(1)]);
}

/// Puts a space and a time at the end of a line: whole seconds, and what is beyond them after a point
/// where it is less than a second, else after a plus.
pub(crate) fn put_moment(line: &mut Line, moment: Moment)
    requires { array_vec_len line.old + 64 ≤ 1024 }
    ensures items { line.new.items ≡ line.old.items ++ codes " " ++ moment_text moment }
    ensures len { array_vec_len line.new ≤ array_vec_len line.old + 42 }
{
    put_number(line, b" ", u64::from(moment.seconds));
    if moment.nanos == 0 {
        return;
    }
    if moment.nanos < 1_000_000_000 {
        put(line, b".");
        put_nine_digits(line, moment.nanos);
    } else {
        put_number(line, b"+", u64::from(moment.nanos));
    }
}

// Nanoseconds as the nine digits of a fraction.
fn put_nine_digits(line: &mut Line, nanos: u32)
    requires { array_vec_len line.old + 9 ≤ 1024 }
    ensures items { line.new.items ≡ line.old.items ++ nine_digits nanos }
    ensures len { array_vec_len line.new ≡ array_vec_len line.old + 9 }
{
    let digit = |place: u32| b'0' + (nanos / place % 10) as u8;
    put(
        line,
        &[
            digit(100_000_000),
            digit(10_000_000),
            digit(1_000_000),
            digit(100_000),
            digit(10_000),
            digit(1_000),
            digit(100),
            digit(10),
            digit(1),
        ],
    );
}
