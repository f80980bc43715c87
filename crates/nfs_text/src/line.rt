//! A line that is put together before it is written.
ghost use Rattle.std.specs.Prelude.{◌≡◌, ◌+◌, ◌≤◌, ◌++◌, decimal, length};
ghost use Rattle.arrayvec.specs.ArrayVec.{array_vec_len};

use arrayvec::ArrayVec;
use itoa::Buffer;

/// The most bytes of a line, with its end.
pub const MAX_LINE_BYTES: usize = 1_024;

/// A line, which takes no memory of its own.
pub type Line = ArrayVec<u8, MAX_LINE_BYTES>;

/// Puts bytes at the end of a line.
pub fn put(line: &mut Line, bytes: &[u8])
    requires { array_vec_len line.old + length bytes.now ≤ 1024 }
    ensures items { line.new.items ≡ line.old.items ++ bytes.now }
    ensures len { array_vec_len line.new ≡ array_vec_len line.old + length bytes.now }
{
    line.try_extend_from_slice(bytes).unwrap();
}

/// Puts what stands before a number and the number in decimal digits at the end of a line.
pub fn put_number(line: &mut Line, before: &[u8], number: u64)
    requires { array_vec_len line.old + length before.now + 20 ≤ 1024 }
    ensures items { line.new.items ≡ line.old.items ++ before.now ++ decimal number }
    ensures len { array_vec_len line.new ≤ array_vec_len line.old + length before.now + 20 }
{
    put(line, before);
    put(line, Buffer::new().format(number).as_bytes());
}
