//! Addresses of hosts.
ghost use Rattle.std.specs.Prelude.{◌≡◌, ◌+◌, ◌≤◌, ◌++◌, option_map};
ghost use Rattle.std.specs.Result.{result_ok};
ghost use Rattle.nfs_exports.specs.Addresses as spec;
ghost use Rattle.arrayvec.specs.ArrayVec.{array_vec_len};
ghost use Rattle.nfs_exports.specs.Addresses.{addr_text, address_of, number_of_parts};

use nfs_text::chunks::Chunks;
use nfs_text::line::{Line, put_number};
use nfs_text::number::decimal;
use thiserror::Error;

/// An IPv4 address, the first of its four bytes the most significant.
#[derive(Clone, Copy, Debug, PartialEq, Eq, Hash)]
pub struct Addr(pub u32);

/// A text is no address.
#[derive(Clone, Copy, Debug, PartialEq, Eq, Error)]
#[error("the text is no address")]
pub struct BadAddr;

/// The most digits of a part of an address.
const MAX_PART_DIGITS: usize = 3;

/// Reads an address in dotted decimal form, `a.b.c.d`: each part has one to three digits, which
/// say a number to 255.
///
/// `BadAddr` where the text is another one.
pub fn parse_addr(text: &[u8]) -> Result<Addr, BadAddr>
    ensures { result_ok result ≡ address_of text.now }
{
    let mut parts = Chunks::new(text, b'.');
    match (
        parts.next(),
        parts.next(),
        parts.next(),
        parts.next(),
        parts.next(),
    ) {
        (Some(a), Some(b), Some(c), Some(d), None) => match number_of_parts(a, b, c, d) {
            Some(number) => Ok(Addr(number)),
            None => Err(BadAddr),
        },
        _ => Err(BadAddr),
    }
}

// The number that four parts of an address make.
fn number_of_parts(a: &[u8], b: &[u8], c: &[u8], d: &[u8]) -> Option<u32>
    ensures { result ≡ number_of_parts a.now b.now c.now d.now }
{
    Some(u32::from_be_bytes([part(a)?, part(b)?, part(c)?, part(d)?]))
}

// One part of an address.
fn part(text: &[u8]) -> Option<u8>
    ensures { result ≡ spec.part text.now }
{
    if text.len() > MAX_PART_DIGITS {
        return None;
    }
    let value = decimal(text, 255)?;
    Some(value as u8)
}

/// Puts an address in dotted decimal form at the end of a line.
pub fn put_addr(line: &mut Line, addr: Addr)
    requires { array_vec_len line.old + 83 ≤ 1024 }
    ensures items { line.new.items ≡ line.old.items ++ addr_text addr }
    ensures len { array_vec_len line.new ≤ array_vec_len line.old + 15 }
{
    put_number(line, b"", u64::from(addr.0 / 16_777_216));
    put_number(line, b".", u64::from(addr.0 / 65_536 % 256));
    put_number(line, b".", u64::from(addr.0 / 256 % 256));
    put_number(line, b".", u64::from(addr.0 % 256));
}
