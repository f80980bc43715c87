//! Networks of addresses.
ghost use Rattle.std.specs.Prelude.{◌≡◌, ◌+◌, ◌≤◌, ◌++◌};
ghost use Rattle.std.specs.Result.{result_ok};
ghost use Rattle.nfs_exports.specs.Patterns as spec;
ghost use Rattle.arrayvec.specs.ArrayVec.{array_vec_len};
ghost use Rattle.nfs_exports.specs.Patterns.{covers, network, pattern_of, pattern_text};

use crate::addr::{Addr, parse_addr, put_addr};
use nfs_text::chunks::cut;
use nfs_text::line::{Line, put, put_number};
use nfs_text::number::decimal;
use thiserror::Error;

/// A network of addresses: those whose first bits are the address's.
#[derive(Clone, Copy, Debug, PartialEq, Eq)]
pub struct Pattern {
    /// An address of the network.
    pub address: Addr,
    /// How many bits decide: 0 is every address, and from 32 on it is this one alone.
    pub bits: u32,
}

/// A text is no pattern.
#[derive(Clone, Copy, Debug, PartialEq, Eq, Error)]
#[error("the text is no pattern of addresses")]
pub struct BadPattern;

/// The number of bits of an address.
const ADDRESS_BITS: u32 = 32;

/// The most digits of a number of bits.
const MAX_BITS_DIGITS: usize = 2;

impl Pattern {
    /// Whether the address is one of the network.
    #[inline(always)]
    pub fn covers(&self, addr: Addr) -> bool
        ensures { result ≡ covers self.now addr }
    {
        let others = ADDRESS_BITS.saturating_sub(self.bits);
        u64::from(addr.0) >> others == u64::from(self.address.0) >> others
    }
}

/// Reads a pattern (exports(5), "Machine Name Formats"): `*` for every address, an address
/// `a.b.c.d`, or a network `a.b.c.d/n`, where `n` has one or two digits, which say a number to 32.
///
/// `BadPattern` where the text is another one.
pub fn parse_pattern(text: &[u8]) -> Result<Pattern, BadPattern>
    ensures { result_ok result ≡ pattern_of text.now }
{
    if text == b"*".as_slice() {
        return Ok(Pattern {
            address: Addr(0),
            bits: 0,
        });
    }
    let (address, bits) = cut(text, b'/');
    match (parse_addr(address), bits_or_all(bits)) {
        (Ok(address), Some(bits)) => Ok(Pattern { address, bits }),
        _ => Err(BadPattern),
    }
}

// The number of bits that a text says, or all where there is none.
fn bits_or_all(text: Option<&[u8]>) -> Option<u32>
    ensures { result ≡ spec.bits_or_all (spec.text_after text.entry) }
{
    match text {
        Some(text) => bits(text),
        None => Some(ADDRESS_BITS),
    }
}

fn bits(text: &[u8]) -> Option<u32>
    ensures { result ≡ spec.bits text.now }
{
    if text.len() > MAX_BITS_DIGITS {
        return None;
    }
    let value = decimal(text, u64::from(ADDRESS_BITS))?;
    Some(value as u32)
}

/// Puts a pattern at the end of a line: `*` where it covers every address, an address `a.b.c.d` where
/// it covers this one alone, and else its network `a.b.c.d/n`, where the bits that don't decide are 0.
pub fn put_pattern(line: &mut Line, pattern: Pattern)
    requires { array_vec_len line.old + 83 ≤ 1024 }
    ensures items { line.new.items ≡ line.old.items ++ pattern_text pattern }
    ensures len { array_vec_len line.new ≤ array_vec_len line.old + 18 }
{
    if pattern.bits == 0 {
        put(line, b"*");
        return;
    }
    if pattern.bits >= ADDRESS_BITS {
        put_addr(line, pattern.address);
        return;
    }
    put_addr(line, network(pattern));
    put_number(line, b"/", u64::from(pattern.bits));
}

// The first address of a network.
fn network(pattern: Pattern) -> Addr
    requires { pattern.bits ≤ 32 }
    ensures { result ≡ network pattern }
{
    let others = 1u64 << (ADDRESS_BITS - pattern.bits);
    let addr = u64::from(pattern.address.0);
    Addr((addr - addr % others) as u32)
}
