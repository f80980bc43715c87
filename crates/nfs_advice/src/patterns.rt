//! Patterns of addresses that are none.
ghost use Rattle.std.specs.Prelude.{◌≡◌};

use crate::advice::{Advice, AdviceReason, Remedy};
use crate::span::Span;
use nfs_exports::addr::{Addr, parse_addr};
use nfs_text::chunks::{Chunks, cut};

/// Why a word is no pattern.
#[derive(Clone, Copy)]
pub enum PatternReason {
    /// The options stand in brackets after it.
    Brackets,
    /// It is a netgroup.
    Netgroup,
    /// It is several patterns.
    Several,
    /// It is of IPv6.
    Ipv6,
    /// It is a host's name.
    HostName,
    /// It is a pattern of names, or of parts of an address.
    Wildcard,
    /// It has more or fewer than four parts.
    Parts,
    /// A part is no number to 255.
    Part,
    /// The mask is dotted.
    DottedMask,
    /// The number of bits is none.
    Bits,
}

impl PatternReason {
    /// What is reported.
    pub(crate) fn text(self) -> &'static str {
        match self {
            PatternReason::Brackets => {
                "has options in parentheses; write export PATTERN OPTIONS, with a space between them"
            }
            PatternReason::Netgroup => {
                "is a netgroup; write addresses and networks, such as 10.1.0.0/16"
            }
            PatternReason::Several => "is more than one pattern; write a line for each",
            PatternReason::Ipv6 => {
                "is IPv6; write an IPv4 address or network, such as 10.1.0.0/16"
            }
            PatternReason::HostName => {
                "is a name, and names are not looked up; write the address of the host"
            }
            PatternReason::Wildcard =>
                "is not a pattern; write a network, such as 10.1.0.0/16, or * alone",
            PatternReason::Parts => "is not an address; write four numbers, separated by dots",
            PatternReason::Part =>
                "is not an address; each part is a number up to 255, of at most three digits",
            PatternReason::DottedMask => "has a mask with dots",
            PatternReason::Bits => "has no number of bits after its slash; write 0 to 32",
        }
    }
}

/// The pattern of a line, which is none.
pub(crate) fn bad_pattern(line: Span<'_>) -> Advice<'_>
    ensures { result.span.line.now ≡ line.entry.line.now }
{
    let word = line.word(1).unwrap_or(line);
    let text = word.bytes();
    if let Some(reason) = look_of(text) {
        return Advice::new(word, AdviceReason::Pattern(reason));
    }
    let (address, bits) = cut(text, b'/');
    if parse_addr(address).is_err() {
        return Advice::new(word, AdviceReason::Pattern(fault_of(address)));
    }
    match parse_addr(bits.unwrap_or(&[])) {
        Ok(mask) => Advice::new(word, AdviceReason::Pattern(PatternReason::DottedMask)).with(
            network_of(address, mask),
        ),
        Err(_) => Advice::new(word, AdviceReason::Pattern(PatternReason::Bits)),
    }
}

// What a word looks like, if it is not like an address or a network.
fn look_of(text: &[u8]) -> Option<PatternReason> {
    if text.contains(&b'(') {
        Some(PatternReason::Brackets)
    } else if text.starts_with(b"@") {
        Some(PatternReason::Netgroup)
    } else if text.contains(&b',') {
        Some(PatternReason::Several)
    } else if text.contains(&b':') {
        Some(PatternReason::Ipv6)
    } else if text.contains(&b'*') || text.contains(&b'?') || text.contains(&b'[') {
        Some(PatternReason::Wildcard)
    } else if has_letter(text) {
        Some(PatternReason::HostName)
    } else {
        None
    }
}

fn has_letter(text: &[u8]) -> bool {
    for byte in text {
        if byte.is_ascii_alphabetic() {
            return true;
        }
    }
    false
}

// Why a text is no address.
fn fault_of(address: &[u8]) -> PatternReason {
    let mut parts = 0usize;
    for part in Chunks::new(address, b'.') {
        if !part.is_empty() {
            parts = parts.saturating_add(1);
        }
    }
    if parts == 4 {
        PatternReason::Part
    } else {
        PatternReason::Parts
    }
}

// The network of an address and a mask, where the mask has its bits in a row.
fn network_of(address: &[u8], mask: Addr) -> Remedy<'_> {
    let bits = mask.0.leading_ones();
    if mask.0.count_ones() == bits {
        Remedy::Network(address, bits)
    } else {
        Remedy::Said
    }
}
