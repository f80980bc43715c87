//! Keys that are none.
ghost use Rattle.std.specs.Prelude.{◌≡◌};

use crate::advice::{Advice, AdviceReason};
use crate::span::Span;

/// Why a word is no key.
#[derive(Clone, Copy)]
pub enum KeyReason {
    /// It begins with `0x`.
    Prefix,
    /// It has a byte that is no digit.
    NoDigit,
    /// It has fewer than 16 digits.
    Short,
    /// It has more than 16 digits.
    Long,
}

impl KeyReason {
    /// What is reported.
    pub(crate) fn text(self) -> &'static str {
        match self {
            KeyReason::Prefix => "is not a key; write 16 hexadecimal digits, without 0x",
            KeyReason::NoDigit => {
                "is not a key, since a byte is not a hexadecimal digit; write 16 hexadecimal digits"
            }
            KeyReason::Short => "is too short for a key; write 16 hexadecimal digits",
            KeyReason::Long => "is too long for a key; write 16 hexadecimal digits",
        }
    }
}

/// The key of a line, which is none.
pub(crate) fn bad_key(line: Span<'_>) -> Advice<'_>
    ensures { result.span.line.now ≡ line.entry.line.now }
{
    let word = line.word(1).unwrap_or(line);
    Advice::new(word, AdviceReason::Key(reason_of(word.bytes())))
}

fn reason_of(key: &[u8]) -> KeyReason {
    if key.starts_with(b"0x") || key.starts_with(b"0X") {
        KeyReason::Prefix
    } else if !are_digits(key) {
        KeyReason::NoDigit
    } else if key.len() < 16 {
        KeyReason::Short
    } else {
        KeyReason::Long
    }
}

/// Whether all bytes are hexadecimal digits.
pub(crate) fn are_digits(bytes: &[u8]) -> bool {
    for byte in bytes {
        if !byte.is_ascii_hexdigit() {
            return false;
        }
    }
    true
}
