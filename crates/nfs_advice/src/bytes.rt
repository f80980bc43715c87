//! Bytes that no line but a comment may have.
ghost use Rattle.std.specs.Prelude.{◌≡◌};

use crate::advice::{Advice, AdviceReason};
use crate::span::Span;

/// Which byte it is.
#[derive(Clone, Copy)]
pub enum ByteReason {
    /// A tab.
    Tab,
    /// A carriage return.
    CarriageReturn,
    /// A byte-order mark at the beginning.
    ByteOrderMark,
    /// Another byte above 0x7e.
    NotAscii,
    /// Another byte below 0x20.
    Control,
}

impl ByteReason {
    /// What is reported.
    pub(crate) fn text(self) -> &'static str {
        match self {
            ByteReason::Tab => "a tab stands here; separate words with spaces",
            ByteReason::CarriageReturn => {
                "a carriage return stands here; end lines with LF alone, not with CR and LF"
            }
            ByteReason::ByteOrderMark => "a byte-order mark stands here; save the text without it",
            ByteReason::NotAscii => {
                "a byte that is not ASCII stands here; only comments may have such bytes"
            }
            ByteReason::Control => {
                "a control character stands here; only comments may have such bytes"
            }
        }
    }
}

/// The first byte of a line below 0x20 or above 0x7e.
pub(crate) fn bad_byte(line: Span<'_>) -> Advice<'_>
    ensures { result.span.line.now ≡ line.entry.line.now }
{
    let bytes = line.bytes();
    for place in 0..bytes.len() {
        let byte = bytes[place];
        if byte < 0x20 || byte > 0x7e {
            let reason = AdviceReason::Byte(reason_at(bytes, place, byte));
            return Advice::new(line.part(place, place), reason);
        }
    }
    Advice::new(line, AdviceReason::Byte(ByteReason::Control))
}

fn reason_at(line: &[u8], place: usize, byte: u8) -> ByteReason {
    match byte {
        b'\t' => ByteReason::Tab,
        b'\r' => ByteReason::CarriageReturn,
        0xef if place == 0 && line.starts_with(&[0xef, 0xbb, 0xbf]) => ByteReason::ByteOrderMark,
        0x7f..=0xff => ByteReason::NotAscii,
        _ => ByteReason::Control,
    }
}
