//! What files and links can't hold.
ghost use Rattle.std.specs.Prelude.{◌≡◌};

use crate::advice::{Advice, AdviceReason};
use crate::grouped::write_between;
use crate::limit_fields::limits_above;
use crate::name_forms::{LONE_PERCENT, has_lone_percent, names_above};
use crate::span::Span;
use nfs_load::name_form::NameForm;
use std::fmt;

/// Why a word is no content.
#[derive(Clone, Copy)]
pub enum ContentReason {
    /// It begins with `0x`.
    Prefix,
    /// It begins with a quote.
    Quote,
    /// A byte is no hexadecimal digit.
    NoDigit,
    /// Its digits are not pairs.
    Odd,
    /// It says more bytes than a file may have: so many.
    Long(u64),
    /// A link is given more bytes than one may hold: so many.
    LongTarget(u64),
    /// What a link is given has a `%` that stands for nothing.
    LonePercent,
}

impl fmt::Display for ContentReason {
    fn fmt<W: fmt::Write>(&self, f: &mut fmt::Formatter<W>) -> fmt::Result {
        match self {
            ContentReason::Prefix => {
                f.write_str("is not a content; write its digits without 0x")
            }
            ContentReason::Quote => f.write_str(
                "is not a content; write two hexadecimal digits for each byte, or - for an empty file",
            ),
            ContentReason::NoDigit => f.write_str(
                "is not a hexadecimal digit; a content has two for each byte, and an empty one is -",
            ),
            ContentReason::Odd => {
                f.write_str("has an odd number of digits; write two for each byte")
            }
            ContentReason::Long(most) => {
                write_between(f, "is too long; a file has at most ", *most, " bytes")
            }
            ContentReason::LongTarget(most) => {
                write_between(f, "is too long; a link holds at most ", *most, " bytes")
            }
            ContentReason::LonePercent => f.write_str(LONE_PERCENT),
        }
    }
}

/// What a line gives a file or a link to hold, which is none.
pub(crate) fn bad_content<'a>(text: &[u8], number: u64, line: Span<'a>) -> Advice<'a>
    ensures { result.span.line.now ≡ line.entry.line.now }
{
    if line.word(0).unwrap_or(line).bytes() == b"link".as_slice() {
        return bad_target(text, number, line);
    }
    let word = line.word(5).unwrap_or(line);
    let digits = word.bytes();
    if digits.starts_with(b"0x") {
        return Advice::new(word, AdviceReason::Content(ContentReason::Prefix));
    }
    if digits.starts_with(b"\"") {
        return Advice::new(word, AdviceReason::Content(ContentReason::Quote));
    }
    for place in 0..digits.len() {
        if !digits[place].is_ascii_hexdigit() {
            let byte = word.part(place, place + 1);
            return Advice::new(byte, AdviceReason::Content(ContentReason::NoDigit));
        }
    }
    let reason = if digits.len() % 2 == 1 {
        ContentReason::Odd
    } else {
        ContentReason::Long(limits_above(text, number).file_size as u64)
    };
    Advice::new(word, AdviceReason::Content(reason))
}

// What a line gives a link to hold, which is too long or can't be read.
fn bad_target<'a>(text: &[u8], number: u64, line: Span<'a>) -> Advice<'a>
    ensures { result.span.line.now ≡ line.entry.line.now }
{
    let word = line.word(4).unwrap_or(line);
    let reason = match names_above(text, number) {
        NameForm::Percent if has_lone_percent(word.bytes()) => ContentReason::LonePercent,
        _ => ContentReason::LongTarget(limits_above(text, number).link_path as u64),
    };
    Advice::new(word, AdviceReason::Content(reason))
}
