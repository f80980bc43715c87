//! Lines with too many fields, or too few.
ghost use Rattle.std.specs.Prelude.{◌≡◌};

use crate::advice::{Advice, AdviceReason};
use crate::field::{Field, fields_after};
use crate::span::Span;
use nfs_exports::pattern::parse_pattern;
use std::fmt;

/// Why a line has too many fields, or too few.
#[derive(Clone, Copy)]
pub enum CountReason {
    /// A comment stands after its words.
    Comment,
    /// A quote stands in a word.
    Quote,
    /// The options are separated by spaces.
    SplitOptions,
    /// There is one more pattern.
    SecondPattern,
    /// Fields are missing, of these.
    Missing(&'static [Field]),
    /// A word is more than these fields.
    TooMany(&'static [Field]),
}

impl fmt::Display for CountReason {
    fn fmt<W: fmt::Write>(&self, f: &mut fmt::Formatter<W>) -> fmt::Result {
        match self {
            CountReason::Comment => {
                f.write_str("does not begin a comment here; write a comment on a line of its own")
            }
            CountReason::Quote => {
                f.write_str("has a quote; write names without quotes and without spaces")
            }
            CountReason::SplitOptions => {
                f.write_str("stands after a space; separate options with commas, without spaces")
            }
            CountReason::SecondPattern => {
                f.write_str("is one more pattern; write a line for each")
            }
            CountReason::Missing(fields) => {
                f.write_str("fields are missing; the line has")?;
                write_names(f, fields)
            }
            CountReason::TooMany(fields) => {
                f.write_str("is one word too many; the line has")?;
                write_names(f, fields)
            }
        }
    }
}

fn write_names<W: fmt::Write>(f: &mut fmt::Formatter<W>, fields: &[Field]) -> fmt::Result {
    for field in fields {
        f.write_str(" ")?;
        f.write_str(field.name())?;
    }
    Ok(())
}

/// What is missing, or too many, in a line whose keyword takes another number of fields.
pub(crate) fn field_count(line: Span<'_>) -> Advice<'_>
    ensures { result.span.line.now ≡ line.entry.line.now }
{
    let keyword = line.word(0).unwrap_or(line).bytes();
    let fields = fields_after(keyword);
    let words = line.count_words();
    for place in 1..words {
        let Some(word) = line.word(place) else {
            break;
        };
        if word.bytes().starts_with(b"#") {
            return Advice::new(word, AdviceReason::Count(CountReason::Comment));
        }
        if word.bytes().starts_with(b"\"") {
            return Advice::new(word, AdviceReason::Count(CountReason::Quote));
        }
        if place > fields.len() {
            let reason = too_many(line, word, fields);
            return Advice::new(word, AdviceReason::Count(reason));
        }
    }
    let end = line.after(line.len());
    Advice::new(end, AdviceReason::Count(CountReason::Missing(fields)))
}

// Why a word is more than the fields.
fn too_many(line: Span<'_>, word: Span<'_>, fields: &'static [Field]) -> CountReason {
    if fields.last() != Some(&Field::Options) {
        return CountReason::TooMany(fields);
    }
    let second = line.word(2).unwrap_or(line).bytes();
    if second.ends_with(b",") || word.bytes().starts_with(b",") {
        CountReason::SplitOptions
    } else if parse_pattern(second).is_ok() {
        CountReason::SecondPattern
    } else {
        CountReason::TooMany(fields)
    }
}
