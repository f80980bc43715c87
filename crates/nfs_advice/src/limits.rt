//! Limits that are reached.
ghost use Rattle.std.specs.Prelude.{◌≡◌};

use crate::advice::{Advice, AdviceReason, Remedy};
use crate::earlier::{first_word, word_of};
use crate::grouped::write_between;
use crate::limit_fields::limits_above;
use crate::line_kind::{LineKind, kind_of};
use crate::skipped::bytes_of;
use crate::span::Span;
use nfs_text::lines::Lines;
use nfs_text::number::decimal;
use std::fmt;

/// Which limit is reached.
#[derive(Clone, Copy)]
pub enum LimitReason {
    /// The volumes of a description.
    Volumes,
    /// The patterns of a description.
    Patterns,
    /// The files of the volume: so many.
    Files(u64),
    /// The bytes of the volume: so many, of which so many are left.
    Bytes(u64, u64),
    /// The names of a file: so many.
    Names(u64),
    /// The directories in a directory: so many.
    Directories(u64),
}

impl fmt::Display for LimitReason {
    fn fmt<W: fmt::Write>(&self, f: &mut fmt::Formatter<W>) -> fmt::Result {
        match self {
            LimitReason::Volumes => {
                f.write_str("is one volume too many; a description has at most 64")
            }
            LimitReason::Patterns => f.write_str(
                "is one pattern too many; a description has at most 256, in all volumes together",
            ),
            LimitReason::Files(limit) => write!(
                f,
                "is one file too many; the volume has at most {limit}, with its root"
            ),
            LimitReason::Bytes(limit, left) => write!(
                f,
                "has too many bytes; the volume has {left} of its {limit} bytes left"
            ),
            LimitReason::Names(limit) => {
                write_between(
                    f,
                    "already has ",
                    *limit,
                    " names, the most that a file may have",
                )
            }
            LimitReason::Directories(limit) => {
                write_between(
                    f,
                    "is one directory too many; a directory has at most ",
                    *limit,
                    " subdirectories",
                )
            }
        }
    }
}

/// What the last volume has above a line.
#[derive(Clone, Copy)]
struct Held {
    // The number of its line.
    line: u64,
    // Its limits.
    max_bytes: u64,
    max_files: u64,
    // What it has.
    bytes: u64,
    files: u64,
}

impl Held {
    // What the last volume has above the line of this number.
    fn above(text: &[u8], line: u64) -> Held {
        let mut held = Held {
            line: 0,
            max_bytes: 0,
            max_files: 0,
            bytes: 0,
            files: 0,
        };
        let mut number = 0u64;
        for text in Lines::new(text) {
            number = number.saturating_add(1);
            if number >= line {
                break;
            }
            held = held.with(text, number);
        }
        held
    }

    // The same with one line more.
    fn with(self, line: &[u8], number: u64) -> Held {
        match kind_of(first_word(line)) {
            LineKind::Volume => Held {
                line: number,
                max_bytes: number_of(word_of(line, 2)),
                max_files: number_of(word_of(line, 3)),
                bytes: 0,
                files: 1,
            },
            LineKind::File => self.with_file(bytes_of(word_of(line, 5))),
            LineKind::Dir | LineKind::Link => self.with_file(0),
            _ => self,
        }
    }

    // The same with a file of so many bytes more.
    fn with_file(self, bytes: u64) -> Held {
        Held {
            line: self.line,
            max_bytes: self.max_bytes,
            max_files: self.max_files,
            bytes: self.bytes.saturating_add(bytes),
            files: self.files.saturating_add(1),
        }
    }
}

fn number_of(word: &[u8]) -> u64 {
    decimal(word, u64::MAX).unwrap_or(0)
}

/// The word of a line that goes beyond a limit, and which it is.
pub(crate) fn full<'a>(text: &'a [u8], number: u64, line: Span<'a>) -> Advice<'a>
    ensures { result.span.line.now ≡ line.entry.line.now }
{
    let word = line.word(1).unwrap_or(line);
    match kind_of(line.word(0).unwrap_or(line).bytes()) {
        LineKind::Volume => Advice::new(word, AdviceReason::Limit(LimitReason::Volumes)),
        LineKind::Export => Advice::new(word, AdviceReason::Limit(LimitReason::Patterns)),
        LineKind::Hard => {
            let old = line.word(2).unwrap_or(line);
            let links = limits_above(text, number).links;
            Advice::new(
                old,
                AdviceReason::Limit(LimitReason::Names(u64::from(links))),
            )
        }
        kind => {
            let held = Held::above(text, number);
            // A directory has two links beside those of its subdirectories.
            let directories = u64::from(limits_above(text, number).links) - 2;
            let is_directory = matches!(kind, LineKind::Dir);
            let reason = reason_of(&held, is_directory, directories);
            let advice = Advice::new(word, AdviceReason::Limit(reason));
            match reason {
                LimitReason::Directories(_) => advice,
                _ => advice.with(Remedy::Line(held.line)),
            }
        }
    }
}

// The limit that a new file reaches: one of the volume, or how many directories its own may have.
fn reason_of(held: &Held, is_directory: bool, directories: u64) -> LimitReason {
    if held.files >= held.max_files {
        LimitReason::Files(held.max_files)
    } else if is_directory {
        LimitReason::Directories(directories)
    } else {
        LimitReason::Bytes(held.max_bytes, held.max_bytes.saturating_sub(held.bytes))
    }
}
