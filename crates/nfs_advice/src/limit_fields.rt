//! Fields of a line of limits that give none.
ghost use Rattle.std.specs.Prelude.{◌≡◌};
ghost use Rattle.nfs_inodes.specs.Limits.{AreLimits};

use crate::advice::{Advice, AdviceReason, Remedy};
use crate::earlier::first_word;
use crate::nearest::nearest;
use crate::span::Span;
use nfs_inodes::limits::Limits;
use nfs_load::cause::Cause;
use nfs_load::limit_fields::read_limits;
use nfs_text::chunks::cut;
use nfs_text::lines::Lines;
use nfs_text::words::Words;

/// Why a field of a line of limits gives none.
#[derive(Clone, Copy)]
pub enum LimitFieldReason {
    /// It has no `=`.
    NumberMissing,
    /// Its name is like that of a limit.
    Malformed,
    /// It names no limit.
    Unknown,
    /// Its limit has been set.
    Twice,
}

impl LimitFieldReason {
    /// What is reported.
    pub(crate) fn text(self) -> &'static str {
        match self {
            LimitFieldReason::NumberMissing => "lacks its number; write it after =",
            LimitFieldReason::Malformed => "is not a limit",
            LimitFieldReason::Unknown => {
                "is not a limit; the limits are file-size, links, link-path and files"
            }
            LimitFieldReason::Twice => "sets a limit that is set already",
        }
    }
}

// The names of limits.
const NAMES: [&[u8]; 4] = [b"file-size", b"links", b"link-path", b"files"];

/// The limits that the lines above a line set.
pub(crate) fn limits_above(text: &[u8], number: u64) -> Limits
    ensures { AreLimits result }
{
    let mut limits = Limits::standard();
    let mut above = 1u64;
    for line in Lines::new(text) {
        if above >= number {
            return limits;
        }
        if first_word(line) == b"limits".as_slice() {
            limits = limits_with(line, limits);
        }
        above = above.saturating_add(1);
    }
    limits
}

// The same with those that a line sets. A faulty one sets none.
fn limits_with(line: &[u8], old: Limits) -> Limits
    requires { AreLimits old }
    ensures { AreLimits result }
{
    let mut fields = Words::new(line);
    let _ = fields.next();
    match read_limits(fields, old) {
        Ok(new) => new,
        Err(_) => old,
    }
}

/// The first field of a line of limits that is faulty by a cause: none of the fields before it has
/// another one.
pub(crate) fn faulty_field<'a>(text: &[u8], number: u64, line: Span<'a>, cause: Cause) -> Span<'a>
    ensures { result.line.now ≡ line.entry.line.now }
{
    let mut limits = limits_above(text, number);
    for place in 1..line.count_words() {
        let Some(word) = line.word(place) else {
            break;
        };
        match read_limits(Words::new(word.bytes()), limits) {
            Ok(new) => limits = new,
            Err(found) if found == cause => return word,
            Err(_) => {}
        }
    }
    line
}

/// A field that is no limit, or sets one for the second time.
pub(crate) fn bad_limit<'a>(text: &'a [u8], number: u64, line: Span<'a>) -> Advice<'a>
    ensures { result.span.line.now ≡ line.entry.line.now }
{
    let word = faulty_field(text, number, line, Cause::BadLimit);
    let (name, value) = cut(word.bytes(), b'=');
    let is_known = NAMES.contains(&name);
    let reason = match value {
        Some(_) if is_known => LimitFieldReason::Twice,
        None if is_known => LimitFieldReason::NumberMissing,
        _ => LimitFieldReason::Unknown,
    };
    match (reason, nearest(name, &NAMES)) {
        (LimitFieldReason::Unknown, Some(meant)) => Advice::new(
            word,
            AdviceReason::LimitField(LimitFieldReason::Malformed),
        ).with(Remedy::Meant(meant)),
        _ => Advice::new(word, AdviceReason::LimitField(reason)),
    }
}
