//! What stands after a faulty line of a script.
ghost use Rattle.std.specs.Prelude.{◌≡◌, IfSome};
ghost use Rattle.nfs_advice.specs.Numbered.{line_numbered};
ghost use Rattle.nfs_text.specs.Chunks.{chunks};

use crate::advice::{Advice, AdviceReason, Remedy};
use crate::nearest::nearest;
use crate::span::Span;
use nfs_exports::addr::parse_addr;
use nfs_text::chunks::Chunks;
use nfs_text::number::decimal;

/// What is wrong with a line of a script.
#[derive(Clone, Copy)]
pub enum ScriptReason {
    /// A tab.
    Tab,
    /// A carriage return.
    CarriageReturn,
    /// A `#` after spaces.
    CommentAfterSpaces,
    /// A word that is like a first word.
    Malformed,
    /// Another first word.
    Unknown,
    /// No number of a connection.
    Connection,
    /// No number of seconds.
    Seconds,
    /// No address.
    Address,
    /// No number of a line.
    LineNumber,
    /// A word is missing.
    Missing,
    /// No byte follows.
    NoBytes,
    /// Nothing is asked for.
    NoQuestion,
    /// A word is too many.
    TooMany,
    /// Digits that are not pairs.
    Odd,
    /// A byte that is no hexadecimal digit.
    NoDigit,
    /// No number of a file after `@`.
    FileNumber,
    /// No file has this number.
    NoFile,
    /// Some file that the line names has not this number.
    NoFileAmong,
    /// The line of this number sends no record before.
    NoCall,
}

impl ScriptReason {
    /// What is reported.
    pub(crate) fn text(self) -> &'static str {
        match self {
            ScriptReason::Tab => "a tab stands here; separate words with spaces",
            ScriptReason::CarriageReturn => {
                "a carriage return stands here; end lines with LF alone, not with CR and LF"
            }
            ScriptReason::CommentAfterSpaces => {
                "does not begin a comment here; # must be the first byte of a line"
            }
            ScriptReason::Malformed => "is not a keyword",
            ScriptReason::Unknown => {
                "is not a keyword; the keywords are attach, feed, detach, call, ask, again and show"
            }
            ScriptReason::Connection => {
                "is not a connection; write a number in decimal digits, up to 4294967295"
            }
            ScriptReason::Seconds => {
                "is not a time; write whole seconds in decimal digits, up to 4294967295"
            }
            ScriptReason::Address => {
                "is not an address; write four numbers up to 255, separated by dots"
            }
            ScriptReason::LineNumber => {
                "is not the number of a line; write it in decimal digits, up to 4294967295"
            }
            ScriptReason::Missing =>
                "a word is missing; docs/PROTOCOL.md lists the lines of a script",
            ScriptReason::NoBytes => "the bytes are missing; write them in hexadecimal digits",
            ScriptReason::NoQuestion => {
                "nothing is asked for; write UID:GID, an operation and a path"
            }
            ScriptReason::TooMany =>
                "is one word too many; docs/PROTOCOL.md lists the lines of a script",
            ScriptReason::Odd => "has an odd number of digits; write two for each byte",
            ScriptReason::NoDigit => {
                "is not a hexadecimal digit; write two for each byte, or @ and the number of a file"
            }
            ScriptReason::FileNumber => {
                "names no file; write its number in decimal digits after the @"
            }
            ScriptReason::NoFile => "names a file that does not exist; show lists the files",
            ScriptReason::NoFileAmong => {
                "or a later @ of the line names a file that does not exist; show lists the files"
            }
            ScriptReason::NoCall => "is not the number of an earlier ask, call or again line",
        }
    }
}

const VERBS: [&[u8]; 7] = [
    b"attach", b"feed", b"detach", b"call", b"ask", b"again", b"show",
];

/// What a word of a line has to be.
#[derive(Clone, Copy)]
enum Wanted {
    Connection,
    Seconds,
    Address,
    LineNumber,
}

/// What stands after the words of a line that are looked at.
#[derive(Clone, Copy)]
enum After {
    Nothing,
    Bytes,
    Question,
}

// What stands after the first word of a line, but for `again`.
const LINES: [(&[u8], &[Wanted], After); 6] = [
    (
        b"attach",
        &[Wanted::Connection, Wanted::Address],
        After::Nothing,
    ),
    (b"detach", &[Wanted::Connection], After::Nothing),
    (
        b"feed",
        &[Wanted::Connection, Wanted::Seconds],
        After::Bytes,
    ),
    (b"call", &[Wanted::Address, Wanted::Seconds], After::Bytes),
    (b"ask", &[Wanted::Address, Wanted::Seconds], After::Question),
    (b"show", &[], After::Nothing),
];

/// What is wrong with a line that is none of a script. The line's number is counted from 1.
pub fn advise_line(script: &[u8], number: u64) -> Advice<'_>
    ensures { result.span.line.now ≡ line_numbered number (chunks 10 script.entry.now) }
{
    let line = line_at(script, number);
    if let Some(advice) = bad_byte(line) {
        return advice;
    }
    let word = line.word(0).unwrap_or(line);
    if word.bytes() == b"again".as_slice() {
        return again(line);
    }
    for (verb, wanted, after) in &LINES {
        if word.bytes() == *verb {
            return fields(line, wanted, *after);
        }
    }
    unknown_verb(word, word.bytes())
}

// The line of this number, from 1.
fn line_at(script: &[u8], number: u64) -> Span<'_>
    ensures { result.line.now ≡ line_numbered number (chunks 10 script.entry.now) }
{
    let mut left = number;
    let mut lines = Chunks::new(script, b'\n');
    while let Some(line) = lines.next() {
        if left == 1 {
            return Span::whole(line);
        }
        left = left.saturating_sub(1);
    }
    Span::whole(&[])
}

// A tab or a carriage return.
fn bad_byte(line: Span<'_>) -> Option<Advice<'_>>
    ensures { IfSome result (λ advice. advice.span.line.now ≡ line.entry.line.now) }
{
    let bytes = line.bytes();
    for place in 0..bytes.len() {
        let reason = match bytes[place] {
            b'\t' => ScriptReason::Tab,
            b'\r' => ScriptReason::CarriageReturn,
            _ => continue,
        };
        return Some(Advice::new(line.part(place, place), AdviceReason::Script(reason)));
    }
    None
}

fn unknown_verb<'a>(word: Span<'a>, verb: &[u8]) -> Advice<'a>
    ensures { result.span.line.now ≡ word.entry.line.now }
{
    if verb.starts_with(b"#") {
        return Advice::new(word, AdviceReason::Script(ScriptReason::CommentAfterSpaces));
    }
    match nearest(verb, &VERBS) {
        Some(known) => Advice::new(word, AdviceReason::Script(ScriptReason::Malformed)).with(
            Remedy::Meant(known),
        ),
        None => Advice::new(word, AdviceReason::Script(ScriptReason::Unknown)),
    }
}

// What is wrong with an `again` line, whose moment and address may be missing.
fn again(line: Span<'_>) -> Advice<'_>
    ensures { result.span.line.now ≡ line.entry.line.now }
{
    let wanted: &[Wanted] = match line.count_words() {
        0..=2 => &[Wanted::LineNumber],
        3 => &[Wanted::LineNumber, Wanted::Seconds],
        _ => &[Wanted::LineNumber, Wanted::Seconds, Wanted::Address],
    };
    fields(line, wanted, After::Nothing)
}

// The first word of a line that isn't what is wanted there, or is missing, or is one too many.
fn fields<'a>(line: Span<'a>, wanted: &[Wanted], after: After) -> Advice<'a>
    ensures { result.span.line.now ≡ line.entry.line.now }
{
    let end = line.after(line.len());
    for place in 0..wanted.len() {
        let Some(word) = line.word(place + 1) else {
            return Advice::new(end, AdviceReason::Script(ScriptReason::Missing));
        };
        if let Some(reason) = refusal(wanted[place], word.bytes()) {
            return Advice::new(word, AdviceReason::Script(reason));
        }
    }
    match (after, line.word(wanted.len() + 1)) {
        (After::Nothing, Some(word)) => Advice::new(
            word,
            AdviceReason::Script(ScriptReason::TooMany),
        ),
        (After::Question, _) => Advice::new(end, AdviceReason::Script(ScriptReason::NoQuestion)),
        _ => Advice::new(end, AdviceReason::Script(ScriptReason::NoBytes)),
    }
}

// Why a word isn't what is wanted.
fn refusal(wanted: Wanted, word: &[u8]) -> Option<ScriptReason> {
    let (is_right, reason) = match wanted {
        Wanted::Connection => (is_number(word), ScriptReason::Connection),
        Wanted::Seconds => (is_number(word), ScriptReason::Seconds),
        Wanted::Address => (parse_addr(word).is_ok(), ScriptReason::Address),
        Wanted::LineNumber => (is_number(word), ScriptReason::LineNumber),
    };
    if is_right { None } else { Some(reason) }
}

fn is_number(word: &[u8]) -> bool {
    decimal(word, u64::from(u32::MAX)).is_some()
}

/// The number in an `again` line, of a line that sends no record before it. The line's own number is counted
/// from 1.
pub fn advise_again(script: &[u8], number: u64) -> Advice<'_>
    ensures { result.span.line.now ≡ line_numbered number (chunks 10 script.entry.now) }
{
    let line = line_at(script, number);
    let word = line.word(1).unwrap_or(line);
    Advice::new(word, AdviceReason::Script(ScriptReason::NoCall))
}

/// What is wrong with the first word of a line that says no bytes. The line's number is counted from 1.
pub fn advise_bytes(script: &[u8], number: u64) -> Advice<'_>
    ensures { result.span.line.now ≡ line_numbered number (chunks 10 script.entry.now) }
{
    let line = line_at(script, number);
    if let Some(advice) = bad_byte(line) {
        return advice;
    }
    let words = words_of_bytes(line);
    let mut start = 0usize;
    for text in Chunks::new(words.bytes(), b' ') {
        let end = start.saturating_add(text.len());
        if let Some(advice) = bad_bytes(words.part(start, end)) {
            return advice;
        }
        start = end.saturating_add(1);
    }
    Advice::new(line, AdviceReason::Script(ScriptReason::NoBytes))
}

// The part of a line that has to say bytes: what begins with its fourth word.
fn words_of_bytes(line: Span<'_>) -> Span<'_>
    ensures { result.line.now ≡ line.entry.line.now }
{
    let Some(first) = line.word(3) else {
        return line.after(line.len());
    };
    line.after(first.column().saturating_sub(line.column()))
}

// What is wrong with a word that has to say bytes.
fn bad_bytes(word: Span<'_>) -> Option<Advice<'_>>
    ensures { IfSome result (λ advice. advice.span.line.now ≡ word.entry.line.now) }
{
    let bytes = word.bytes();
    if let Some(digits) = bytes.strip_prefix(b"@") {
        if decimal(digits, u64::MAX).is_none() {
            return Some(Advice::new(word, AdviceReason::Script(ScriptReason::FileNumber)));
        }
        return None;
    }
    for place in 0..bytes.len() {
        if !bytes[place].is_ascii_hexdigit() {
            let byte = word.part(place, place + 1);
            return Some(Advice::new(byte, AdviceReason::Script(ScriptReason::NoDigit)));
        }
    }
    if bytes.len() % 2 == 1 {
        return Some(Advice::new(word, AdviceReason::Script(ScriptReason::Odd)));
    }
    None
}

/// The word of a line that names a file that is not there; where it names several, the first. The
/// line's number is counted from 1.
pub fn advise_file(script: &[u8], number: u64) -> Advice<'_>
    ensures { result.span.line.now ≡ line_numbered number (chunks 10 script.entry.now) }
{
    let line = line_at(script, number);
    let words = words_of_bytes(line);
    let Some(first) = first_file(words) else {
        return Advice::new(line, AdviceReason::Script(ScriptReason::NoFile));
    };
    let after = first
        .column()
        .saturating_sub(words.column())
        .saturating_add(first.len());
    let reason = match first_file(words.after(after)) {
        Some(_) => ScriptReason::NoFileAmong,
        None => ScriptReason::NoFile,
    };
    Advice::new(first, AdviceReason::Script(reason))
}

// The first word that names a file.
fn first_file(words: Span<'_>) -> Option<Span<'_>>
    ensures { IfSome result (λ word. word.line.now ≡ words.entry.line.now) }
{
    let mut start = 0usize;
    for text in Chunks::new(words.bytes(), b' ') {
        let end = start.saturating_add(text.len());
        if text.starts_with(b"@") {
            return Some(words.part(start, end));
        }
        start = end.saturating_add(1);
    }
    None
}
