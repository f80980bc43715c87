//! Options that are none, or contradict one another.
ghost use Rattle.std.specs.Prelude.{◌≡◌};

use crate::advice::{Advice, AdviceReason, Remedy};
use crate::nearest::nearest;
use crate::span::Span;
use nfs_exports::options::{OptionsFault, parse_options};
use nfs_text::chunks::{Chunks, cut};

/// What is wrong with an option.
#[derive(Clone, Copy)]
pub enum OptionReason {
    /// There is no word between two commas.
    Empty,
    /// It has a bracket.
    Bracket,
    /// It lacks its number.
    ValueMissing,
    /// It takes no value.
    NoValue,
    /// It is like an option.
    Malformed,
    /// It is another word.
    Unknown,
    /// Its value is no number.
    BadNumber,
    /// It says otherwise than an earlier one.
    Contradiction,
    /// `secure`.
    Secure,
    /// `subtree_check`.
    SubtreeCheck,
    /// `no_wdelay`.
    NoWriteDelay,
    /// `nohide` and `crossmnt`.
    NoHide,
    /// `mountpoint` and `mp`.
    MountPoint,
    /// `fsid`.
    FileSystemId,
    /// Another `sec` than `sec=sys`.
    Security,
}

impl OptionReason {
    /// What is reported.
    pub(crate) fn text(self) -> &'static str {
        match self {
            OptionReason::Empty => "an option is missing beside this comma",
            OptionReason::Bracket => "has a parenthesis; write options without it",
            OptionReason::ValueMissing => "lacks its number; write it after =",
            OptionReason::NoValue => "takes no value; leave out the = and what follows it",
            OptionReason::Malformed => "is not an option",
            OptionReason::Unknown => "is not an option; docs/DESCRIPTION.md lists the options",
            OptionReason::BadNumber => {
                "has no number after its =; write decimal digits, up to 4294967295"
            }
            OptionReason::Contradiction => "contradicts",
            OptionReason::Secure => {
                "is not supported, since client ports are not checked; leave it out"
            }
            OptionReason::SubtreeCheck => {
                "is not supported, since a volume is exported whole; leave it out"
            }
            OptionReason::NoWriteDelay => {
                "is not supported, since nothing is written to a disk; leave it out"
            }
            OptionReason::NoHide => {
                "is not supported, since no volume lies below another; leave it out"
            }
            OptionReason::MountPoint => {
                "is not supported, since a volume is not a mounted disk; leave it out"
            }
            OptionReason::FileSystemId => {
                "is not supported, since handles have the server's key; leave it out"
            }
            OptionReason::Security => {
                "is not supported; write sec=sys, or leave it out, which means the same"
            }
        }
    }
}

// The options without a value, and then those with one.
const FLAGS: [&[u8]; 12] = [
    b"ro",
    b"rw",
    b"root_squash",
    b"no_root_squash",
    b"all_squash",
    b"no_all_squash",
    b"sync",
    b"async",
    b"wdelay",
    b"insecure",
    b"no_subtree_check",
    b"hide",
];

const VALUED: [&[u8]; 3] = [b"anonuid", b"anongid", b"sec"];

// The options that are not supported, beside values of `sec`.
const UNSUPPORTED: [(&[u8], OptionReason); 8] = [
    (b"secure", OptionReason::Secure),
    (b"subtree_check", OptionReason::SubtreeCheck),
    (b"no_wdelay", OptionReason::NoWriteDelay),
    (b"nohide", OptionReason::NoHide),
    (b"crossmnt", OptionReason::NoHide),
    (b"mountpoint", OptionReason::MountPoint),
    (b"mp", OptionReason::MountPoint),
    (b"fsid", OptionReason::FileSystemId),
];

/// The first option of a line that is none, or contradicts an earlier one.
pub(crate) fn bad_options(line: Span<'_>) -> Advice<'_>
    ensures { result.span.line.now ≡ line.entry.line.now }
{
    let field = line.word(2).unwrap_or(line);
    let mut start = 0usize;
    for text in Chunks::new(field.bytes(), b',') {
        let end = start.saturating_add(text.len());
        let word = field.part(start, end);
        if let Err(fault) = parse_options(text) {
            return bad_option(word, fault);
        }
        if parse_options(field.part(0, end).bytes()).is_err() {
            return contradiction(field.part(0, start), word);
        }
        start = end.saturating_add(1);
    }
    Advice::new(field, AdviceReason::Option(OptionReason::Unknown))
}

// An option that is none by itself.
fn bad_option(word: Span<'_>, fault: OptionsFault) -> Advice<'_>
    ensures { result.span.line.now ≡ word.entry.line.now }
{
    let (name, value) = cut(word.bytes(), b'=');
    let reason = match fault {
        OptionsFault::UnsupportedOption => unsupported(name),
        OptionsFault::BadNumber => OptionReason::BadNumber,
        OptionsFault::UnknownOption | OptionsFault::Contradiction => {
            unknown(word.bytes(), name, value.is_some())
        }
    };
    let advice = Advice::new(word, AdviceReason::Option(reason));
    match (reason, likely(name)) {
        (OptionReason::Unknown, Some(option)) => {
            Advice::new(word, AdviceReason::Option(OptionReason::Malformed)).with(Remedy::Meant(
                option,
            ))
        }
        _ => advice,
    }
}

// The option that a word is like.
fn likely(name: &[u8]) -> Option<&'static [u8]> {
    match nearest(name, &FLAGS) {
        Some(option) => Some(option),
        None => nearest(name, &VALUED),
    }
}

// Why an option is not known.
fn unknown(word: &[u8], name: &[u8], has_value: bool) -> OptionReason {
    if word.is_empty() {
        OptionReason::Empty
    } else if word.contains(&b'(') || word.contains(&b')') {
        OptionReason::Bracket
    } else if has_value && FLAGS.contains(&name) {
        OptionReason::NoValue
    } else if VALUED.contains(&name) {
        OptionReason::ValueMissing
    } else {
        OptionReason::Unknown
    }
}

// Why an option is not supported.
fn unsupported(name: &[u8]) -> OptionReason {
    for (option, reason) in &UNSUPPORTED {
        if name == *option {
            return *reason;
        }
    }
    OptionReason::Security
}

// An option that says otherwise than one of those before it.
fn contradiction<'a>(before: Span<'a>, word: Span<'a>) -> Advice<'a>
    ensures { result.span.line.now ≡ word.entry.line.now }
{
    let advice = Advice::new(word, AdviceReason::Option(OptionReason::Contradiction));
    let mut start = 0usize;
    for text in Chunks::new(before.bytes(), b',') {
        let end = start.saturating_add(text.len());
        if subject_of(text) == subject_of(word.bytes()) && text != word.bytes() {
            return advice.with(Remedy::Part(before.part(start, end)));
        }
        start = end.saturating_add(1);
    }
    advice
}

// What an option is about: those that may contradict one another have the same.
fn subject_of(option: &[u8]) -> &[u8] {
    let (name, _) = cut(option, b'=');
    if name == b"rw".as_slice() {
        return b"ro";
    }
    name.strip_prefix(b"no_").unwrap_or(name)
}
