//! Forms of names: what lines say of them, and names that are written in one.
ghost use Rattle.std.specs.Prelude.{◌≡◌};

use crate::advice::{Advice, AdviceReason, Remedy};
use crate::earlier::{first_line_of, first_word, word_of};
use crate::span::Span;
use nfs_load::name_form::NameForm;
use nfs_text::chunks::Chunks;
use nfs_text::lines::Lines;

/// What is reported of a `%` that stands for no byte.
pub(crate) const LONE_PERCENT: &str = "has a % without two hexadecimal digits after it";

/// Why a word says no form of names.
#[derive(Clone, Copy)]
pub enum NameFormReason {
    /// It is none.
    Unknown,
    /// A line above says one.
    Twice,
}

impl NameFormReason {
    /// What is reported.
    pub(crate) fn text(self) -> &'static str {
        match self {
            NameFormReason::Unknown => "is not a form of names; write percent",
            NameFormReason::Twice => "is said already",
        }
    }
}

/// A word that is no form of names, or says one for the second time.
pub(crate) fn bad_names<'a>(text: &'a [u8], number: u64, line: Span<'a>) -> Advice<'a>
    ensures { result.span.line.now ≡ line.entry.line.now }
{
    let word = line.word(1).unwrap_or(line);
    match (names_above(text, number), form_of(word.bytes())) {
        (NameForm::Percent, NameForm::Percent) => Advice::new(
            word,
            AdviceReason::NameForm(NameFormReason::Twice),
        ).with(Remedy::Line(first_line_of(text, b"names"))),
        _ => Advice::new(word, AdviceReason::NameForm(NameFormReason::Unknown)),
    }
}

/// How the lines above a line write names.
pub(crate) fn names_above(text: &[u8], number: u64) -> NameForm {
    let mut names = NameForm::Plain;
    let mut above = 1u64;
    for line in Lines::new(text) {
        if above >= number {
            return names;
        }
        if first_word(line) == b"names".as_slice() {
            names = form_of(word_of(line, 1));
        }
        above = above.saturating_add(1);
    }
    names
}

// The form that a word says.
fn form_of(word: &[u8]) -> NameForm {
    NameForm::Plain.read(word).unwrap_or(NameForm::Plain)
}

/// Whether a `%` stands before anything else than two hexadecimal digits.
pub(crate) fn has_lone_percent(text: &[u8]) -> bool {
    for place in 0..text.len() {
        if text[place] == b'%' && !has_digits(&text[place + 1..]) {
            return true;
        }
    }
    false
}

// Whether bytes begin with two hexadecimal digits.
fn has_digits(bytes: &[u8]) -> bool {
    match bytes {
        [high, low, ..] => high.is_ascii_hexdigit() && low.is_ascii_hexdigit(),
        _ => false,
    }
}

/// Whether two paths have the same names.
pub(crate) fn is_same_path(one: &[u8], other: &[u8], names: NameForm) -> bool {
    let mut others = Chunks::new(other, b'/');
    for component in Chunks::new(one, b'/') {
        match others.next() {
            Some(other) if is_same_name(component, other, names) => {}
            _ => return false,
        }
    }
    others.next().is_none()
}

fn is_same_name(one: &[u8], other: &[u8], names: NameForm) -> bool {
    match (names.component(one), names.component(other)) {
        (Some(one), Some(other)) => one.as_slice() == other.as_slice(),
        _ => false,
    }
}
