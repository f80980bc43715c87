//! Numbers that are none of their field.
ghost use Rattle.std.specs.Prelude.{◌≤◌, length, ◌≡◌};

use crate::advice::{Advice, AdviceReason};
use crate::field::{Field, fields_after};
use crate::grouped::write_grouped;
use crate::limit_fields::{faulty_field, limits_above};
use crate::span::Span;
use nfs_inodes::limits::{MAX_FILE_BYTES, MAX_FILES, MAX_LINKS, MAX_PATH_BYTES, MAX_VOLUME_BYTES};
use nfs_load::cause::Cause;
use nfs_load::fields::Fields;
use nfs_load::limits::{MAX_ID, MAX_MODE_DIGITS};
use nfs_text::chunks::cut;
use nfs_text::number::decimal;
use nfs_text::words::Words;
use std::fmt;

// The fields of limits by their names, but for the last.
const LIMITS: [(&[u8], Field); 3] = [
    (b"file-size", Field::FileSize),
    (b"links", Field::Links),
    (b"link-path", Field::LinkPath),
];

/// Why a word is no number of its field.
#[derive(Clone, Copy)]
pub struct NumberReason {
    /// The field.
    pub field: Field,
    /// What is wrong.
    pub fault: NumberFault,
}

/// What is wrong with a number.
#[derive(Clone, Copy)]
pub enum NumberFault {
    /// A mode has a digit above 7.
    NotOctal,
    /// A mode has more than four digits.
    LongMode,
    /// A mode is in letters.
    SymbolicMode,
    /// It begins with `0x`, `0o` or the like.
    Prefix,
    /// It has a sign.
    Sign,
    /// It has a unit after its digits.
    Unit,
    /// A user or a group is named.
    Name,
    /// It has another byte that is no digit.
    NoDigit,
    /// A volume has no file.
    NoFile,
    /// It is no time.
    NoTime,
    /// It is below the field's least number.
    Small(u64),
    /// It is above the field's largest number.
    Large(u64),
}

impl NumberFault {
    fn text(self) -> &'static str {
        match self {
            NumberFault::NotOctal => "the digits of a mode are 0 to 7",
            NumberFault::LongMode =>
                "a mode has at most four octal digits, without the kind of file",
            NumberFault::SymbolicMode => "write a mode in octal digits, such as 0755",
            NumberFault::Prefix => "write only the digits",
            NumberFault::Sign => "a number has no sign",
            NumberFault::Unit => "write all digits, without a unit",
            NumberFault::Name => "write the number that id prints, not the name",
            NumberFault::NoDigit => "write only decimal digits",
            NumberFault::NoFile => "a volume has at least one file, its root",
            NumberFault::NoTime => {
                "write the seconds since 1970, at most 4,294,967,295, and after a point up to nine digits"
            }
            NumberFault::Small(_) => "it is too small, below ",
            NumberFault::Large(_) => "it is too large, above ",
        }
    }
}

impl fmt::Display for NumberReason {
    fn fmt<W: fmt::Write>(&self, f: &mut fmt::Formatter<W>) -> fmt::Result {
        f.write_str("can't be ")?;
        f.write_str(self.field.name())?;
        f.write_str("; ")?;
        f.write_str(self.fault.text())?;
        match self.fault {
            NumberFault::Small(bound) | NumberFault::Large(bound) => write_grouped(f, bound),
            _ => Ok(()),
        }
    }
}

/// The first number of a line that is none of its field.
pub(crate) fn bad_number<'a>(text: &[u8], number: u64, line: Span<'a>) -> Advice<'a>
    ensures { result.span.line.now ≡ line.entry.line.now }
{
    let keyword = line.word(0).unwrap_or(line).bytes();
    if keyword == b"limits".as_slice() {
        return bad_limit_number(text, number, line);
    }
    let most_files = limits_above(text, number).files;
    let fields = fields_after(keyword);
    for place in 0..fields.len() {
        let field = fields[place];
        let bounds = bounds_of(field, most_files);
        let word = line.word(place + 1).unwrap_or(line);
        if is_refused(field, word.bytes(), bounds) {
            let fault = fault_of(field, word.bytes(), bounds);
            return Advice::new(word, AdviceReason::Number(NumberReason { field, fault }));
        }
    }
    let reason = NumberReason {
        field: Field::Mode,
        fault: NumberFault::NoDigit,
    };
    Advice::new(line, AdviceReason::Number(reason))
}

// The first field of a line of limits whose number is none.
fn bad_limit_number<'a>(text: &[u8], number: u64, line: Span<'a>) -> Advice<'a>
    ensures { result.span.line.now ≡ line.entry.line.now }
{
    let word = faulty_field(text, number, line, Cause::BadNumber);
    let (name, value) = cut(word.bytes(), b'=');
    let field = limit_of(name);
    let fault = fault_of(field, value.unwrap_or(&[]), bounds_of(field, MAX_FILES));
    Advice::new(word, AdviceReason::Number(NumberReason { field, fault }))
}

// The field of limits of this name.
fn limit_of(name: &[u8]) -> Field {
    for (known, field) in &LIMITS {
        if name == *known {
            return *field;
        }
    }
    Field::MostFiles
}

// The least number of a field and the largest, where a volume may have so many files.
fn bounds_of(field: Field, most_files: u64) -> (u64, u64) {
    match field {
        Field::Bytes => (0, MAX_VOLUME_BYTES),
        Field::Files => (1, most_files),
        Field::FileSize => (0, MAX_FILE_BYTES as u64),
        Field::Links => (2, u64::from(MAX_LINKS)),
        Field::LinkPath => (0, MAX_PATH_BYTES as u64),
        Field::MostFiles => (0, MAX_FILES),
        _ => (0, MAX_ID),
    }
}

// Whether a word is refused as a number of a field with these bounds.
fn is_refused(field: Field, word: &[u8], bounds: (u64, u64)) -> bool {
    let mut fields = Fields::new(Words::new(word));
    match field {
        Field::Mode => fields.mode().is_err(),
        Field::Uid | Field::Gid => fields.id().is_err(),
        Field::Bytes | Field::Files => fields.number(bounds.0, bounds.1).is_err(),
        Field::Atime | Field::Mtime | Field::Ctime => fields.moment().is_err(),
        _ => false,
    }
}

fn fault_of(field: Field, word: &[u8], bounds: (u64, u64)) -> NumberFault {
    if field == Field::Atime || field == Field::Mtime || field == Field::Ctime {
        return NumberFault::NoTime;
    }
    if has_prefix(word) {
        return NumberFault::Prefix;
    }
    if word.starts_with(b"-") && field != Field::Mode || word.starts_with(b"+") {
        return NumberFault::Sign;
    }
    let are_digits = !word.is_empty() && count_digits(word) == word.len();
    match field {
        Field::Mode if !are_digits => NumberFault::SymbolicMode,
        Field::Mode if word.len() > MAX_MODE_DIGITS => NumberFault::LongMode,
        Field::Mode => NumberFault::NotOctal,
        Field::Files if are_digits && is_zero(word) => NumberFault::NoFile,
        _ if are_digits && decimal(word, bounds.1).is_some() => NumberFault::Small(bounds.0),
        _ if are_digits => NumberFault::Large(bounds.1),
        _ => fault_of_letters(field, word),
    }
}

// What is wrong with a number that has a byte that is no digit.
fn fault_of_letters(field: Field, word: &[u8]) -> NumberFault {
    let digits = count_digits(word);
    let is_id = field == Field::Uid || field == Field::Gid;
    if digits == 0 && is_id {
        NumberFault::Name
    } else if digits > 0 && are_letters(&word[digits..]) {
        NumberFault::Unit
    } else {
        NumberFault::NoDigit
    }
}

fn has_prefix(word: &[u8]) -> bool {
    match word.strip_prefix(b"0") {
        Some([letter, ..]) => letter.is_ascii_alphabetic(),
        _ => false,
    }
}

// How many digits a word begins with.
fn count_digits(word: &[u8]) -> usize
    ensures { result ≤ length word.now }
{
    for place in 0..word.len() {
        if !word[place].is_ascii_digit() {
            return place;
        }
    }
    word.len()
}

fn are_letters(bytes: &[u8]) -> bool {
    for byte in bytes {
        if !byte.is_ascii_alphabetic() {
            return false;
        }
    }
    true
}

fn is_zero(digits: &[u8]) -> bool {
    for digit in digits {
        if *digit != b'0' {
            return false;
        }
    }
    true
}
