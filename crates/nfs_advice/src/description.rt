//! What stands after a faulty line of a description.
ghost use Rattle.std.specs.Prelude.{◌≡◌};
ghost use Rattle.nfs_advice.specs.Numbered.{line_numbered};
ghost use Rattle.nfs_text.specs.Lines.{lines};

use crate::advice::Advice;
use crate::bytes::bad_byte;
use crate::contents::bad_content;
use crate::counts::field_count;
use crate::earlier::{Above, name_taken, no_parent, no_target, volume_twice};
use crate::keys::bad_key;
use crate::keywords::unknown_word;
use crate::limit_fields::bad_limit;
use crate::limits::full;
use crate::name_forms::{bad_names, names_above};
use crate::numbers::bad_number;
use crate::options::bad_options;
use crate::order::out_of_order;
use crate::paths::{bad_path, bad_volume_path};
use crate::patterns::bad_pattern;
use crate::span::Span;
use nfs_load::cause::Cause;
use nfs_load::fields::Fields;
use nfs_load::name_form::NameForm;
use nfs_text::lines::Lines;
use nfs_text::words::Words;

/// What is wrong with the line of a description that is faulty by this cause, and what would be right.
/// The line's number is counted from 1; that of the line after the last stands for the end of the text.
pub fn advise(text: &[u8], number: u64, cause: Cause) -> Advice<'_>
    ensures { result.span.line.now ≡ line_numbered number (lines text.entry.now) }
{
    let line = line_at(text, number);
    let names = names_above(text, number);
    let above = Above::new(text, number, names);
    match cause {
        Cause::BadByte => bad_byte(line),
        Cause::UnknownWord => unknown_word(line),
        Cause::FieldCount => field_count(line),
        Cause::NoServer
        | Cause::ServerTwice
        | Cause::NoVolume
        | Cause::LimitsLate
        | Cause::NamesLate => out_of_order(text, line, cause),
        Cause::BadKey => bad_key(line),
        Cause::BadLimit => bad_limit(text, number, line),
        Cause::BadNames => bad_names(text, number, line),
        Cause::BadVolumePath => bad_volume_path(line),
        Cause::BadNumber => bad_number(text, number, line),
        Cause::BadPattern => bad_pattern(line),
        Cause::BadOptions => bad_options(line),
        Cause::BadPath => bad_path(bad_path_of(line, names), names),
        Cause::BadContent => bad_content(text, number, line),
        Cause::VolumeTwice => volume_twice(above, line),
        Cause::NoParent => no_parent(above, line),
        Cause::NameTaken => name_taken(above, line),
        Cause::NoTarget => no_target(above, line),
        Cause::Full => full(text, number, line),
    }
}

/// The line of this number, from 1; where there is none, no bytes.
pub(crate) fn line_at(text: &[u8], number: u64) -> Span<'_>
    ensures { result.line.now ≡ line_numbered number (lines text.entry.now) }
{
    let mut left = number;
    let mut lines = Lines::new(text);
    while let Some(line) = lines.next() {
        if left == 1 {
            return Span::whole(line);
        }
        left = left.saturating_sub(1);
    }
    Span::whole(&[])
}

// The first field that is no path, of those that have to be one.
fn bad_path_of(line: Span<'_>, names: NameForm) -> Span<'_>
    ensures { result.line.now ≡ line.entry.line.now }
{
    let path = line.word(1).unwrap_or(line);
    if line.word(0).unwrap_or(line).bytes() == b"times".as_slice() {
        return path;
    }
    if Fields::new(Words::new(path.bytes())).path(names).is_err() {
        return path;
    }
    line.word(2).unwrap_or(path)
}
