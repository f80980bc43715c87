//! How names are written in a description.
ghost use Rattle.std.specs.Prelude.{◌≡◌, ◌<◌, false, is_some, length, option_map};
ghost use Rattle.std.specs.Fmt.{digit_glyph};
ghost use Rattle.std.specs.List.{list_all};
ghost use Rattle.nfs_inodes.specs.Limits.{max_name_bytes, max_path_bytes};
ghost use Rattle.nfs_load.specs.Names as spec;
ghost use Rattle.nfs_load.specs.Names.{at_most, held_in, is_name_byte, name_in, unescaped};

use crate::cause::Cause;
use arrayvec::ArrayVec;
use nfs_inodes::limits::{MAX_NAME_BYTES, MAX_PATH_BYTES};

/// How a description writes the names of files, and what symbolic links hold.
#[derive(Clone, Copy, Debug)]
pub enum NameForm {
    /// Each byte stands for itself, and none is `%` in a name.
    Plain,
    /// `%` and two hexadecimal digits stand for a byte, and each other byte for itself.
    Percent,
}

/// A name.
pub type Name = ArrayVec<u8, MAX_NAME_BYTES>;

/// The bytes that a symbolic link holds.
pub type TargetBytes = ArrayVec<u8, MAX_PATH_BYTES>;

impl NameForm {
    /// The form that this word says. `BadNames` where it is not `percent`, or has been said before.
    pub fn read(self, field: &[u8]) -> Result<NameForm, Cause>
        ensures { result ≡ spec.form_in self field.now }
    {
        match self {
            NameForm::Plain if field == b"percent".as_slice() => Ok(NameForm::Percent),
            _ => Err(Cause::BadNames),
        }
    }

    /// The name that a component of a path stands for: 1 to 255 bytes, none 0 or `/`, not `.` or `..`.
    /// `None` where it stands for none, or where a `%` is no part of it.
    pub(crate) fn name(self, text: &[u8]) -> Option<Name>
        ensures { option_map (λ name. name.items) result ≡ name_in self text.now }
    {
        let name = self.component(text)?;
        if is_name(name.as_slice()) {
            Some(name)
        } else {
            None
        }
    }

    /// Whether a component of a path stands for a name.
    pub(crate) fn has_name(self, text: &[u8]) -> bool
        ensures { result ≡ is_some (name_in self text.now) }
    {
        match self {
            NameForm::Plain => !has_percent(text) && is_name(text),
            NameForm::Percent => self.name(text).is_some(),
        }
    }

    /// What a field says that a symbolic link holds; with escapes, `%` alone says nothing. `None` where
    /// a `%` is before anything else than two digits, or where that has more bytes than any tree takes.
    pub(crate) fn target(self, field: &[u8]) -> Option<TargetBytes>
        ensures { option_map (λ target. target.items) result ≡ at_most max_path_bytes (held_in self field.now) }
    {
        match self {
            NameForm::Plain => TargetBytes::try_from(field).ok(),
            NameForm::Percent if field == b"%".as_slice() => Some(TargetBytes::new()),
            NameForm::Percent => unescape(field),
        }
    }

    /// How many bytes a field says that a symbolic link holds. `None` as for `target`.
    pub(crate) fn held_length(self, field: &[u8]) -> Option<usize>
        ensures { result ≡ option_map length (at_most max_path_bytes (held_in self field.now)) }
    {
        match self {
            NameForm::Plain if field.len() > MAX_PATH_BYTES => None,
            NameForm::Plain => Some(field.len()),
            NameForm::Percent => Some(self.target(field)?.len()),
        }
    }

    /// The bytes that a component of a path stands for. `None` where a `%` is no part of it, or where
    /// they are more than those of any name.
    pub fn component(self, text: &[u8]) -> Option<Name>
        ensures { option_map (λ name. name.items) result ≡ at_most max_name_bytes (spec.component_in self text.now) }
    {
        match self {
            NameForm::Plain if has_percent(text) => None,
            NameForm::Plain => Name::try_from(text).ok(),
            NameForm::Percent => unescape(text),
        }
    }
}

/// A byte of a name as it is written with escapes: itself from `!` to `~` but for `%`, else `%` and two
/// hexadecimal digits.
pub fn name_byte(byte: u8) -> ArrayVec<u8, 3>
    ensures { result.items ≡ spec.name_byte byte }
{
    let mut text = ArrayVec::new();
    if byte.is_ascii_graphic() && byte != b'%' {
        text.push(byte);
    } else {
        text.push(b'%');
        text.push(hex_digit(byte / 16));
        text.push(hex_digit(byte % 16));
    }
    text
}

// The digit for a value below 16.
fn hex_digit(value: u8) -> u8
    requires { value < 16 }
    ensures { result ≡ digit_glyph false value }
{
    if value < 10 {
        b'0' + value
    } else {
        b'a' + (value - 10)
    }
}

// The bytes that a text with escapes stands for.
fn unescape<const N: usize>(text: &[u8]) -> Option<ArrayVec<u8, N>>
    ensures { option_map (λ bytes. bytes.items) result ≡ at_most N (unescaped text.now) }
{
    let mut bytes = ArrayVec::new();
    let mut rest = text;
    while !rest.is_empty() {
        let (byte, after) = split_byte(rest)?;
        bytes.try_push(byte).ok()?;
        rest = after;
    }
    Some(bytes)
}

// The first byte that a text stands for, and the text after it.
fn split_byte(text: &[u8]) -> Option<(u8, &[u8])>
    ensures { option_map (λ it. (it.0, it.1.now)) result ≡ spec.first_byte text.entry.now }
{
    match text {
        [b'%', high, low, rest @ ..] => {
            let high = char::from(*high).to_digit(16)?;
            let low = char::from(*low).to_digit(16)?;
            Some((high as u8 * 16 + low as u8, rest))
        }
        [b'%', ..] | [] => None,
        [byte, rest @ ..] => Some((*byte, rest)),
    }
}

fn is_name(name: &[u8]) -> bool
    ensures { result ≡ spec.is_name name.now }
{
    if name.is_empty() || name.len() > MAX_NAME_BYTES {
        return false;
    }
    name != b".".as_slice() && name != b"..".as_slice() && are_name_bytes(name)
}

fn are_name_bytes(name: &[u8]) -> bool
    ensures { result ≡ list_all is_name_byte name.now }
{
    for byte in name {
        if *byte == 0 || *byte == b'/' {
            return false;
        }
    }
    true
}

fn has_percent(text: &[u8]) -> bool
    ensures { result ≡ spec.has_percent text.now }
{
    for byte in text {
        if *byte == b'%' {
            return true;
        }
    }
    false
}
