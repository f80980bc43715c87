//! Paths that are none.
ghost use Rattle.std.specs.Prelude.{◌≡◌};

use crate::advice::{Advice, AdviceReason};
use crate::name_forms::{LONE_PERCENT, has_lone_percent};
use crate::span::Span;
use nfs_load::name_form::NameForm;
use nfs_text::chunks::Chunks;

/// Why a word is no path.
#[derive(Clone, Copy)]
pub enum PathReason {
    /// It begins otherwise than with a slash.
    NoSlash,
    /// It is the root of the volume, which is made by the volume's line.
    Root,
    /// It ends with a slash.
    SlashAtEnd,
    /// Two slashes stand in a row.
    TwoSlashes,
    /// A name is `.` or `..`.
    Dots,
    /// A name has a `%`, and no line above says that one stands for a byte.
    Percent,
    /// A name of a volume's path has a `%`.
    VolumePercent,
    /// A `%` stands for nothing.
    LonePercent,
    /// A name has a byte that none has.
    NoNameByte,
    /// A name has more than 255 bytes.
    LongName,
    /// It has more than 1,024 bytes.
    Long,
    /// A volume's path has more than 255 bytes.
    LongVolume,
}

impl PathReason {
    /// What is reported.
    pub(crate) fn text(self) -> &'static str {
        match self {
            PathReason::NoSlash => "is not a path; begin it with a slash, at the volume's root",
            PathReason::Root => "is the volume's root, which the volume line makes",
            PathReason::SlashAtEnd => "is not a path; leave out the slash at its end",
            PathReason::TwoSlashes => "is not a path; write one slash between two names",
            PathReason::Dots => "is not a path; no name is . or ..",
            PathReason::Percent => {
                "is not a path; a name has a % only after a line \"names percent\""
            }
            PathReason::VolumePercent => "is not a path; no name in a volume's path has a %",
            PathReason::LonePercent => LONE_PERCENT,
            PathReason::NoNameByte => "is not a path; no name has the byte %00 or %2f",
            PathReason::LongName => "is not a path; a name has at most 255 bytes",
            PathReason::Long => "is too long; a path has at most 1,024 bytes",
            PathReason::LongVolume => "is too long; a volume's path has at most 255 bytes",
        }
    }
}

/// A word that is no path in a volume, where names are written in this form.
pub(crate) fn bad_path(word: Span<'_>, names: NameForm) -> Advice<'_>
    ensures { result.span.line.now ≡ word.entry.line.now }
{
    let path = word.bytes();
    let reason = if path == b"/".as_slice() {
        PathReason::Root
    } else {
        reason_of(path, names).unwrap_or(PathReason::Long)
    };
    Advice::new(word, AdviceReason::Path(reason))
}

/// A word that is no path of a volume.
pub(crate) fn bad_volume_path(line: Span<'_>) -> Advice<'_>
    ensures { result.span.line.now ≡ line.entry.line.now }
{
    let word = line.word(1).unwrap_or(line);
    let reason = match reason_of(word.bytes(), NameForm::Plain) {
        Some(PathReason::Percent) => PathReason::VolumePercent,
        Some(reason) => reason,
        None => PathReason::LongVolume,
    };
    Advice::new(word, AdviceReason::Path(reason))
}

// Why bytes are no path. `None` where nothing is wrong but their number.
fn reason_of(path: &[u8], names: NameForm) -> Option<PathReason> {
    let Some(components) = path.strip_prefix(b"/") else {
        return Some(PathReason::NoSlash);
    };
    if components.ends_with(b"/") {
        return Some(PathReason::SlashAtEnd);
    }
    for component in Chunks::new(components, b'/') {
        let reason = reason_of_component(component, names);
        if reason.is_some() {
            return reason;
        }
    }
    None
}

// Why what stands between two slashes is no name.
fn reason_of_component(text: &[u8], names: NameForm) -> Option<PathReason> {
    if text.is_empty() {
        return Some(PathReason::TwoSlashes);
    }
    match names {
        NameForm::Plain if text.contains(&b'%') => return Some(PathReason::Percent),
        NameForm::Percent if has_lone_percent(text) => return Some(PathReason::LonePercent),
        _ => {}
    }
    match names.component(text) {
        Some(name) => reason_of_name(name.as_slice()),
        None => Some(PathReason::LongName),
    }
}

// Why at most 255 bytes are no name.
fn reason_of_name(name: &[u8]) -> Option<PathReason> {
    if name == b".".as_slice() || name == b"..".as_slice() {
        Some(PathReason::Dots)
    } else if name.contains(&0) || name.contains(&b'/') {
        Some(PathReason::NoNameByte)
    } else {
        None
    }
}
