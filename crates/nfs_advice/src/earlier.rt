//! What the lines above a line have made.
ghost use Rattle.std.specs.Prelude.{◌≡◌, IfSome};

use crate::advice::{Advice, AdviceReason, Remedy};
use crate::name_forms::is_same_path;
use crate::span::Span;
use nfs_load::name_form::NameForm;
use nfs_text::lines::Lines;

/// What a line above has made, or hasn't.
#[derive(Clone, Copy)]
pub enum EarlierReason {
    /// The path is a volume's.
    Volume,
    /// A directory on the way is missing.
    NoParent,
    /// What has to be a directory is none.
    ParentNotDirectory,
    /// The name is taken.
    Taken,
    /// So it is, in a line that may have its two paths in the wrong order.
    TakenByHardLink,
    /// The file that gets a hard link or times is missing.
    NoTarget,
    /// It is a directory.
    TargetIsDirectory,
}

impl EarlierReason {
    /// What is reported.
    pub(crate) fn text(self) -> &'static str {
        match self {
            EarlierReason::Volume => "is the path of another volume",
            EarlierReason::NoParent => {
                "does not exist; write a dir line for it above, in the same volume"
            }
            EarlierReason::ParentNotDirectory => "is no directory",
            EarlierReason::Taken => "already exists",
            EarlierReason::TakenByHardLink => {
                "already exists; write the new path first, and then the existing one"
            }
            EarlierReason::NoTarget => "does not exist; write its line above, in the same volume",
            EarlierReason::TargetIsDirectory => "is a directory, which can have no hard links",
        }
    }
}

// What the lines begin with that make a file or a name.
const MAKERS: [&[u8]; 4] = [b"dir", b"file", b"link", b"hard"];

/// The lines of a text above one of them, and how they write names.
#[derive(Clone, Copy)]
pub struct Above<'a> {
    text: &'a [u8],
    number: u64,
    names: NameForm,
}

/// A line that makes something: its number, and its first word.
#[derive(Clone, Copy)]
pub struct Maker<'a> {
    pub number: u64,
    pub keyword: &'a [u8],
}

impl<'a> Above<'a> {
    /// The lines above the one of this number, which write names in this form.
    pub(crate) fn new(text: &'a [u8], number: u64, names: NameForm) -> Above<'a> {
        Above {
            text,
            number,
            names,
        }
    }

    /// The line that makes a path in the last volume. `None` where none does.
    pub(crate) fn maker_of(&self, path: &[u8]) -> Option<Maker<'a>> {
        let mut found = None;
        let mut number = 0u64;
        for line in Lines::new(self.text) {
            number = number.saturating_add(1);
            if number >= self.number {
                break;
            }
            let keyword = first_word(line);
            if keyword == b"volume".as_slice() {
                found = None;
            } else if makes_file(keyword) && is_same_path(second_word(line), path, self.names) {
                found = Some(Maker { number, keyword });
            }
        }
        found
    }

    // The line of the volume of this path.
    fn volume_line(&self, path: &[u8]) -> u64 {
        let mut number = 0u64;
        for line in Lines::new(self.text) {
            number = number.saturating_add(1);
            if first_word(line) == b"volume".as_slice() && second_word(line) == path {
                break;
            }
        }
        number
    }
}

/// The number of the first line that begins with a word; of no line, the number of lines.
pub(crate) fn first_line_of(text: &[u8], keyword: &[u8]) -> u64 {
    let mut number = 0u64;
    for line in Lines::new(text) {
        number = number.saturating_add(1);
        if first_word(line) == keyword {
            break;
        }
    }
    number
}

/// The number of the line of an export, which is reported by the places of its volume and among the exports of
/// that, both from 0; of none, the number of lines.
pub fn export_line(text: &[u8], volume: usize, export: usize) -> u64 {
    let mut volumes = 0usize;
    let mut exports = 0usize;
    let mut number = 0u64;
    for line in Lines::new(text) {
        number = number.saturating_add(1);
        let keyword = first_word(line);
        if keyword == b"volume".as_slice() {
            volumes = volumes.saturating_add(1);
        } else if keyword == b"export".as_slice() && volumes == volume.saturating_add(1) {
            if exports == export {
                break;
            }
            exports = exports.saturating_add(1);
        }
    }
    number
}

/// The first word of a line, of a comment or an empty line no bytes.
pub(crate) fn first_word(line: &[u8]) -> &[u8] {
    if line.starts_with(b"#") {
        return &[];
    }
    word_of(line, 0)
}

fn second_word(line: &[u8]) -> &[u8] {
    word_of(line, 1)
}

/// A word of a line, where there is none no bytes.
pub(crate) fn word_of(line: &[u8], place: usize) -> &[u8] {
    match Span::whole(line).word(place) {
        Some(word) => word.bytes(),
        None => &[],
    }
}

fn makes_file(keyword: &[u8]) -> bool {
    MAKERS.contains(&keyword)
}

/// The path of a new volume, which another one has.
pub(crate) fn volume_twice<'a>(above: Above<'a>, line: Span<'a>) -> Advice<'a>
    ensures { result.span.line.now ≡ line.entry.line.now }
{
    let word = line.word(1).unwrap_or(line);
    Advice::new(word, AdviceReason::Earlier(EarlierReason::Volume)).with(Remedy::Line(
        above.volume_line(word.bytes()),
    ))
}

/// The directory on the way of a line's path that is missing, or is none.
pub(crate) fn no_parent<'a>(above: Above<'a>, line: Span<'a>) -> Advice<'a>
    ensures { result.span.line.now ≡ line.entry.line.now }
{
    let word = line.word(1).unwrap_or(line);
    match missing_parent(above, word) {
        Some(advice) => advice,
        None => Advice::new(word, AdviceReason::Earlier(EarlierReason::NoParent)),
    }
}

// The first directory on the way of a path that is missing, or is none.
fn missing_parent<'a>(above: Above<'a>, word: Span<'a>) -> Option<Advice<'a>>
    ensures { IfSome result (λ advice. advice.span.line.now ≡ word.entry.line.now) }
{
    let path = word.bytes();
    for place in 1..path.len() {
        if path[place] == b'/' {
            let parent = word.part(0, place);
            match above.maker_of(parent.bytes()) {
                Some(maker) if maker.keyword == b"dir".as_slice() => {}
                Some(maker) => {
                    let reason = AdviceReason::Earlier(EarlierReason::ParentNotDirectory);
                    return Some(Advice::new(parent, reason).with(Remedy::Line(maker.number)));
                }
                None => {
                    let reason = AdviceReason::Earlier(EarlierReason::NoParent);
                    return Some(Advice::new(parent, reason));
                }
            }
        }
    }
    None
}

/// The path of a line, which another line has made.
pub(crate) fn name_taken<'a>(above: Above<'a>, line: Span<'a>) -> Advice<'a>
    ensures { result.span.line.now ≡ line.entry.line.now }
{
    let word = line.word(1).unwrap_or(line);
    let reason = reason_of_taken(above, line.bytes());
    let advice = Advice::new(word, AdviceReason::Earlier(reason));
    match above.maker_of(word.bytes()) {
        Some(maker) => advice.with(Remedy::Line(maker.number)),
        None => advice,
    }
}

// Whether the paths of a line may stand in the wrong order: its second one is missing above.
fn reason_of_taken(above: Above<'_>, line: &[u8]) -> EarlierReason {
    let is_hard = word_of(line, 0) == b"hard".as_slice();
    if is_hard && above.maker_of(word_of(line, 2)).is_none() {
        EarlierReason::TakenByHardLink
    } else {
        EarlierReason::Taken
    }
}

/// The path of a `times` line or the second one of another, which names no file, or a directory.
pub(crate) fn no_target<'a>(above: Above<'a>, line: Span<'a>) -> Advice<'a>
    ensures { result.span.line.now ≡ line.entry.line.now }
{
    let is_times = word_of(line.bytes(), 0) == b"times".as_slice();
    let word = line.word(if is_times { 1 } else { 2 }).unwrap_or(line);
    match above.maker_of(word.bytes()) {
        Some(maker) => Advice::new(
            word,
            AdviceReason::Earlier(EarlierReason::TargetIsDirectory),
        )
        .with(Remedy::Line(maker.number)),
        None => match missing_parent(above, word) {
            Some(advice) => advice,
            None => Advice::new(word, AdviceReason::Earlier(EarlierReason::NoTarget)),
        },
    }
}
