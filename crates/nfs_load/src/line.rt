//! The lines of a description: which are looked at, and what each asks for.
ghost use Rattle.std.specs.Prelude.{◌≡◌, ◌<◌, ◌^◌, ◌∷◌, codes, length, true};
ghost use Rattle.nfs_text.specs.Words.{words, words_left};
ghost use Rattle.nfs_load.specs.Lines as spec;
ghost use Rattle.nfs_load.specs.Lines.{are_before_content, asked, keyword_named, shape};

use crate::cause::Cause;
use crate::fields::Fields;
use nfs_text::words::Words;

/// The word that a line begins with.
#[derive(Clone, Copy)]
pub enum Keyword {
    /// The server's key.
    Server,
    /// Limits of the tree.
    Limits,
    /// How names are written.
    Names,
    /// A new volume.
    Volume,
    /// A pattern of addresses to which the last volume is exported.
    Export,
    /// A directory.
    Dir,
    /// A regular file.
    File,
    /// A symbolic link.
    Link,
    /// A hard link of a file.
    Hard,
    /// The times of a file.
    Times,
}

/// A line that asks for something: its keyword, and its fields.
#[derive(Drop)]
pub struct Line<'a> {
    /// What it asks for.
    pub keyword: Keyword,
    /// The words after the keyword.
    pub fields: Words<'a>,
}

/// What a line asks for, as far as the line alone says it: `None` where it has no words or its
/// first byte is `#`. Else the first of these: `BadByte` where a byte is below 0x20 or above 0x7e,
/// `UnknownWord` where its first word is no keyword, `FieldCount` where the keyword takes another
/// number of fields.
pub(crate) fn read_line(line: &[u8]) -> Result<Option<Line<'_>>, Cause>
    ensures { asked result ≡ shape line.now }
{
    if is_comment(line) {
        return Ok(None);
    }
    let mut fields = Words::new(line);
    let Some(word) = fields.next() else {
        return Ok(None);
    };
    if !is_text(line) {
        return Err(Cause::BadByte);
    }
    let Some(keyword) = keyword_of(word) else {
        return Err(Cause::UnknownWord);
    };
    if !takes(keyword, count_words(fields)) {
        return Err(Cause::FieldCount);
    }
    Ok(Some(Line { keyword, fields }))
}

/// Whether a line that begins with these bytes is that of a file, and they are all of it before its content:
/// text, in which `file` stands, and four words more.
pub fn begins_file(begin: &[u8]) -> bool
    ensures { result ≡ spec.begins_file begin.now }
{
    is_text(begin) && has_file_words(begin)
}

/// The fields of the line of a file that begins with these bytes, before its content.
pub(crate) fn file_fields(begin: &[u8]) -> Fields<'_>
    requires { spec.begins_file begin.now ≡ true }
    ensures { words begin.entry.now ≡ codes "file" ∷ result }
{
    let mut words = Words::new(begin);
    words.next();
    Fields::new(words)
}

// Whether the words of a line are those that stand before a file's content.
fn has_file_words(line: &[u8]) -> bool
    ensures { result ≡ are_before_content (words line.now) }
{
    let mut fields = Words::new(line);
    match fields.next() {
        Some(word) => word == b"file".as_slice() && count_words(fields) == 4,
        None => false,
    }
}

// Whether a line is one of the writer's own.
fn is_comment(line: &[u8]) -> bool
    ensures { result ≡ spec.is_comment line.now }
{
    match line.first() {
        Some(byte) => *byte == b'#',
        None => false,
    }
}

// Whether a line has bytes of text alone. All are looked at in any case, which takes less time than a
// test whether to go on after each.
fn is_text(line: &[u8]) -> bool
    ensures { result ≡ spec.is_text line.now }
{
    let mut is_text = true;
    for byte in line {
        is_text = is_text & is_printable(*byte);
    }
    is_text
}

#[inline(always)]
fn is_printable(byte: u8) -> bool
    ensures { result ≡ spec.is_printable byte }
{
    byte >= 0x20 && byte <= 0x7e
}

/// The keyword that a word is.
pub fn keyword_of(word: &[u8]) -> Option<Keyword>
    ensures { result ≡ keyword_named word.now }
{
    if word == b"server".as_slice() {
        Some(Keyword::Server)
    } else if word == b"limits".as_slice() {
        Some(Keyword::Limits)
    } else if word == b"names".as_slice() {
        Some(Keyword::Names)
    } else if word == b"volume".as_slice() {
        Some(Keyword::Volume)
    } else if word == b"export".as_slice() {
        Some(Keyword::Export)
    } else if word == b"dir".as_slice() {
        Some(Keyword::Dir)
    } else if word == b"file".as_slice() {
        Some(Keyword::File)
    } else if word == b"link".as_slice() {
        Some(Keyword::Link)
    } else if word == b"hard".as_slice() {
        Some(Keyword::Hard)
    } else if word == b"times".as_slice() {
        Some(Keyword::Times)
    } else {
        None
    }
}

// Whether a keyword takes so many fields.
fn takes(keyword: Keyword, count: usize) -> bool
    ensures { result ≡ spec.takes keyword count }
{
    match keyword {
        Keyword::Server | Keyword::Names => count == 1,
        Keyword::Limits => count >= 1 && count <= 4,
        Keyword::Volume => count == 6,
        Keyword::Export => count == 1 || count == 2,
        Keyword::Dir | Keyword::Link | Keyword::Times => count == 4,
        Keyword::File => count == 5,
        Keyword::Hard => count == 2,
    }
}

// How many words are to come.
fn count_words(words: Words<'_>) -> usize
    requires { length (words_left words) < 2 ^ 64 }
    ensures { result ≡ length (words_left words.entry) }
{
    let mut left = words;
    let mut count = 0;
    while left.next().is_some() {
        count += 1;
    }
    count
}
