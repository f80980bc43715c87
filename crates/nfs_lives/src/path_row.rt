//! What a line of a description names.
ghost use Rattle.std.specs.Prelude.{◌≡◌, option_map};
ghost use Rattle.nfs_load.specs.Lines as load;
ghost use Rattle.nfs_text.specs.Words.{words_left};
ghost use Rattle.nfs_lives.specs.Paths as spec;
ghost use Rattle.nfs_lives.specs.Paths.{row_of, row_by};
ghost use Rattle.nfs_lives.specs.Rows.{row_seen};

use nfs_load::line::{Keyword, keyword_of};
use nfs_text::words::Words;

/// What a line names: the paths as they are written in it.
#[derive(Clone, Copy)]
pub struct PathRow<'a> {
    /// The word that the line begins with.
    pub keyword: Keyword,
    /// The path of a volume, or of a file in the last volume.
    pub path: &'a [u8],
    /// Of a `hard` line, the path of the file that has the name too.
    pub old: Option<&'a [u8]>,
}

/// What a line that is given without its LF names. `None` where it names nothing: it has no words,
/// its first byte is `#`, or its first word is `server`, `limits`, `names`, `export`, `times` or no keyword.
/// Three words of the line are looked at, however long it is.
pub fn read_row(line: &[u8]) -> Option<PathRow<'_>>
    ensures { option_map row_seen result ≡ row_of line.now }
{
    if is_comment(line) {
        return None;
    }
    let mut fields = Words::new(line);
    let word = fields.next()?;
    let keyword = keyword_of(word)?;
    row_in(keyword, fields)
}

// What a line with this keyword and these words after it names.
fn row_in<'a>(keyword: Keyword, fields: Words<'a>) -> Option<PathRow<'a>>
    ensures { option_map row_seen result ≡ row_by keyword (words_left fields.entry) }
{
    let mut left = fields;
    match keyword {
        Keyword::Server | Keyword::Limits | Keyword::Names | Keyword::Export | Keyword::Times =>
            return None,
        Keyword::Volume | Keyword::Dir | Keyword::File | Keyword::Link | Keyword::Hard => {}
    }
    let path = left.next()?;
    if keyword != Keyword::Hard {
        return Some(PathRow {
            keyword,
            path,
            old: None,
        });
    }
    let old = left.next()?;
    Some(PathRow {
        keyword,
        path,
        old: Some(old),
    })
}

// Whether a line is one of the writer's own.
fn is_comment(line: &[u8]) -> bool
    ensures { result ≡ load.is_comment line.now }
{
    match line.first() {
        Some(byte) => *byte == b'#',
        None => false,
    }
}

/// The word of a keyword.
pub(crate) fn word_of(keyword: Keyword) -> &'static [u8]
    ensures { result.now ≡ spec.word_of keyword }
{
    match keyword {
        Keyword::Server => b"server",
        Keyword::Limits => b"limits",
        Keyword::Names => b"names",
        Keyword::Volume => b"volume",
        Keyword::Export => b"export",
        Keyword::Dir => b"dir",
        Keyword::File => b"file",
        Keyword::Link => b"link",
        Keyword::Hard => b"hard",
        Keyword::Times => b"times",
    }
}
