//! First words of lines that are no keywords.
ghost use Rattle.std.specs.Prelude.{◌≡◌};

use crate::advice::{Advice, AdviceReason, Remedy};
use crate::nearest::nearest;
use crate::span::Span;

/// What stands in place of a keyword.
#[derive(Clone, Copy)]
pub enum KeywordReason {
    /// A `#` after spaces.
    CommentAfterSpaces,
    /// What begins comments elsewhere.
    OtherComment,
    /// A path, as in a line of exports(5).
    ExportsLine,
    /// A word that is like a keyword.
    Malformed,
    /// Another word.
    Unknown,
}

impl KeywordReason {
    /// What is reported.
    pub(crate) fn text(self) -> &'static str {
        match self {
            KeywordReason::CommentAfterSpaces => {
                "does not begin a comment here; # must be the first byte of a line"
            }
            KeywordReason::OtherComment => {
                "does not begin a comment; write # as the first byte of the line"
            }
            KeywordReason::ExportsLine => {
                "is not a keyword; in place of a line of exports(5) write volume PATH BYTES FILES MODE UID GID, and below it export PATTERN OPTIONS"
            }
            KeywordReason::Malformed => "is not a keyword",
            KeywordReason::Unknown => {
                "is not a keyword; the keywords are server, limits, names, volume, export, dir, file, link, hard and times"
            }
        }
    }
}

// The keywords.
const KEYWORDS: [&[u8]; 10] = [
    b"server", b"limits", b"names", b"volume", b"export", b"dir", b"file", b"link", b"hard",
    b"times",
];

/// The first word of a line, which is no keyword.
pub(crate) fn unknown_word(line: Span<'_>) -> Advice<'_>
    ensures { result.span.line.now ≡ line.entry.line.now }
{
    let word = line.word(0).unwrap_or(line);
    let bytes = word.bytes();
    if bytes.starts_with(b"#") {
        return Advice::new(
            word,
            AdviceReason::Keyword(KeywordReason::CommentAfterSpaces),
        );
    }
    if bytes.starts_with(b"//") || bytes.starts_with(b";") {
        return Advice::new(word, AdviceReason::Keyword(KeywordReason::OtherComment));
    }
    if bytes.starts_with(b"/") {
        return Advice::new(word, AdviceReason::Keyword(KeywordReason::ExportsLine));
    }
    match nearest(bytes, &KEYWORDS) {
        Some(keyword) => Advice::new(word, AdviceReason::Keyword(KeywordReason::Malformed)).with(
            Remedy::Meant(keyword),
        ),
        None => Advice::new(word, AdviceReason::Keyword(KeywordReason::Unknown)),
    }
}
