//! Contents that are skipped of the text of a description once their lines are loaded.
ghost use Rattle.std.specs.Prelude.{◌≡◌, ◌+◌, ◌≤◌, ◌++◌, IfSome, length};
ghost use Rattle.arrayvec.specs.ArrayVec.{array_vec_len};
ghost use Rattle.nfs_advice.specs.Skipped.{bytes_said, mark};

use crate::earlier::first_word;
use crate::span::Span;
use nfs_text::line::{Line, put_number};
use nfs_text::number::decimal;

// What stands before the number of bytes of a content that is skipped: no line that is loaded has it.
const MARK: u8 = 0;

/// The content of a file in its line.
#[derive(Clone, Copy)]
pub struct Content {
    /// How many bytes of the line stand before it.
    pub start: usize,
    /// How many bytes it says.
    pub bytes: u64,
}

/// The content that a line gives a file. `None` where it is the line of no file, or has no content.
pub fn content_of(line: &[u8]) -> Option<Content>
    ensures { IfSome result (λ content. content.start ≤ length line.now) }
{
    if first_word(line) != b"file".as_slice() {
        return None;
    }
    let word = Span::whole(line).word(5)?;
    Some(Content {
        start: word.column() - 1,
        bytes: bytes_of(word.bytes()),
    })
}

/// Puts what stands in the place of a content of so many bytes at the end of a line.
pub fn put_mark(line: &mut Line, bytes: u64)
    requires { array_vec_len line.old + 21 ≤ 1024 }
    ensures { line.new.items ≡ line.old.items ++ mark bytes }
{
    put_number(line, &[MARK], bytes);
}

/// How many bytes a file's content says, or what stands in its place.
pub(crate) fn bytes_of(word: &[u8]) -> u64
    ensures { result ≡ bytes_said word.now }
{
    match word.split_first() {
        Some((byte, number)) if *byte == MARK => decimal(number, u64::MAX).unwrap_or(0),
        _ => word.len() as u64 / 2,
    }
}
