//! Descriptions that the rows write.

use rows::answers::digits;
use rows::words::size;
use std::alloc::Global;
use std::str::SplitWhitespace;

/// `WORD..`: adds a line of these words.
pub(crate) fn push_line(text: &mut Vec<u8>, words: &mut SplitWhitespace<'_>) -> Option<()> {
    for word in words {
        push_word(text, word)?;
    }
    text.push(b'\n').ok()
}

/// `PATH MODE UID GID SIZE`: adds the line of a file of so many bytes, which count from 0 to 250
/// again and again.
pub(crate) fn push_counting(
    alloc: Global,
    text: &mut Vec<u8>,
    words: &mut SplitWhitespace<'_>,
) -> Option<()> {
    push_word(text, "file")?;
    for _ in 0..4u32 {
        push_word(text, words.next()?)?;
    }
    let content = counting(alloc, size(words)?)?;
    push_word(text, digits(alloc, content.as_slice())?.as_str())?;
    text.push(b'\n').ok()
}

fn push_word(text: &mut Vec<u8>, word: &str) -> Option<()> {
    text.extend_from_slice(word.as_bytes()).ok()?;
    text.push(b' ').ok()
}

// So many bytes, which count from 0 to 250 again and again.
fn counting(alloc: Global, len: usize) -> Option<Vec<u8>> {
    let mut bytes = Vec::new(alloc);
    for i in 0..len {
        bytes.push((i % 251) as u8).ok()?;
    }
    Some(bytes)
}

/// How many of the first bytes are the first one again.
pub(crate) fn retransmitted(bytes: &[u8]) -> usize {
    let start = bytes.first().copied().unwrap_or(0);
    for (at, byte) in bytes.iter().enumerate() {
        if *byte != start {
            return at;
        }
    }
    bytes.len()
}

/// How many of the first bytes count on from the first one as a counting file's do.
pub(crate) fn counted(bytes: &[u8]) -> usize {
    let start = bytes.first().copied().unwrap_or(0);
    for (at, byte) in bytes.iter().enumerate() {
        if usize::from(*byte) != (usize::from(start) + at % 251) % 251 {
            return at;
        }
    }
    bytes.len()
}
