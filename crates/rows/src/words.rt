//! The words of a question.

use std::alloc::Global;
use std::str::SplitWhitespace;

/// A decimal number. `None` where the next word is none.
pub fn number(words: &mut SplitWhitespace<'_>) -> Option<u64> {
    words.next()?.parse::<u64>().ok()
}

/// A decimal number below 2^32. `None` where the next word is none.
pub fn word(words: &mut SplitWhitespace<'_>) -> Option<u32> {
    words.next()?.parse::<u32>().ok()
}

/// A decimal number of bytes. `None` where the next word is none.
pub fn size(words: &mut SplitWhitespace<'_>) -> Option<usize> {
    words.next()?.parse::<usize>().ok()
}

/// An IPv4 address in four parts, the first the most significant. `None` where the next word is
/// none.
pub fn address(words: &mut SplitWhitespace<'_>) -> Option<u32> {
    let mut parts = words.next()?.split('.');
    let a = parts.next()?.parse::<u8>().ok()?;
    let b = parts.next()?.parse::<u8>().ok()?;
    let c = parts.next()?.parse::<u8>().ok()?;
    let d = parts.next()?.parse::<u8>().ok()?;
    Some(u32::from_be_bytes([a, b, c, d]))
}

/// Adds the bytes that a word says: hexadecimal digits, `N*DIGITS` for the same N times, or `-`
/// for none. `None` where it says none, or there is no memory.
pub fn push_bytes(alloc: Global, bytes: &mut Vec<u8>, word: &str) -> Option<()> {
    if word == "-" {
        return Some(());
    }
    let (times, digits) = match word.split_once('*') {
        Some((times, digits)) => (times.parse::<u32>().ok()?, digits),
        None => (1, word),
    };
    let said = hex::decode(alloc, digits.as_bytes()).ok()?;
    for _ in 0..times {
        bytes.extend_from_slice(said.as_slice()).ok()?;
    }
    Some(())
}

/// The bytes that the words up to the end or up to a `/` say. `None` where one says none, or
/// there is no memory.
pub fn bytes(alloc: Global, words: &mut SplitWhitespace<'_>) -> Option<Vec<u8>> {
    let mut bytes = Vec::new(alloc);
    for word in words {
        if word == "/" {
            break;
        }
        push_bytes(alloc, &mut bytes, word)?;
    }
    Some(bytes)
}

/// The bytes of a name: those of the next word's text, or after `0x` those that the word says;
/// `-` for none. `None` where there is no word or no memory.
pub fn name(alloc: Global, words: &mut SplitWhitespace<'_>) -> Option<Vec<u8>> {
    let word = words.next()?;
    let mut bytes = Vec::new(alloc);
    match word.strip_prefix("0x") {
        Some(said) => push_bytes(alloc, &mut bytes, said)?,
        None if word == "-" => {}
        None => bytes.extend_from_slice(word.as_bytes()).ok()?,
    }
    Some(bytes)
}
