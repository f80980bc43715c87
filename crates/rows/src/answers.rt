//! The words of an answer.

use std::alloc::Global;
use std::fmt::Debug;

/// A value as `Debug` prints it. `None` where there is no memory.
pub fn debug_text<T: Debug + Drop>(alloc: Global, value: T) -> Option<String> {
    format!(in alloc; "{value:?}").ok()
}

/// A text. `None` where there is no memory.
pub fn text(alloc: Global, text: &str) -> Option<String> {
    String::from_str(alloc, text).ok()
}

/// The hexadecimal digits of bytes, `-` for none. `None` where there is no memory.
pub fn digits(alloc: Global, bytes: &[u8]) -> Option<String> {
    if bytes.is_empty() {
        return text(alloc, "-");
    }
    hex::encode(alloc, bytes).ok()
}

/// An answer with one text more. `None` where there is no memory.
pub fn then(mut answer: String, text: &str) -> Option<String> {
    answer.push(' ').ok()?;
    answer.push_str(text).ok()?;
    Some(answer)
}

/// An answer with a word and a value more. `None` where there is no memory.
pub fn with<T: Debug + Drop>(
    alloc: Global,
    answer: String,
    word: &str,
    value: T,
) -> Option<String> {
    let value = debug_text(alloc, value)?;
    then(then(answer, word)?, value.as_str())
}

/// What was read, and the bytes that are left. `None` where there is no memory.
pub fn left(alloc: Global, answer: String, rest: &[u8]) -> Option<String> {
    let rest = digits(alloc, rest)?;
    then(then(answer, "left")?, rest.as_str())
}
