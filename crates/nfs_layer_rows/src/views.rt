//! Files as they are seen without a search.

use nfs_handles::number::Number;
use nfs_inodes::tree::Tree;
use rows::answers::{debug_text, digits, text};
use rows::words::{name, number, size};
use std::alloc::Global;
use std::str::SplitWhitespace;

/// `view of NUMBER`, `view find NUMBER NAME`, `view handle NUMBER` and `view content NUMBER OFFSET`;
/// `None` where no such file lives.
pub(crate) fn answer(
    alloc: Global,
    tree: &Tree,
    words: &mut SplitWhitespace<'_>,
) -> Option<String> {
    let said = match words.next()? {
        "of" => of(alloc, tree, Number::new(number(words)?)),
        "find" => find(alloc, tree, words),
        "handle" => handle(alloc, tree, Number::new(number(words)?)),
        "content" => content(alloc, tree, words),
        _ => return None,
    };
    match said {
        Some(said) => Some(said),
        None => text(alloc, "None"),
    }
}

// The number, mode and size of a file.
fn of(alloc: Global, tree: &Tree, number: Number) -> Option<String> {
    let file = tree.view(number)?;
    let attributes = file.attributes();
    debug_text(alloc, (file.number(), attributes.mode, attributes.size))
}

// The number of the file under a name in a directory.
fn find(alloc: Global, tree: &Tree, words: &mut SplitWhitespace<'_>) -> Option<String> {
    let dir = tree.view(Number::new(number(words)?))?;
    let name = name(alloc, words)?;
    let found = tree.find_in(&dir, name.as_slice())?.attributes().fileid;
    debug_text(alloc, found)
}

fn handle(alloc: Global, tree: &Tree, number: Number) -> Option<String> {
    let file = tree.view(number)?;
    digits(alloc, &tree.handle(&file))
}

// The bytes of a file from an offset.
fn content(alloc: Global, tree: &Tree, words: &mut SplitWhitespace<'_>) -> Option<String> {
    let file = tree.view(Number::new(number(words)?))?;
    digits(alloc, file.bytes_at(size(words)?))
}
