//! The records of questions.

use nfs_attrs::moment::Moment;
use nfs_exports::addr::Addr;
use nfs_inodes::tree::Tree;
use nfs_server::event::Event;
use rows::words::{address, push_bytes, word};
use std::alloc::Global;
use std::str::SplitWhitespace;

/// A record from an address at a moment.
#[derive(Drop)]
pub(crate) struct Record {
    addr: Addr,
    moment: Moment,
    bytes: Vec<u8>,
}

impl Record {
    /// The record that comes.
    pub(crate) fn event(&self) -> Event<'_> {
        Event {
            addr: self.addr,
            moment: self.moment,
            bytes: self.bytes.as_slice(),
        }
    }
}

/// `ADDRESS SECONDS BYTES`.
pub(crate) fn record_of(
    alloc: Global,
    tree: &Tree,
    words: &mut SplitWhitespace<'_>,
) -> Option<Record> {
    let addr = Addr(address(words)?);
    let moment = moment(words)?;
    let bytes = bytes(alloc, tree, words)?;
    Some(Record {
        addr,
        moment,
        bytes,
    })
}

/// A moment in whole seconds.
pub(crate) fn moment(words: &mut SplitWhitespace<'_>) -> Option<Moment> {
    Some(Moment {
        seconds: word(words)?,
        nanos: 0,
    })
}

/// The bytes that the words up to a `/` or the end say, `@N` the handle of file N.
pub(crate) fn bytes(
    alloc: Global,
    tree: &Tree,
    words: &mut SplitWhitespace<'_>,
) -> Option<Vec<u8>> {
    let mut bytes = Vec::new(alloc);
    for word in words {
        if word == "/" {
            break;
        }
        match word.strip_prefix('@') {
            Some(number) => push_handle(tree, &mut bytes, number)?,
            None => push_bytes(alloc, &mut bytes, word)?,
        }
    }
    Some(bytes)
}

// Adds the handle of the file of this number.
fn push_handle(tree: &Tree, bytes: &mut Vec<u8>, number: &str) -> Option<()> {
    let handle = tree.handle_of(number.parse::<u64>().ok()?)?;
    bytes.extend_from_slice(&handle).ok()
}
