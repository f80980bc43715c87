//! The records of a stream.

use nfs_rpc::framer::{Fed, Framer};
use nfs_rpc::record::frame_record;
use rows::answers::{debug_text, digits, text, then};
use rows::words::{bytes, size, word};
use std::alloc::Global;
use std::str::SplitWhitespace;

/// A framer that is fed.
#[derive(Drop)]
pub(crate) struct Framing {
    alloc: Global,
    framer: Framer,
}

impl Framing {
    /// A framer that takes no record but empty ones.
    pub(crate) fn new(alloc: Global) -> Framing {
        Framing {
            alloc,
            framer: Framer::new(alloc, 0),
        }
    }

    /// `frame limit BYTES`, `frame feed BYTES`, `frame whole`, `frame next`, `frame cuts BYTES` and
    /// `frame frame LENGTH`.
    pub(crate) fn answer(&mut self, words: &mut SplitWhitespace<'_>) -> Option<String> {
        match words.next()? {
            "limit" => self.limit(words),
            "feed" => self.feed(words),
            "whole" => self.whole(),
            "next" => self.next(),
            "cuts" => cuts(self.alloc, words),
            "seal" => frame(self.alloc, words),
            _ => None,
        }
    }

    // A new framer, of records of at most so many bytes.
    fn limit(&mut self, words: &mut SplitWhitespace<'_>) -> Option<String> {
        let limit = size(words)?;
        self.framer = Framer::new(self.alloc, limit);
        text(self.alloc, "done")
    }

    // How many bytes are taken, and whether a record is whole then; or the fault.
    fn feed(&mut self, words: &mut SplitWhitespace<'_>) -> Option<String> {
        let chunk = bytes(self.alloc, words)?;
        match self.framer.feed(chunk.as_slice()) {
            Ok(fed) => debug_text(self.alloc, (fed.used, fed.ready)),
            Err(fault) => debug_text(self.alloc, fault),
        }
    }

    // The whole record.
    fn whole(&mut self) -> Option<String> {
        match self.framer.feed(b"") {
            Ok(Fed { ready: true, .. }) => digits(self.alloc, self.framer.whole()),
            _ => None,
        }
    }

    // Goes on to the next record.
    fn next(&mut self) -> Option<String> {
        match self.framer.feed(b"") {
            Ok(Fed { ready: true, .. }) => self.framer.next(),
            _ => return None,
        }
        text(self.alloc, "done")
    }
}

// The records that a stream in two chunks brings, wherever it is cut.
fn cuts(alloc: Global, words: &mut SplitWhitespace<'_>) -> Option<String> {
    let stream = bytes(alloc, words)?;
    let mut all = None;
    for cut in 0..stream.len() {
        let (first, second) = stream.as_slice().split_at(cut);
        let mut framer = Framer::new(alloc, 131_072);
        let mut found = text(alloc, "records")?;
        found = with_records(alloc, &mut framer, first, found)?;
        found = with_records(alloc, &mut framer, second, found)?;
        if all.as_ref().is_some_and(|text| *text != found) {
            return None;
        }
        all = Some(found);
    }
    all
}

// What was found, with the records that a chunk makes whole, of at most 100.
fn with_records(
    alloc: Global,
    framer: &mut Framer,
    chunk: &[u8],
    mut found: String,
) -> Option<String> {
    let mut rest = chunk;
    for _ in 0..100u8 {
        let fed = framer.feed(rest).ok()?;
        rest = &rest[fed.used..];
        if !fed.ready {
            return Some(found);
        }
        found = then(found, digits(alloc, framer.whole())?.as_str())?;
        framer.next();
    }
    None
}

// The header of a record of so many bytes.
fn frame(alloc: Global, words: &mut SplitWhitespace<'_>) -> Option<String> {
    let len = word(words)?;
    if len >= 1 << 31 {
        return None;
    }
    digits(alloc, &frame_record(len))
}
