//! What is kept of the lines of a description while it is loaded.
ghost use Rattle.std.specs.Prelude.{◌≡◌, ◌+◌, ◌^◌, ◌-◌, OnOk, min};

use nfs_advice::skipped::{content_of, put_mark};
use nfs_advice::warnings::looked_at;
use nfs_text::line::Line;
use std::alloc::{AllocError, Global};

// Of a line with more bytes the content is skipped once it is loaded.
const LONG_LINE_BYTES: usize = 4_096;

// How many bytes of lines are kept for the advice on a fault of a text that can't be read again.
const MOST_ADVICE_BYTES: usize = 1_048_576;

/// How much of the lines is kept.
#[derive(Clone, Copy)]
pub(crate) enum Extent {
    /// All but long contents, for the advice on a fault.
    Lines,
    /// What is looked at where all lines are in order; the other lines are empty, so that these keep their numbers.
    LookedAt,
    /// Nothing.
    Nothing,
}

/// The lines that were taken, as far as they are kept.
#[derive(Drop)]
pub(crate) struct KeptLines {
    extent: Extent,
    text: Vec<u8>,
    // All but long contents, for the advice on a fault, as long as they are few.
    begin: Option<Vec<u8>>,
    count: u64,
}

impl KeptLines {
    /// No line was taken.
    pub(crate) fn new(alloc: Global, extent: Extent) -> KeptLines
        ensures { result.count ≡ 0 }
    {
        KeptLines {
            extent,
            text: Vec::new(alloc),
            begin: None,
            count: 0,
        }
    }

    /// No line was taken of a text that can't be read again: beside that extent, all lines are kept for the advice on a
    /// fault while they have at most 1 MiB.
    pub(crate) fn of_once(alloc: Global, extent: Extent) -> KeptLines
        ensures { result.count ≡ 0 }
    {
        KeptLines {
            extent,
            text: Vec::new(alloc),
            begin: Some(Vec::new(alloc)),
            count: 0,
        }
    }

    /// How many lines in order were taken.
    pub(crate) fn count(&self) -> u64
        ensures { result ≡ self.now.count }
    {
        self.count
    }

    /// What is kept of that extent.
    pub(crate) fn into_text(self) -> Vec<u8>
        ensures { result ≡ self.text }
    {
        self.text
    }

    /// All but long contents, for the advice on a fault. `None` where they aren't kept.
    pub(crate) fn into_lines(self) -> Option<Vec<u8>> {
        match self.extent {
            Extent::Lines => Some(self.text),
            Extent::LookedAt | Extent::Nothing => self.begin,
        }
    }

    /// Takes a line that is in order.
    pub(crate) fn take(&mut self, line: &[u8]) -> Result<(), AllocError>
        ensures { OnOk result (self.new.count ≡ min (self.old.count + 1) (2 ^ 64 - 1)) }
    {
        match self.extent {
            Extent::Lines => put_line(&mut self.text, line)?,
            Extent::LookedAt => self.text.extend_from_slice(looked_at(line))?,
            Extent::Nothing => {}
        }
        if let Some(begin) = &mut self.begin {
            put_line(begin, line)?;
        }
        self.end_line()
    }

    /// Takes the line of a file that is in order: what stands before its content, and how many bytes that says.
    pub(crate) fn take_file(&mut self, words: &[u8], bytes: u64) -> Result<(), AllocError>
        ensures { OnOk result (self.new.count ≡ min (self.old.count + 1) (2 ^ 64 - 1)) }
    {
        match self.extent {
            Extent::Lines => put_file(&mut self.text, words, bytes)?,
            Extent::LookedAt => self.text.extend_from_slice(looked_at(words))?,
            Extent::Nothing => {}
        }
        if let Some(begin) = &mut self.begin {
            put_file(begin, words, bytes)?;
        }
        self.end_line()
    }

    /// Takes the faulty line, of which parts are given that stand one after the other. Only advice looks at it.
    pub(crate) fn take_faulty(&mut self, parts: &[&[u8]]) -> Result<(), AllocError>
        ensures { self.new.count ≡ self.old.count }
    {
        if let Some(begin) = &mut self.begin {
            put_parts(begin, parts)?;
        }
        match self.extent {
            Extent::Lines => put_parts(&mut self.text, parts),
            Extent::LookedAt | Extent::Nothing => Ok(()),
        }
    }

    // Ends a line that is in order.
    fn end_line(&mut self) -> Result<(), AllocError>
        ensures { OnOk result (self.new.count ≡ min (self.old.count + 1) (2 ^ 64 - 1)) }
    {
        self.count = self.count.saturating_add(1);
        match self.extent {
            Extent::Lines | Extent::LookedAt => self.text.push(b'\n')?,
            Extent::Nothing => {}
        }
        self.end_begin()
    }

    // Ends a line of those that are kept while they are few. Where they are more, they are let go.
    fn end_begin(&mut self) -> Result<(), AllocError>
        ensures { OnOk result (self.new.count ≡ self.old.count) }
    {
        let Some(begin) = &mut self.begin else {
            return Ok(());
        };
        begin.push(b'\n')?;
        if begin.len() > MOST_ADVICE_BYTES {
            self.begin = None;
        }
        Ok(())
    }
}

// Puts a line, without its content where it is long.
fn put_line(text: &mut Vec<u8>, line: &[u8]) -> Result<(), AllocError> {
    if line.len() <= LONG_LINE_BYTES {
        return text.extend_from_slice(line);
    }
    match content_of(line) {
        Some(content) => {
            text.extend_from_slice(&line[..content.start])?;
            put_skipped(text, content.bytes)
        }
        None => text.extend_from_slice(line),
    }
}

// Puts the parts of a line, and its end.
fn put_parts(text: &mut Vec<u8>, parts: &[&[u8]]) -> Result<(), AllocError> {
    for part in parts {
        text.extend_from_slice(*part)?;
    }
    text.push(b'\n')?;
    Ok(())
}

// Puts the line of a file without its content.
fn put_file(text: &mut Vec<u8>, words: &[u8], bytes: u64) -> Result<(), AllocError> {
    text.extend_from_slice(words)?;
    text.push(b' ')?;
    put_skipped(text, bytes)
}

// Puts what stands in the place of a content of so many bytes.
fn put_skipped(text: &mut Vec<u8>, bytes: u64) -> Result<(), AllocError> {
    let mut mark = Line::new();
    put_mark(&mut mark, bytes);
    text.extend_from_slice(mark.as_slice())
}
