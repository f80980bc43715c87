//! The volumes and the exports that a description has, without its files.
ghost use Rattle.std.specs.Prelude.{◌≡◌, ℕ, List, Ok, IfOk, ⊤};
ghost use Rattle.nfs_load.specs.Descriptions.{Describes};

use crate::description::cut_line;
use crate::diagnostic::Diagnostic;
use crate::source::{Sink, SinkFault, Source, open_text, read_all};
use nfs_load::line::{Keyword, keyword_of};
use nfs_load::loaded::Loaded;
use nfs_text::words::Words;
use std::alloc::{AllocError, Global};
use std::rt::Files;

// How many bytes a line may have that is looked at.
const MOST_LINE_BYTES: usize = 65_536;

/// The volumes that the description of this name has, with nothing in them but their roots, and their exports. Lines of
/// files, directories and times are passed over, whatever they say. `Description` with the first faulty one of the
/// other lines; `LongLine` where one of these has more than 65,536 bytes; `CannotRead` where the system reads no more of
/// it; `Memory`.
pub fn load_heads<R: Files + Input>(rt: &R, alloc: Global, name: &str) -> Result<Loaded, Diagnostic>
    ensures described { IfOk result (λ loaded. (text : List ℕ) × Describes text (Ok loaded)) }
{
    let mut lines = HeadLines::new(alloc);
    read_all(alloc, &mut open_text(rt, alloc, name)?, name, &mut lines)?;
    let HeadLines { text, .. } = lines;
    Source { name, text }.load(alloc)
}

// The text of a description, in which lines are empty that are passed over, so that the others keep their numbers.
#[derive(Drop)]
struct HeadLines {
    text: Vec<u8>,
    // Where the line begins that has not ended yet.
    start: usize,
    // Whether that line is passed over.
    is_passed: bool,
}

impl HeadLines {
    fn new(alloc: Global) -> HeadLines {
        HeadLines {
            text: Vec::new(alloc),
            start: 0,
            is_passed: false,
        }
    }

    // Takes a part of the line, unless that is passed over.
    fn put(&mut self, part: &[u8]) -> Result<(), SinkFault> {
        if self.is_passed {
            return Ok(());
        }
        if self.text.len() == self.start && is_of_file(part) {
            self.is_passed = true;
            return Ok(());
        }
        self.text.extend_from_slice(part)?;
        if is_of_file(self.line()) {
            self.text.truncate(self.start);
            self.is_passed = true;
            return Ok(());
        }
        self.check_length()
    }

    // What was taken of the line that has not ended.
    fn line(&self) -> &[u8] {
        match self.text.as_slice().split_at_checked(self.start) {
            Some((_, line)) => line,
            None => &[],
        }
    }

    fn check_length(&self) -> Result<(), SinkFault> {
        if self.line().len() <= MOST_LINE_BYTES {
            return Ok(());
        }
        Err(SinkFault::LongLine {
            line: self.count_lines(),
            most: MOST_LINE_BYTES,
        })
    }

    // The number of the line that has not ended, from 1.
    fn count_lines(&self) -> u64 {
        let ended = self.text.iter().filter(|byte| **byte == b'\n').count();
        (ended as u64).saturating_add(1)
    }

    // Ends the line.
    fn end_line(&mut self) -> Result<(), AllocError> {
        self.text.push(b'\n')?;
        self.start = self.text.len();
        self.is_passed = false;
        Ok(())
    }
}

impl Sink for HeadLines {
    ghost has = { λ _ _. ⊤ };

    ghost ended = { λ _. ⊥ };

    fn take(&mut self, span: &[u8]) -> Result<(), SinkFault> {
        let mut rest = span;
        while let Some((part, after)) = cut_line(rest) {
            self.put(part)?;
            self.end_line()?;
            rest = after;
        }
        self.put(rest)
    }

    fn has_ended(&self) -> bool {
        false
    }
}

// Whether a line is of a file, as far as its first word says, which a space has to follow.
fn is_of_file(line: &[u8]) -> bool {
    let mut words = Words::new(line);
    let Some(word) = words.next() else {
        return false;
    };
    words.next().is_some()
        && matches!(
            keyword_of(word),
            Some(Keyword::Dir | Keyword::File | Keyword::Link | Keyword::Hard | Keyword::Times)
        )
}
