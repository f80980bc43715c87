//! One connection of a control socket, from its line to its answer.
ghost use Rattle.std.specs.Prelude.{◌≡◌};
ghost use Rattle.nfs_control.specs.Visits.{IsShort};

use crate::http::read_request;
use std::alloc::Global;
use std::io::{ErrorKind, Read, Write};

/// The most bytes of a line.
pub(crate) const MOST_LINE_BYTES: usize = 4_096;

/// The most bytes of an answer.
pub(crate) const MOST_ANSWER_BYTES: usize = 16 << 20;

// How much is read at once.
const CHUNK_BYTES: usize = 512;

/// What came of a line, or of the head of a request.
#[derive(Clone, Copy, Debug, PartialEq, Eq)]
pub(crate) enum Heard {
    /// Not yet all of it.
    Part,
    /// All of it.
    All,
    /// More than it may have.
    TooLong,
}

/// What is read of a connection.
#[derive(Clone, Copy, Debug, PartialEq, Eq)]
pub(crate) enum Form {
    /// A line.
    Line,
    /// The head of a request of HTTP.
    Head,
}

// How far a connection is.
#[derive(Clone, Copy, Debug, PartialEq, Eq)]
enum Stage {
    // Its line is read.
    Hearing,
    // Its answer is written, and then it is closed.
    Telling,
    // Its answer is written, and it stays open as long as the service does.
    Holding,
    // It is to be closed.
    Over,
}

/// A connection over a stream that never waits.
#[derive(Drop)]
pub(crate) struct Visit<S: Drop> {
    stream: S,
    form: Form,
    line: Vec<u8>,
    answer: Vec<u8>,
    sent: usize,
    stage: Stage,
}

impl<S: Read + Write + Drop> Visit<S> {
    /// A connection of which nothing was read.
    pub(crate) fn new(alloc: Global, stream: S, form: Form) -> Visit<S>
        ensures { IsShort result.line }
    {
        Visit {
            stream,
            form,
            line: Vec::new(alloc),
            answer: Vec::new(alloc),
            sent: 0,
            stage: Stage::Hearing,
        }
    }

    /// Whether it is to be closed.
    pub(crate) fn is_over(&self) -> bool {
        self.stage == Stage::Over
    }

    /// The line, or what came of it.
    pub(crate) fn line(&self) -> &[u8] {
        self.line.as_slice()
    }

    /// Reads on until the line has ended, or nothing more has come. What fails, or ends before its line, is over.
    pub(crate) fn hear(&mut self) -> Heard
        ensures { IsShort self.old.line → IsShort self.new.line }
    {
        for _ in 0..=MOST_LINE_BYTES {
            if self.stage != Stage::Hearing {
                break;
            }
            match self.hear_some() {
                Some(Heard::Part) => {}
                Some(heard) => return heard,
                None => break,
            }
        }
        Heard::Part
    }

    // Reads once; `None` where nothing has come.
    fn hear_some(&mut self) -> Option<Heard>
        ensures { IsShort self.old.line → IsShort self.new.line }
    {
        let mut chunk = [0; CHUNK_BYTES];
        match self.stream.read(&mut chunk) {
            Ok(0) => self.close(),
            Ok(n) => return Some(self.take(&chunk[..n])),
            Err(error) => match error.kind() {
                ErrorKind::WouldBlock => {}
                ErrorKind::Interrupted => return Some(Heard::Part),
                _ => self.close(),
            },
        }
        None
    }

    // Takes a chunk of a line or of a head.
    fn take(&mut self, chunk: &[u8]) -> Heard
        ensures { IsShort self.old.line → IsShort self.new.line }
    {
        match self.form {
            Form::Line => self.take_of_line(chunk),
            Form::Head => self.take_of_head(chunk),
        }
    }

    // Takes a chunk of the line. What follows the line is ignored.
    fn take_of_line(&mut self, chunk: &[u8]) -> Heard
        ensures { IsShort self.old.line → IsShort self.new.line }
    {
        match chunk.iter().position(|byte| *byte == b'\n') {
            Some(end) => self.keep(&chunk[..end], true),
            None => self.keep(chunk, false),
        }
    }

    // Takes a chunk of the head.
    fn take_of_head(&mut self, chunk: &[u8]) -> Heard
        ensures { IsShort self.old.line → IsShort self.new.line }
    {
        match self.keep(chunk, false) {
            Heard::Part if read_request(self.line.as_slice()).is_some() => Heard::All,
            heard => heard,
        }
    }

    // Keeps a part, which may be the last. Without memory the connection is over.
    fn keep(&mut self, part: &[u8], is_last: bool) -> Heard
        ensures { IsShort self.old.line → IsShort self.new.line }
    {
        if part.len() > MOST_LINE_BYTES.saturating_sub(self.line.len()) {
            return Heard::TooLong;
        }
        if self.line.extend_from_slice(part).is_err() {
            self.close();
            return Heard::Part;
        }
        if is_last { Heard::All } else { Heard::Part }
    }

    /// Has this answer written. Where it is held, it is not closed then.
    pub(crate) fn answer(&mut self, answer: Vec<u8>, is_held: bool) {
        self.answer = answer;
        self.sent = 0;
        self.stage = if is_held {
            Stage::Holding
        } else {
            Stage::Telling
        };
    }

    /// Adds a line to an answer that is held, as far as it is taken without waiting.
    pub(crate) fn add(&mut self, line: &[u8]) {
        if self.stage == Stage::Holding && self.answer.extend_from_slice(line).is_ok() {
            self.tell();
        }
    }

    /// Adds a line to an answer that is held, which is written then as every other one.
    pub(crate) fn let_go(&mut self, line: &[u8]) {
        if self.stage != Stage::Holding {
            return;
        }
        if self.answer.extend_from_slice(line).is_err() {
            self.close();
            return;
        }
        self.stage = Stage::Telling;
        self.tell();
    }

    /// Closes it.
    pub(crate) fn close(&mut self)
        ensures { self.new.line ≡ self.old.line }
    {
        self.stage = Stage::Over;
    }

    /// Writes on, until all of the answer is written or no more is taken. What fails is over.
    pub(crate) fn tell(&mut self) {
        for _ in 0..=MOST_ANSWER_BYTES {
            if !self.tell_some() {
                break;
            }
        }
    }

    // Writes once, where there is something to write. Whether more may be taken now.
    fn tell_some(&mut self) -> bool {
        let from = self.sent.min(self.answer.len());
        let rest = &self.answer[from..];
        if rest.is_empty() {
            if self.stage == Stage::Telling {
                self.close();
            }
            return false;
        }
        match self.stream.write(rest) {
            Ok(0) => self.close(),
            Ok(n) => {
                self.sent = from.saturating_add(n);
                return true;
            }
            Err(error) => match error.kind() {
                ErrorKind::WouldBlock => {}
                ErrorKind::Interrupted => return true,
                _ => self.close(),
            },
        }
        false
    }
}
