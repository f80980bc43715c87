//! The texts that words of the command name.
ghost use Rattle.std.specs.Prelude.{◌≡◌, ◌⊎◌, ℕ, ◌<◌, ◌≤◌, List, true, Ok, IfOk, IfErr, OnOk, length, take};
ghost use Rattle.nfs_load.specs.Descriptions.{Describes};
ghost use Rattle.nfs_describe.specs.Outputs.{Takes};
ghost use Rattle.nfs_source.specs.Sources.{IsRead, IsRest, left_of};
ghost use Rattle.nfs_source.specs.Status.{Reports, status_of};
ghost use Rattle.nfs_xdr.specs.Known.{Shrinks, IsAtEnd};

use crate::diagnostic::Diagnostic;
use crate::fault::Fault;
use nfs_load::description::load;
use nfs_load::loaded::Loaded;
use std::alloc::{AllocError, Global};
use std::fs::{self, OpenFile};
use std::io::{self, ErrorKind, Read};
use std::rt::Files;

// The most bytes of a text that is kept whole: 1 GiB.
const MOST_KEPT_BYTES: usize = 1 << 30;

// More bytes than any machine has room for.
const MOST_BYTES: usize = 1 << 62;

// How much is read at once.
const CHUNK_BYTES: usize = 1 << 16;

/// A text with its name, `-` for standard input.
#[derive(Drop)]
pub struct Source<'a> {
    /// The name.
    pub name: &'a str,
    /// Its bytes; of a `Description` those that are kept.
    pub text: Vec<u8>,
}

impl<'a> Source<'a> {
    /// The whole text of this name. `CannotRead` where the system reads no more of it, `TooLong` above
    /// 1 GiB, which an endless one reaches, `Memory`.
    pub fn read<R: Files + Input>(rt: &R, alloc: Global, name: &'a str) -> Result<Source<'a>, Fault>
        ensures short { IfOk result (λ source. length source.text.items ≤ 1073741824) }
        ensures name { IfOk result (λ source. source.name.now ≡ name.now) }
    {
        Source::read_from(alloc, &mut open_text(rt, alloc, name)?, name)
    }

    // What a reader of this name has left.
    fn read_from<I: Read>(alloc: Global, file: &mut I, name: &'a str) -> Result<Source<'a>, Fault>
        ensures text { IfOk result (λ source. IsRest (I.remaining file.old) source.text.items (I.remaining file.new)) }
        ensures short { IfOk result (λ source. length source.text.items ≤ 1073741824) }
        ensures name { IfOk result (λ source. source.name.now ≡ name.now) }
    {
        let mut text = Vec::new(alloc);
        read_all(alloc, file, name, &mut text)?;
        Ok(Source { name, text })
    }

    /// What the text describes. `Description` with its first faulty line, `Memory`.
    pub fn load(&self, alloc: Global) -> Result<Loaded, Diagnostic>
        ensures loaded { IfOk result (λ loaded. Describes self.now.text.items (Ok loaded)) }
        ensures fault { IfErr result (λ it. Reports self.now.text.items it.fault) }
    {
        match load(alloc, self.text.as_slice()) {
            Ok(loaded) => Ok(loaded),
            Err(error) => Err(Diagnostic::of_description(alloc, error, self)),
        }
    }
}

/// What takes a text chunk by chunk.
pub(crate) trait Sink {
    /// That these bytes may be what was taken.
    ghost has: { Self → List ℕ → Type 0 };

    /// That nothing more is looked at.
    ghost ended: { Self → Type 0 };

    /// Takes the next chunk.
    fn take(&mut self, span: &[u8]) -> Result<(), SinkFault>
        ensures { OnOk result (Takes has self.old span.now self.new) };

    /// Whether nothing more is looked at.
    fn has_ended(&self) -> bool
        ensures { result ≡ true → ended self.now };
}

/// Why a chunk isn't taken.
#[derive(Clone, Copy)]
pub(crate) enum SinkFault {
    /// A text that is kept whole would have more than 1 GiB.
    TooLong,
    /// A line is too long.
    LongLine {
        /// Its number, from 1.
        line: u64,
        /// How many bytes it may have.
        most: usize,
    },
    /// There is no memory.
    Memory,
}

impl From<AllocError> for SinkFault {
    fn from(_error: AllocError) -> SinkFault {
        SinkFault::Memory
    }
}

impl Sink for Vec<u8> {
    ghost has = { λ taken text. (taken.items ≡ text) × (length text ≤ 1073741824) };

    ghost ended = { λ _. ⊥ };

    fn take(&mut self, span: &[u8]) -> Result<(), SinkFault> {
        self.extend_from_slice(span)?;
        if self.len() > MOST_KEPT_BYTES {
            return Err(SinkFault::TooLong);
        }
        Ok(())
    }

    fn has_ended(&self) -> bool {
        false
    }
}

/// Standard input, or a file.
#[derive(Drop)]
pub(crate) enum TextFile<I, F> {
    Standard(I),
    Named(F),
}

impl<I: Read, F: Read> Read for TextFile<I, F> {
    ghost remaining = { λ it. left_of I.remaining F.remaining it };

    fn read(&mut self, buf: &mut [u8]) -> io::Result<usize> {
        match self {
            TextFile::Standard(input) => input.read(buf),
            TextFile::Named(file) => file.read(buf),
        }
    }
}

impl<I, F: OpenFile> TextFile<I, F> {
    /// Whether it is a regular file, whose text can be read again from its begin.
    pub(crate) fn is_regular(&self) -> bool {
        match self {
            TextFile::Standard(_) => false,
            TextFile::Named(file) => match file.metadata() {
                Ok(metadata) => metadata.is_file(),
                Err(_) => false,
            },
        }
    }
}

/// The text of this name, which is read up to its end, so a pipe may be named too. `CannotRead` where the
/// system doesn't open it, `Memory`.
pub(crate) fn open_text<R: Files + Input>(
    rt: &R,
    alloc: Global,
    name: &str,
) -> Result<TextFile<R::Reader, R::File>, Fault>
    ensures { IfErr result (λ fault. status_of fault ≡ 3) }
{
    if name == "-" {
        return Ok(TextFile::Standard(rt.reader()));
    }
    match fs::open(rt, name) {
        Ok(file) => Ok(TextFile::Named(file)),
        Err(error) => Err(cannot_read(alloc, name, error)),
    }
}

/// Hands on all bytes that a reader of this name gives, up to its end, or until nothing more is looked at.
/// `CannotRead` where the system reads no more of it; the faults of the sink; `Memory`.
pub(crate) fn read_all<I: Read, S: Sink>(
    alloc: Global,
    file: &mut I,
    name: &str,
    sink: &mut S,
) -> Result<(), Fault>
    ensures taken { OnOk result ((text : List ℕ) × IsRead (I.remaining file.old) text (I.remaining file.new)
        × Takes S.has sink.old text sink.new × (IsAtEnd (I.remaining file.new) ⊎ S.ended sink.new)) }
    ensures machine { IfErr result (λ fault. status_of fault ≡ 3) }
{
    let mut span = Vec::new(alloc);
    span.resize(CHUNK_BYTES, 0).map_err(Fault::Memory)?;
    hand_on(alloc, file, name, span.as_mut_slice(), sink)
}

// The same, with room for what is read at once.
fn hand_on<I: Read, S: Sink>(
    alloc: Global,
    file: &mut I,
    name: &str,
    span: &mut [u8],
    sink: &mut S,
) -> Result<(), Fault>
    requires { 0 < length span.old }
    ensures taken { OnOk result ((text : List ℕ) × IsRead (I.remaining file.old) text (I.remaining file.new)
        × Takes S.has sink.old text sink.new × (IsAtEnd (I.remaining file.new) ⊎ S.ended sink.new)) }
    ensures machine { IfErr result (λ fault. status_of fault ≡ 3) }
{
    let mut len = 0usize;
    for _ in 0..u64::MAX {
        if len > MOST_BYTES {
            break;
        }
        if sink.has_ended() {
            return Ok(());
        }
        match read_some(file, span) {
            Ok(0) => return Ok(()),
            Ok(n) => {
                len = len.saturating_add(n);
                if let Err(fault) = sink.take(&span[..n]) {
                    return Err(sink_fault(alloc, name, fault));
                }
            }
            Err(error) => return Err(cannot_read(alloc, name, error)),
        }
    }
    let error = io::Error::new(ErrorKind::InvalidInput, "it has no end");
    Err(cannot_read(alloc, name, error))
}

// How many bytes were read into a span, none only at the end. Where the system is interrupted, which
// loses nothing, it is asked again.
fn read_some<I: Read>(file: &mut I, span: &mut [u8]) -> io::Result<usize>
    ensures count { IfOk result (λ n. n ≤ length span.new) }
    ensures comes { IfOk result (λ n. Shrinks (I.remaining file.old) (take n span.new) (I.remaining file.new)) }
    ensures at_end { IfOk result (λ n. n ≡ 0 → 0 < length span.new → IsAtEnd (I.remaining file.new)) }
{
    for _ in 0..u64::MAX {
        match file.read(span) {
            Err(error) if error.kind() == ErrorKind::Interrupted => {}
            done => return done,
        }
    }
    Err(io::Error::from(ErrorKind::Interrupted))
}

// That a file can't be read, and what the system says of it.
fn cannot_read(alloc: Global, name: &str, error: io::Error) -> Fault
    ensures { status_of result ≡ 3 }
{
    match name.to_string(alloc) {
        Ok(name) => Fault::CannotRead { name, error },
        Err(error) => Fault::Memory(error),
    }
}

// Why the chunks of a file of this name aren't taken.
fn sink_fault(alloc: Global, name: &str, fault: SinkFault) -> Fault
    ensures { status_of result ≡ 3 }
{
    let name = match name.to_string(alloc) {
        Ok(name) => name,
        Err(error) => return Fault::Memory(error),
    };
    match fault {
        SinkFault::TooLong => Fault::TooLong(name),
        SinkFault::LongLine { line, most } => Fault::LongLine { name, line, most },
        SinkFault::Memory => Fault::Memory(AllocError),
    }
}
