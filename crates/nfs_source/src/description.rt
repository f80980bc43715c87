//! Descriptions that are loaded while they are read.
ghost use Rattle.std.specs.Prelude.{◌≡◌, ◌⊎◌, ℕ, ◌<◌, ◌≤◌, IsErr, List, [], ◌∷◌, ◌++◌, length, true, None, Ok, ⊤, IfOk, IfErr, OnOk, MatchOption};
ghost use Rattle.std.specs.Option.{is_some};
ghost use Rattle.nfs_describe.specs.Outputs.{Takes};
ghost use Rattle.nfs_describe.specs.Texts.{most_text_bytes};
ghost use Rattle.nfs_load.specs.Descriptions.{Describes};
ghost use Rattle.nfs_load.specs.Lines.{begins_file};
ghost use Rattle.nfs_load.specs.Loadings.{LineTaken};
ghost use Rattle.nfs_lives.specs.Rows.{HasTaken};
ghost use Rattle.nfs_text.specs.Lines.{lines};
ghost use Rattle.nfs_source.specs.OpenLines.{IsDecoded, text_of};
ghost use Rattle.nfs_source.specs.Readings.{Begins, HasRead, HasText, IsCut, IsFaultOf, is_open, outcome_of, taken_or};
ghost use Rattle.nfs_source.specs.Sources.{IsRest};
ghost use Rattle.nfs_source.specs.Status.{IsOfReading, IsReportedAs, Reports, status_of};

use crate::diagnostic::Diagnostic;
use crate::fault::Fault;
use crate::kept_lines::{Extent, KeptLines};
use crate::open_line::{Case, DecodedLine, EndedLine, OpenLine, encode};
use crate::source::{Sink, SinkFault, Source, open_text, read_all};
use memchr::memchr;
use nfs_content::content::Content;
use nfs_content::pages::Pages;
use nfs_inodes::limits::{Limits, MAX_FILE_BYTES};
use nfs_lives::path_digest::PathDigest;
use nfs_load::load_error::LoadError;
use nfs_load::loaded::Loaded;
use nfs_load::loading::Loading;
use nfs_text::words::Words;
use std::alloc::{AllocError, Global};
use std::io::Read;
use std::rt::Files;

// How many bytes of a content that is refused are kept: advice shows fewer.
const SHOWN_BYTES: usize = 64;

// How many bytes a line may have beside the digits of a file's content.
const MOST_WORD_BYTES: usize = 65_536;

/// A description: what it says, and as much of its text as is looked at once it is loaded.
#[derive(Drop)]
pub struct Description<'a> {
    /// Its text, where most lines are empty: those of volumes and exports are whole, and those of directories and files
    /// that may be warned of have what stands up to the mode. All lines have their numbers.
    pub source: Source<'a>,
    /// What it says.
    pub loaded: Loaded,
}

impl<'a> Description<'a> {
    /// The description of this name. `Description` with its first faulty line, after which nothing is read.
    /// `LongLine` where a line has more than 65,536 bytes and two for each byte of the largest file, or begins
    /// with no word and has more than 65,536; `CannotRead` where the system reads no more of it; `Memory`.
    pub fn read<R: Files + Input>(
        rt: &R,
        alloc: Global,
        name: &'a str,
    ) -> Result<Description<'a>, Diagnostic>
        ensures described { IfOk result (λ it. (text : List ℕ) × Describes text (Ok it.loaded)) }
        ensures fault { IfErr result (λ it. IsOfReading it.fault) }
    {
        let (description, _) = read_with(rt, alloc, name, NoDigest, Extent::LookedAt)?;
        Ok(description)
    }
}

/// What a server serves that begins its life: what a description says, and the key of its handles.
#[derive(Drop)]
pub struct Life {
    /// What the description says.
    pub loaded: Loaded,
    /// The key of each life of a server whose description has this key, and names the same paths in the
    /// same order.
    pub key: [u8; 8],
}

/// The life that begins with a text of this name, which is not kept. The faults of `Description::read`.
pub fn load_life<R: Files + Input>(rt: &R, alloc: Global, name: &str) -> Result<Life, Diagnostic>
    ensures begins { IfOk result (λ life. (text : List ℕ) × Begins text life) }
    ensures fault { IfErr result (λ it. IsOfReading it.fault) }
{
    let (description, paths) = read_with(rt, alloc, name, PathDigest::new(), Extent::Nothing)?;
    let Description { loaded, .. } = description;
    let key = paths.finish(loaded.tree.key());
    Ok(Life { loaded, key })
}

/// The tree that a text of this name describes, which is not kept. The faults of `Description::read`.
pub fn load_tree<R: Files + Input>(rt: &R, alloc: Global, name: &str) -> Result<Loaded, Diagnostic>
    ensures described { IfOk result (λ loaded. (text : List ℕ) × Describes text (Ok loaded)) }
    ensures fault { IfErr result (λ it. IsOfReading it.fault) }
{
    let (description, _) = read_with(rt, alloc, name, NoDigest, Extent::Nothing)?;
    let Description { loaded, .. } = description;
    Ok(loaded)
}

// The description of this name, and what is made of its lines beside. So much of these is kept; where the text can't be
// read again, the first 1 MiB of them beside, for the advice on a fault.
fn read_with<'a, R: Files + Input, D: LineDigest>(
    rt: &R,
    alloc: Global,
    name: &'a str,
    digest: D,
    extent: Extent,
) -> Result<(Description<'a>, D), Diagnostic>
    requires { D.has digest [] }
    ensures described { IfOk result (λ it. (text : List ℕ) × Describes text (Ok it.0.loaded) × D.has it.1 (lines text)) }
    ensures fault { IfErr result (λ it. IsOfReading it.fault) }
{
    let mut file = open_text(rt, alloc, name)?;
    if !file.is_regular() {
        let kept = KeptLines::of_once(alloc, extent);
        return read_from(alloc, &mut file, name, digest, kept);
    }
    let kept = KeptLines::new(alloc, extent);
    match read_from(alloc, &mut file, name, digest, kept) {
        Ok(read) => Ok(read),
        Err(first) => Err(advised(rt, alloc, name, first)),
    }
}

// The fault of a text whose lines were not kept, with advice where it is that of a line. For that the text is read again,
// and its lines are kept; where it has changed so that the fault is another one now, there is no advice.
fn advised<R: Files + Input>(rt: &R, alloc: Global, name: &str, first: Diagnostic) -> Diagnostic
    ensures { result.fault ≡ first.fault }
{
    if !matches!(first.fault, Fault::Description { .. }) {
        return first;
    }
    match read_lines(rt, alloc, name) {
        Ok(_) => first,
        Err(again) => first.with_advice_of(again),
    }
}

// The description of this name, with its lines.
fn read_lines<'a, R: Files + Input>(
    rt: &R,
    alloc: Global,
    name: &'a str,
) -> Result<Description<'a>, Diagnostic> {
    let mut file = open_text(rt, alloc, name)?;
    let kept = KeptLines::new(alloc, Extent::Lines);
    let (description, _) = read_from(alloc, &mut file, name, NoDigest, kept)?;
    Ok(description)
}

// The description that a reader of this name has left.
fn read_from<'a, I: Read, D: LineDigest>(
    alloc: Global,
    file: &mut I,
    name: &'a str,
    digest: D,
    kept: KeptLines,
) -> Result<(Description<'a>, D), Diagnostic>
    requires { D.has digest [] }
    ensures described { IfOk result (λ it. (text : List ℕ) × IsRest (I.remaining file.old) text (I.remaining file.new)
        × Describes text (Ok it.0.loaded) × D.has it.1 (lines text)) }
    ensures fault { IfErr result (λ it. (status_of it.fault ≡ 3) ⊎ ((text : List ℕ)
        × IsFaultOf (I.remaining file.old) text (I.remaining file.new) it.fault)) }
{
    let mut reader = Reader::new(alloc, digest, kept);
    read_all(alloc, file, name, &mut reader)?;
    let reading = reader.end()?;
    reading.described(alloc, name)
}

// What is made of the lines of a description, beside what they say.
trait LineDigest: Drop {
    // That these lines may be those that were taken.
    ghost has: { Self → List (List ℕ) → Type 0 };

    // Takes the next line.
    fn take(&mut self, line: &[u8])
        ensures { (done : List (List ℕ)) → has self.old done → has self.new (done ++ line.now ∷ []) };

    // Takes the next line, that of a file, of which these words stand before the content.
    fn take_file(&mut self, words: &[u8])
        requires { begins_file words.now ≡ true }
        ensures { (done : List (List ℕ)) (digits : List ℕ) → has self.old done
            → has self.new (done ++ (words.now ++ 32 ∷ digits) ∷ []) };
}

impl LineDigest for PathDigest {
    ghost has = { HasTaken };

    fn take(&mut self, line: &[u8]) {
        PathDigest::take(self, line);
    }

    fn take_file(&mut self, words: &[u8]) {
        PathDigest::take(self, words);
    }
}

// Nothing is made of them.
#[derive(Drop)]
struct NoDigest;

impl LineDigest for NoDigest {
    ghost has = { λ _ _. ⊤ };

    fn take(&mut self, _line: &[u8]) {}

    fn take_file(&mut self, _words: &[u8]) {}
}

// The lines of a description, as far as they were read.
#[derive(Drop)]
struct Reading<D> {
    loading: Loading,
    // The lines that were taken, the first faulty one last. Nothing after that is kept.
    kept: KeptLines,
    fault: Option<LoadError>,
    digest: D,
    // The most bytes of a file, as far as it is known.
    largest_file: usize,
}

impl<D: LineDigest> Reading<D> {
    // Takes the next line.
    fn take(&mut self, line: &[u8]) -> Result<(), AllocError>
        requires { self.old.fault ≡ None }
        ensures { OnOk result ((done : List (List ℕ)) → HasRead D.has self.old done → HasRead D.has self.new (done ++ line.now ∷ [])) }
    {
        self.digest.take(line);
        self.largest_file = largest_after(line, self.largest_file);
        self.fault = load_line(&mut self.loading, &mut self.kept, line)?;
        Ok(())
    }

    // Takes the next line, which came in parts.
    fn take_open(&mut self, alloc: Global, line: OpenLine) -> Result<(), AllocError>
        requires { self.old.fault ≡ None }
        ensures { OnOk result ((done : List (List ℕ)) → HasRead D.has self.old done → HasRead D.has self.new (done ++ line ∷ [])) }
    {
        match line.end()? {
            EndedLine::Plain(line) => self.take(line.as_slice()),
            EndedLine::Decoded(line) => self.take_file(alloc, line),
        }
    }

    // Takes the next line, that of a file, whose content is decoded.
    fn take_file(&mut self, alloc: Global, line: DecodedLine) -> Result<(), AllocError>
        requires in_order { self.old.fault ≡ None }
        requires decoded { IsDecoded line }
        ensures { OnOk result ((done : List (List ℕ)) → HasRead D.has self.old done → HasRead D.has self.new (done ++ text_of line ∷ [])) }
    {
        self.digest.take_file(line.words.as_slice());
        self.fault = load_file(alloc, &mut self.loading, &mut self.kept, line)?;
        Ok(())
    }

    // Refuses a line of so many bytes that begins like this, where no line of a description is so long.
    fn check_length(&self, begin: &[u8], len: usize) -> Result<(), SinkFault>
        ensures { IsErr result → 65536 < len }
    {
        let mut most = MOST_WORD_BYTES;
        if len > most && begins_as_line(begin) {
            most += 2 * self.largest_file.min(MAX_FILE_BYTES);
        }
        if len > most {
            return Err(SinkFault::LongLine {
                line: self.kept.count().saturating_add(1),
                most,
            });
        }
        Ok(())
    }

    // What all lines describe, and what was made of them. The first fault otherwise.
    fn described<'a>(self, alloc: Global, name: &'a str) -> Result<(Description<'a>, D), Diagnostic>
        ensures in_order { IfOk result (λ _. self.fault ≡ None) }
        ensures described { IfOk result (λ it. (text : List ℕ) → length text ≤ most_text_bytes → HasRead D.has self (lines text)
            → Describes text (Ok it.0.loaded) × D.has it.1 (lines text)) }
        ensures fault { IfErr result (λ it. (text : List ℕ) → length text ≤ most_text_bytes → HasRead D.has self (lines text) → Reports text it.fault) }
    {
        let Reading {
            loading,
            kept,
            fault,
            digest,
            ..
        } = self;
        match outcome(loading, fault) {
            Ok(loaded) => {
                let text = kept.into_text();
                let source = Source { name, text };
                Ok((Description { source, loaded }, digest))
            }
            Err(error) => Err(diagnostic_of(alloc, error, name, kept)),
        }
    }
}

// A description, as far as it was read.
#[derive(Drop)]
struct Reader<D> {
    alloc: Global,
    reading: Reading<D>,
    line: OpenLine,
}

impl<D: LineDigest> Reader<D> {
    fn new(alloc: Global, digest: D, kept: KeptLines) -> Reader<D>
        requires { D.has digest [] }
        ensures { HasText D.has result [] }
    {
        Reader {
            alloc,
            reading: Reading {
                loading: Loading::new(alloc),
                kept,
                fault: None,
                digest,
                largest_file: Limits::standard().file_size,
            },
            line: OpenLine::new(alloc),
        }
    }

    // Refuses the line that ends with this part, where no line of a description is so long.
    fn check_end(&self, part: &[u8]) -> Result<(), SinkFault> {
        let len = self.line.len().saturating_add(part.len());
        if self.line.is_empty() {
            self.reading.check_length(part, len)
        } else {
            self.reading.check_length(self.line.first_bytes(), len)
        }
    }

    // Takes the last part of the line; mostly it is the whole line.
    fn end_line(&mut self, part: &[u8]) -> Result<(), AllocError>
        requires in_order { self.old.reading.fault ≡ None }
        requires part { is_open part.now ≡ true }
        ensures { OnOk result (Takes (HasText D.has) self.old (part.now ++ 10 ∷ []) self.new) }
    {
        if self.line.is_empty() {
            return self.reading.take(part);
        }
        self.line.push(part)?;
        let line = self.line.take();
        self.reading.take_open(self.alloc, line)
    }

    // Takes a part of a line that has not ended.
    fn put_open(&mut self, part: &[u8]) -> Result<(), SinkFault>
        requires in_order { self.old.reading.fault ≡ None }
        requires part { is_open part.now ≡ true }
        ensures { OnOk result (Takes (HasText D.has) self.old part.now self.new) }
    {
        self.line.push(part)?;
        self.reading
            .check_length(self.line.first_bytes(), self.line.len())
    }

    // All lines; the last may lack its LF.
    fn end(self) -> Result<Reading<D>, AllocError>
        ensures read { IfOk result (λ reading. (text : List ℕ) → HasText D.has self text → HasRead D.has reading (lines text)) }
        ensures same { is_some self.reading.fault ≡ true → IfOk result (λ reading. reading ≡ self.reading) }
    {
        let Reader {
            alloc,
            reading,
            line,
        } = self;
        let mut all = reading;
        if all.fault.is_some() {
            return Ok(all);
        }
        if line.is_empty() {
            return Ok(all);
        }
        all.take_open(alloc, line)?;
        Ok(all)
    }
}

impl<D: LineDigest> Sink for Reader<D> {
    ghost has = { λ it text. HasText D.has it text };

    ghost ended = { λ it. is_some it.reading.fault ≡ true };

    fn take(&mut self, span: &[u8]) -> Result<(), SinkFault> {
        let mut rest = span;
        while self.reading.fault.is_none() {
            match cut_line(rest) {
                Some((part, after)) => {
                    self.check_end(part)?;
                    self.end_line(part)?;
                    rest = after;
                }
                None => return self.put_open(rest),
            }
        }
        Ok(())
    }

    fn has_ended(&self) -> bool {
        self.reading.fault.is_some()
    }
}

// The most bytes of a file after a line, which are not known exactly once limits are given.
fn largest_after(line: &[u8], largest: usize) -> usize {
    if Words::new(line).next() == Some(b"limits") {
        MAX_FILE_BYTES
    } else {
        largest
    }
}

// Whether a line may begin with a word of a description, be a comment or have no word, as far as its first byte that is
// no space says.
fn begins_as_line(line: &[u8]) -> bool {
    for byte in line {
        if *byte != b' ' {
            return *byte == b'#' || byte.is_ascii_lowercase();
        }
    }
    true
}

/// What stands before the first LF, and what stands after it.
#[inline(always)]
pub(crate) fn cut_line(text: &[u8]) -> Option<(&[u8], &[u8])>
    ensures { MatchOption result (is_open text.now ≡ true) (λ cut. IsCut text.now cut.0.now cut.1.now) }
{
    match memchr(b'\n', text) {
        Some(end) => Some((&text[..end], &text[end + 1..])),
        None => None,
    }
}

// Loads a line, which is kept then. Its fault, if it is faulty.
fn load_line(
    loading: &mut Loading,
    kept: &mut KeptLines,
    line: &[u8],
) -> Result<Option<LoadError>, AllocError>
    ensures { IfOk result (λ fault. LineTaken loading.old line.now (taken_or fault) loading.new) }
{
    match loading.take(line) {
        Ok(()) => {
            kept.take(line)?;
            Ok(None)
        }
        Err(error) => {
            kept.take_faulty(&[line])?;
            Ok(Some(error))
        }
    }
}

// Loads the line of a file, of which what is looked at is kept then. Its fault, if it is faulty.
fn load_file(
    alloc: Global,
    loading: &mut Loading,
    kept: &mut KeptLines,
    line: DecodedLine,
) -> Result<Option<LoadError>, AllocError>
    requires { IsDecoded line }
    ensures { IfOk result (λ fault. LineTaken loading.old (text_of line) (taken_or fault) loading.new) }
{
    let DecodedLine {
        words,
        content,
        case,
    } = line;
    let words = words.as_slice();
    let bytes = content.len() as u64;
    let shown = first_digits(alloc, &content, case)?;
    match loading.take_file(words, content) {
        Ok(()) => {
            kept.take_file(words, bytes)?;
            Ok(None)
        }
        Err(error) => {
            kept.take_faulty(&[words, b" ".as_slice(), shown.as_bytes()])?;
            Ok(Some(error))
        }
    }
}

// The first digits of a content, whose letters have this case.
fn first_digits(alloc: Global, content: &Pages, case: Case) -> Result<String, AllocError> {
    let run = content.run_at(0);
    encode(alloc, &run[..run.len().min(SHOWN_BYTES)], case)
}

fn outcome(loading: Loading, fault: Option<LoadError>) -> Result<Loaded, LoadError>
    ensures { result ≡ outcome_of fault loading }
{
    match fault {
        Some(error) => Err(error),
        None => loading.finish(),
    }
}

// The fault of a text of this name, with advice where its lines were kept for that.
fn diagnostic_of(alloc: Global, error: LoadError, name: &str, kept: KeptLines) -> Diagnostic
    ensures { IsReportedAs error result.fault }
{
    let Some(text) = kept.into_lines() else {
        return Fault::from(error).into();
    };
    Diagnostic::of_description(alloc, error, &Source { name, text })
}
