//! Lines that have not ended.
ghost use Rattle.std.specs.Prelude.{◌≡◌, ◌≢◌, ◌⊎◌, ◌*◌, ◌+◌, ◌-◌, ◌^◌, ◌≤◌, ℕ, List, [], ◌∷◌, ◌++◌, IfOk, IfSome, MatchBool, OnOk, length, min, string_bytes, true};
ghost use Rattle.nfs_content.specs.Bytes.{IsFirstChunk};
ghost use Rattle.nfs_load.specs.Lines.{begins_file};
ghost use Rattle.nfs_source.specs.OpenLines.{AreAlike, IsDecoded, IsEnded, Says, TakesDigits, encode_in, other_case, text_of};

use hex::FromHexError;
use memchr::memrchr;
use nfs_content::content::Content;
use nfs_content::limits::{MAX_CONTENT_BYTES, PAGE_BYTES};
use nfs_content::pages::Pages;
use nfs_load::line::begins_file;
use std::alloc::{AllocError, Global};
use std::marker::Model;
use std::mem;

// Of a line with more bytes the content of a file is decoded as it comes.
const LONG_LINE_BYTES: usize = 65_536;

// The digits of a page of a content.
const PAGE_DIGITS: usize = 2 * PAGE_BYTES;

/// The case of the letters among digits.
#[derive(Clone, Copy)]
pub(crate) enum Case {
    /// `a` to `f`.
    Lower,
    /// `A` to `F`.
    Upper,
}

impl Case {
    // The other one.
    fn other(self) -> Case
        ensures { result ≡ other_case self }
    {
        match self {
            Case::Lower => Case::Upper,
            Case::Upper => Case::Lower,
        }
    }
}

/// The line of a file as far as its content is decoded, which is written in digits whose letters have one case.
#[derive(Drop)]
pub(crate) struct DecodedLine {
    /// What stands before the content and a space.
    pub words: Vec<u8>,
    /// The content.
    pub content: Pages,
    /// The case of the letters among its digits; lowercase as long as there is none.
    pub case: Case,
}

impl DecodedLine {
    // The begin of a line, of whose content a page is decoded, and what comes after. `None` where the line isn't a
    // file's, or its content begins with no whole page of digits whose letters have one case.
    fn begin(alloc: Global, line: &[u8]) -> Result<Option<(DecodedLine, Vec<u8>)>, AllocError>
        ensures { IfOk result (λ begun. IfSome begun (λ it. (text_of it.0 ++ it.1.items ≡ line.now) × IsDecoded it.0)) }
    {
        let Some((words, digits)) = cut_content(line) else {
            return Ok(None);
        };
        if digits.len() < PAGE_DIGITS {
            return Ok(None);
        }
        let (page, rest) = digits.split_at(PAGE_DIGITS);
        let Some((content, case)) = decode(alloc, page, Case::Lower)? else {
            return Ok(None);
        };
        let words = words.to_vec(alloc)?;
        let content = Pages::of(alloc, content)?;
        let begun = DecodedLine {
            words,
            content,
            case,
        };
        Ok(Some((begun, rest.to_vec(alloc)?)))
    }

    // Takes digits of the content, two for each byte, if all letters have one case then.
    fn push(&mut self, alloc: Global, digits: &[u8]) -> Result<bool, AllocError>
        requires { IsDecoded self.old }
        ensures taken { IfOk result (λ taken. TakesDigits self.old digits.now taken self.new) }
        ensures decoded { IsDecoded self.new }
    {
        let Some((bytes, case)) = decode(alloc, digits, self.case)? else {
            return Ok(false);
        };
        if !is_alike(alloc, &self.content, case, self.case)? {
            return Ok(false);
        }
        let len = self.content.len();
        if bytes.len().saturating_add(len) > MAX_CONTENT_BYTES {
            return Ok(false);
        }
        self.content.put_at(len, bytes.as_slice())?;
        self.case = case;
        Ok(true)
    }

    // Takes whole pages of digits, as long as all letters have one case; what is left.
    fn push_pages<'a>(&mut self, alloc: Global, digits: &'a [u8]) -> Result<&'a [u8], AllocError>
        requires { IsDecoded self.old }
        ensures taken { IfOk result (λ rest. text_of self.new ++ rest.now ≡ text_of self.old ++ digits.entry.now) }
        ensures decoded { IsDecoded self.new }
    {
        let mut rest = digits;
        while rest.len() >= PAGE_DIGITS {
            let (page, after) = rest.split_at(PAGE_DIGITS);
            if !self.push(alloc, page)? {
                break;
            }
            rest = after;
        }
        Ok(rest)
    }

    // Its bytes, and those after them.
    fn encode(&self, alloc: Global, after: &[u8]) -> Result<Vec<u8>, AllocError>
        ensures { IfOk result (λ line. line.items ≡ text_of self.now ++ after.now) }
    {
        let mut line = self.words.as_slice().to_vec(alloc)?;
        line.push(b' ')?;
        put_digits(&mut line, alloc, &self.content, self.case)?;
        line.extend_from_slice(after)?;
        Ok(line)
    }

    // How many bytes it has.
    fn len(&self) -> usize
        ensures { result ≡ min (length (text_of self.now)) (2 ^ 64 - 1) }
    {
        let digits = self.content.len().saturating_mul(2);
        self.words.len().saturating_add(1).saturating_add(digits)
    }
}

/// A line that has ended.
#[derive(Drop)]
pub(crate) enum EndedLine {
    /// Its bytes.
    Plain(Vec<u8>),
    /// The line of a file, whose content is decoded.
    Decoded(DecodedLine),
}

/// What was read of a line that has not ended. Of a long line of a file the content is decoded as it comes, while all
/// letters among its digits have one case, so that it can be encoded again as it came. Contracts see the bytes as they
/// came.
#[derive(Drop)]
pub(crate) struct OpenLine {
    alloc: Global,
    decoded: Option<DecodedLine>,
    // All bytes, or those after what is decoded.
    tail: Vec<u8>,
}

impl Model for OpenLine {
    ghost use Rattle.std.specs.Prelude.{ℕ, List, ◌++◌, IfSome};
    ghost use Rattle.nfs_source.specs.OpenLines.{AreAlike, IsDecoded, front_of};

    ghost Value = { List ℕ };

    ghost view = { λ a. front_of a.decoded ++ a.tail.items };

    ghost invariant = { λ a. IfSome a.decoded IsDecoded };
}

impl OpenLine {
    /// No byte was read.
    pub(crate) fn new(alloc: Global) -> OpenLine
        ensures { result ≡ [] }
    {
        OpenLine {
            alloc,
            decoded: None,
            tail: Vec::new(alloc),
        }
    }

    /// How many bytes it has, as they came.
    pub(crate) fn len(&self) -> usize
        ensures { result ≡ min (length self.now) (2 ^ 64 - 1) }
    {
        match &self.decoded {
            Some(line) => line.len().saturating_add(self.tail.len()),
            None => self.tail.len(),
        }
    }

    /// Whether it has no byte.
    pub(crate) fn is_empty(&self) -> bool
        ensures { MatchBool result (self.now ≡ []) (self.now ≢ []) }
    {
        match &self.decoded {
            Some(_) => false,
            None => self.tail.is_empty(),
        }
    }

    /// The first of its bytes, some where there are any.
    pub(crate) fn first_bytes(&self) -> &[u8]
        ensures { IsFirstChunk result.now self.now }
    {
        match &self.decoded {
            Some(line) => line.words.as_slice(),
            None => self.tail.as_slice(),
        }
    }

    /// Takes the bytes that come after it.
    pub(crate) fn push(&mut self, part: &[u8]) -> Result<(), AllocError>
        ensures { OnOk result (self.new ≡ self.old ++ part.now) }
    {
        let before = self.tail.len();
        self.tail.extend_from_slice(part)?;
        let is_long = before <= LONG_LINE_BYTES && self.tail.len() > LONG_LINE_BYTES;
        if is_long {
            self.begin_decoding()?;
        }
        self.decode()
    }

    // Decodes what came, where that can be done.
    fn begin_decoding(&mut self) -> Result<(), AllocError>
        ensures { OnOk result (self.new ≡ self.old) }
    {
        if self.decoded.is_some() {
            return Ok(());
        }
        if let Some((line, rest)) = DecodedLine::begin(self.alloc, self.tail.as_slice())? {
            self.decoded = Some(line);
            self.tail = rest;
        }
        Ok(())
    }

    // Decodes whole pages. Where a byte is no digit, or a letter of the other case, nothing is decoded any more.
    fn decode(&mut self) -> Result<(), AllocError>
        ensures { OnOk result (self.new ≡ self.old) }
    {
        let Some(line) = &mut self.decoded else {
            return Ok(());
        };
        let rest = line.push_pages(self.alloc, self.tail.as_slice())?;
        if rest.len() < PAGE_DIGITS {
            self.tail = rest.to_vec(self.alloc)?;
        } else {
            self.tail = line.encode(self.alloc, rest)?;
            self.decoded = None;
        }
        Ok(())
    }

    /// Gives all that was read; no byte is left.
    pub(crate) fn take(&mut self) -> OpenLine
        ensures all { result ≡ self.old }
        ensures none { self.new ≡ [] }
    {
        let none = OpenLine::new(self.alloc);
        mem::replace(self, none)
    }

    /// The line that ends here.
    pub(crate) fn end(self) -> Result<EndedLine, AllocError>
        ensures { IfOk result (λ line. IsEnded line self) }
    {
        let OpenLine {
            alloc,
            decoded,
            tail,
        } = self;
        let Some(line) = decoded else {
            return Ok(EndedLine::Plain(tail));
        };
        let mut line = line;
        if line.push(alloc, tail.as_slice())? {
            return Ok(EndedLine::Decoded(line));
        }
        Ok(EndedLine::Plain(line.encode(alloc, tail.as_slice())?))
    }
}

// What stands before the content of a file's line, and what stands after it and a space. `None` where it's another.
fn cut_content(line: &[u8]) -> Option<(&[u8], &[u8])>
    ensures { IfSome result (λ cut. (line.now ≡ cut.0.now ++ 32 ∷ cut.1.now) × (begins_file cut.0.now ≡ true)) }
{
    let space = memrchr(b' ', line)?;
    let (words, digits) = (&line[..space], &line[space + 1..]);
    if !begins_file(words) {
        return None;
    }
    Some((words, digits))
}

// What digits say, two for each byte, and the case of their letters: this one where they have none. `None` where they
// say no bytes, or have letters of both.
fn decode(alloc: Global, digits: &[u8], case: Case) -> Result<Option<(Vec<u8>, Case)>, AllocError>
    ensures { IfOk result (Says case digits.now) }
{
    let bytes = match hex::decode(alloc, digits) {
        Ok(bytes) => bytes,
        Err(FromHexError::OutOfMemory) => return Err(AllocError),
        Err(_) => return Ok(None),
    };
    if is_encoded(alloc, bytes.as_slice(), case, digits)? {
        return Ok(Some((bytes, case)));
    }
    let other = case.other();
    if is_encoded(alloc, bytes.as_slice(), other, digits)? {
        return Ok(Some((bytes, other)));
    }
    Ok(None)
}

/// The digits of bytes, whose letters have this case.
pub(crate) fn encode(alloc: Global, bytes: &[u8], case: Case) -> Result<String, AllocError>
    ensures { IfOk result (λ digits. string_bytes digits ≡ encode_in case bytes.now) }
{
    match case {
        Case::Lower => hex::encode(alloc, bytes),
        Case::Upper => hex::encode_upper(alloc, bytes),
    }
}

// Whether these are the digits of bytes in this case.
fn is_encoded(alloc: Global, bytes: &[u8], case: Case, digits: &[u8]) -> Result<bool, AllocError>
    ensures { IfOk result (λ is. MatchBool is (encode_in case bytes.now ≡ digits.now) (encode_in case bytes.now ≢ digits.now)) }
{
    let encoded = encode(alloc, bytes, case)?;
    Ok(encoded.as_bytes() == digits)
}

// Whether a content has the same digits in both cases, as it has where no letter is among them.
fn is_alike(alloc: Global, content: &Pages, one: Case, other: Case) -> Result<bool, AllocError>
    ensures { IfOk result (λ is. MatchBool is (AreAlike one other content.now) (AreAlike one other content.now → ⊥)) }
{
    match (one, other) {
        (Case::Lower, Case::Lower) | (Case::Upper, Case::Upper) => return Ok(true),
        _ => {}
    }
    let mut offset = 0;
    while offset < content.len() {
        let run = content.run_at(offset);
        let digits = encode(alloc, run, one)?;
        if !is_encoded(alloc, run, other, digits.as_bytes())? {
            return Ok(false);
        }
        offset += run.len();
    }
    Ok(true)
}

// Puts the digits of a content, whose letters have this case, at the end of a line.
fn put_digits(
    line: &mut Vec<u8>,
    alloc: Global,
    content: &Pages,
    case: Case,
) -> Result<(), AllocError>
    ensures { OnOk result (line.new.items ≡ line.old.items ++ encode_in case content.now) }
{
    let mut offset = 0;
    while offset < content.len() {
        let run = content.run_at(offset);
        let digits = encode(alloc, run, case)?;
        line.extend_from_slice(digits.as_bytes())?;
        offset += run.len();
    }
    Ok(())
}
