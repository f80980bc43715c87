//! The words of an `ask`, taken from left to right.
ghost use Rattle.std.specs.Prelude.{◌≡◌, option_map};
ghost use Rattle.nfs_text.specs.Words.{words_left};
ghost use Rattle.nfs_ask.specs.Words as spec;
ghost use Rattle.nfs_ask.specs.Words.{Takes, word_at, number_at, long_number_at, mode_at, xid_at, end_at, is_nothing, IsFault, octal_of, octal_more};

use crate::fault::{AskFault, Wanted};
use nfs_text::chunks::cut;
use nfs_text::number::decimal;
use nfs_text::words::Words;
use std::marker::Model;

/// The words that are to come, and the place of the next one.
#[derive(Drop)]
pub(crate) struct Fields<'a> {
    words: Words<'a>,
    place: usize,
}

impl<'a> Model for Fields<'a> {
    ghost use Rattle.std.specs.Prelude.{ℕ, List};
    ghost use Rattle.nfs_text.specs.Words.{words_left};

    ghost Value = { List (List ℕ) };

    ghost view = { λ a. words_left a.words };
}

impl<'a> Fields<'a> {
    /// All of these words.
    pub(crate) fn new(words: Words<'a>) -> Fields<'a>
        ensures { result ≡ words_left words.entry }
    {
        Fields { words, place: 0 }
    }

    /// The next word. A fault where none is left.
    pub(crate) fn word(&mut self, wanted: Wanted) -> Result<&'a [u8], AskFault>
        ensures { Takes (λ word. word.now) self.new result (word_at wanted self.old) }
    {
        match self.words.next() {
            Some(word) => {
                self.place = self.place.saturating_add(1);
                Ok(word)
            }
            None => Err(AskFault::Word(self.place, wanted)),
        }
    }

    /// That the word that was taken last isn't what is wanted there.
    pub(crate) fn fault(&self, wanted: Wanted) -> AskFault
        ensures { IsFault wanted result }
    {
        AskFault::Word(self.place.saturating_sub(1), wanted)
    }

    /// A number of 32 bits.
    pub(crate) fn number(&mut self) -> Result<u32, AskFault>
        ensures { Takes (λ n. n) self.new result (number_at self.old) }
    {
        let word = self.word(Wanted::Word)?;
        match decimal(word, u64::from(u32::MAX)) {
            Some(number) => Ok(number as u32),
            None => Err(self.fault(Wanted::Word)),
        }
    }

    /// A number of 64 bits.
    pub(crate) fn long_number(&mut self) -> Result<u64, AskFault>
        ensures { Takes (λ n. n) self.new result (long_number_at self.old) }
    {
        let word = self.word(Wanted::LongWord)?;
        match decimal(word, u64::MAX) {
            Some(number) => Ok(number),
            None => Err(self.fault(Wanted::LongWord)),
        }
    }

    /// A mode.
    pub(crate) fn mode(&mut self) -> Result<u32, AskFault>
        ensures { Takes (λ n. n) self.new result (mode_at self.old) }
    {
        let word = self.word(Wanted::Mode)?;
        match octal(word) {
            Some(mode) => Ok(mode),
            None => Err(self.fault(Wanted::Mode)),
        }
    }

    /// The number of a call, where the next word begins with `xid=`; any other word is left.
    pub(crate) fn xid(&mut self) -> Result<Option<u32>, AskFault>
        ensures { Takes (λ xid. xid) self.new result (xid_at self.old) }
    {
        let mut ahead = self.words;
        let Some(word) = ahead.next() else {
            return Ok(None);
        };
        let Some(digits) = after_xid(word) else {
            return Ok(None);
        };
        self.words = ahead;
        self.place = self.place.saturating_add(1);
        match decimal(digits, u64::from(u32::MAX)) {
            Some(number) => Ok(Some(number as u32)),
            None => Err(self.fault(Wanted::Xid)),
        }
    }

    /// Whether no word is left.
    pub(crate) fn is_at_end(&self) -> bool
        ensures { result ≡ is_nothing self.now }
    {
        let mut ahead = self.words;
        ahead.next().is_none()
    }

    /// A fault where a word is left.
    pub(crate) fn end(&self) -> Result<(), AskFault>
        ensures { Takes (λ done. done) self.now result (end_at self.now) }
    {
        if self.is_at_end() {
            Ok(())
        } else {
            Err(AskFault::Word(self.place, Wanted::Nothing))
        }
    }
}

// What stands after `xid=` in a word that begins so.
fn after_xid(word: &[u8]) -> Option<&[u8]>
    ensures { option_map (λ digits. digits.now) result ≡ spec.after_xid word.now }
{
    let (key, digits) = cut(word, b'=');
    if key == b"xid".as_slice() {
        digits
    } else {
        None
    }
}

// The number that one or more octal digits say. `None` where the text is another one, or the number is
// above 32 bits.
fn octal(text: &[u8]) -> Option<u32>
    ensures { result ≡ octal_of text.now }
{
    if text.is_empty() {
        return None;
    }
    let mut number = 0;
    for byte in text {
        number = with_digit(number, *byte)?;
    }
    Some(number)
}

// A number with one more digit.
fn with_digit(number: u32, byte: u8) -> Option<u32>
    ensures { result ≡ octal_more number byte }
{
    if byte < b'0' || byte > b'7' {
        return None;
    }
    number.checked_mul(8)?.checked_add(u32::from(byte - b'0'))
}
