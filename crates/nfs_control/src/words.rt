//! What a line asks a service for.
ghost use Rattle.std.specs.Prelude.{◌≡◌};
ghost use Rattle.nfs_control.specs.Words.{asked_by, denied_of, further_of, numbered_of, stop_of, word_of};

use nfs_lines::denials::MOST_KEPT;
use nfs_text::number::decimal;
use thiserror::Error;

// How many denied calls are shown where no number is given.
const USUAL_DENIALS: usize = 20;

/// What a service is asked for.
#[derive(Clone, Copy, Debug, PartialEq, Eq)]
pub enum Word<'a> {
    /// How it stands.
    Status,
    /// Who its clients are.
    Clients,
    /// Which clients mount which volumes.
    Mounts,
    /// The last calls that were denied, so many of them.
    Denied(usize),
    /// Its metrics.
    Metrics,
    /// That its description is read again, for the exports.
    Reload,
    /// That its tree is saved: to this file, or else where the service saves it.
    Save(Option<&'a str>),
    /// That it ends, with its tree saved to this file then, if one is named.
    Stop(Option<&'a str>),
}

/// Why a line asks for nothing.
#[derive(Clone, Copy, Debug, PartialEq, Eq, Error)]
pub enum WordFault {
    /// It has more than 4,096 bytes.
    #[error("a line has at most 4096 bytes")]
    TooLong,
    /// It isn't UTF-8.
    #[error("a line is UTF-8")]
    NoText,
    /// It is none of the words.
    #[error("the words are status, clients, mounts, denied, metrics, reload, save and stop")]
    NoSuchWord,
    /// The number of denied calls is none from 1 to 1,024.
    #[error("denied takes a number from 1 to 1024")]
    BadNumber,
}

impl<'a> Word<'a> {
    /// The word of a line: one of `status`, `clients`, `mounts`, `denied`, `metrics`, `reload`, `save` and `stop`;
    /// `denied ` and a number in decimal digits; or `save ` or `stop --save ` and the name of a file, which is the whole
    /// rest of the line.
    /// `BadNumber` where that number is none from 1 to 1,024, `NoSuchWord` for every other line.
    pub fn read(line: &'a str) -> Result<Word<'a>, WordFault>
        ensures { asked_by result ≡ word_of line.entry.now }
    {
        match line {
            "status" => Ok(Word::Status),
            "clients" => Ok(Word::Clients),
            "mounts" => Ok(Word::Mounts),
            "denied" => Ok(Word::Denied(USUAL_DENIALS)),
            "metrics" => Ok(Word::Metrics),
            "reload" => Ok(Word::Reload),
            "save" => Ok(Word::Save(None)),
            "stop" => Ok(Word::Stop(None)),
            _ => Word::read_with(line),
        }
    }

    // A word that something follows.
    fn read_with(line: &'a str) -> Result<Word<'a>, WordFault>
        ensures { asked_by result ≡ further_of line.entry.now }
    {
        if let Some(name) = line.strip_prefix("save ") {
            return Ok(Word::Save(Some(name)));
        }
        match line.strip_prefix("stop ") {
            Some(rest) => Word::read_stop(rest),
            None => Word::read_numbered(line),
        }
    }

    // What follows `stop`.
    fn read_stop(rest: &'a str) -> Result<Word<'a>, WordFault>
        ensures { asked_by result ≡ stop_of rest.entry.now }
    {
        match rest.strip_prefix("--save ") {
            Some(name) => Ok(Word::Stop(Some(name))),
            None => Err(WordFault::NoSuchWord),
        }
    }

    // A word that a number follows.
    fn read_numbered(line: &'a str) -> Result<Word<'a>, WordFault>
        ensures { asked_by result ≡ numbered_of line.entry.now }
    {
        match line.strip_prefix("denied ") {
            Some(number) => read_denied(number),
            None => Err(WordFault::NoSuchWord),
        }
    }
}

// So many denied calls.
fn read_denied<'a>(number: &str) -> Result<Word<'a>, WordFault>
    ensures { asked_by result ≡ denied_of number.now }
{
    match decimal(number.as_bytes(), MOST_KEPT as u64) {
        Some(most) if most > 0 => Ok(Word::Denied(most as usize)),
        _ => Err(WordFault::BadNumber),
    }
}
