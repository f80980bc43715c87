//! A fault with what stands after its line.
ghost use Rattle.std.specs.Prelude.{◌≡◌};
ghost use Rattle.nfs_source.specs.Status.{IsReportedAs};
ghost use Rattle.nfs_source.specs.declared.fault.Fault.TheVariants.{Network, Sharing};
ghost use Rattle.nfs_source.specs.declared.sharing_fault.SharingFault.TheVariants.{Option};

use crate::fault::Fault;
use crate::sharing_fault::SharingFault;
use crate::source::Source;
use nfs_advice::advice::Advice;
use nfs_advice::description::advise;
use nfs_advice::script::{advise_again, advise_bytes, advise_file, advise_line};
use nfs_ask::fault::Wanted;
use nfs_ask::script_fault::{LineCause, ScriptFault};
use nfs_load::cause::Cause;
use nfs_load::load_error::LoadError;
use std::alloc::{AllocError, Global};
use std::fmt;
use std::io::{self, ErrorKind};
use std::net::SocketAddr;

// The words of an `ask` line before those that ask for the call: `ask`, the address and the seconds.
const WORDS_BEFORE_CALL: usize = 3;

/// A fault, and the line that says where in a description or a script it is and what would be right.
#[derive(Drop)]
pub struct Diagnostic {
    /// The fault.
    pub fault: Fault,
    advice: Option<String>,
}

impl Diagnostic {
    /// A fault of a description. Without memory for the advice there is none.
    pub fn of_description(alloc: Global, error: LoadError, description: &Source<'_>) -> Diagnostic
        ensures { IsReportedAs error result.fault }
    {
        let advice = match error {
            LoadError::Fault { line, cause } => {
                let advice = advise(description.text.as_slice(), line, cause);
                reported(alloc, description.name, line, advice)
            }
            LoadError::Memory => None,
        };
        Diagnostic {
            fault: error.into(),
            advice,
        }
    }

    /// The same fault with the advice of another reading of its text, where that led to the same fault at the same line.
    pub(crate) fn with_advice_of(self, again: Diagnostic) -> Diagnostic
        ensures { result.fault ≡ self.fault }
    {
        if !is_same_line(&self.fault, &again.fault) {
            return self;
        }
        Diagnostic {
            fault: self.fault,
            advice: again.advice,
        }
    }

    /// A fault of an option that says how a directory is shared, with the line that the option makes in these first
    /// lines of a description, and what would be right there. Without memory for that there is none.
    pub fn of_option(alloc: Global, head: &[u8], line: u64, cause: Cause) -> Diagnostic
        ensures { result.fault ≡ Sharing (Option line cause) }
    {
        let advice = match str::from_utf8(line_of(head, line)) {
            Ok(text) => {
                let advice = advise(head, line, cause);
                format!(in alloc; "\n  {text}\n  column {advice}").ok()
            }
            Err(_) => None,
        };
        Diagnostic {
            fault: Fault::Sharing(SharingFault::Option { line, cause }),
            advice,
        }
    }

    /// An address that can't be listened at, with what to do. Without memory for that there is none.
    pub fn of_listening(alloc: Global, address: SocketAddr, error: io::Error) -> Diagnostic
        ensures { result.fault ≡ Network address error }
    {
        let advice = listening_advice(alloc, error.kind());
        Diagnostic {
            fault: Fault::Network { address, error },
            advice,
        }
    }

    /// A fault of what is saved, with what to do. Without memory for that there is none.
    pub fn of_saving(alloc: Global, fault: Fault) -> Diagnostic
        ensures { result.fault ≡ fault }
    {
        let advice = match &fault {
            Fault::CannotWrite { error, .. } => saving_advice(alloc, error.kind()),
            _ => None,
        };
        Diagnostic { fault, advice }
    }

    /// Reports it on standard error, unless nobody listens.
    pub fn report<R: Eprint>(&self, rt: &R) {
        match self.fault {
            Fault::Closed => {}
            _ => {
                let _ = eprintln!(rt; "{self}");
            }
        }
    }

    /// A fault of a script. Without memory for the advice there is none.
    pub fn of_script(alloc: Global, fault: ScriptFault, script: &Source<'_>) -> Diagnostic {
        let advice = match fault {
            ScriptFault::Line { line, cause } => {
                script_advice(alloc, script.name, script.text.as_slice(), line, cause)
            }
            ScriptFault::Write | ScriptFault::Memory => None,
        };
        Diagnostic {
            fault: fault.into(),
            advice,
        }
    }
}

// Whether two faults are the same one of the same line of a description.
fn is_same_line(one: &Fault, other: &Fault) -> bool {
    match (one, other) {
        (
            Fault::Description { line, cause },
            Fault::Description {
                line: other_line,
                cause: other_cause,
            },
        ) => line == other_line && cause == other_cause,
        _ => false,
    }
}

// The line after that of an address that can't be listened at.
fn listening_advice(alloc: Global, kind: ErrorKind) -> Option<String> {
    let cure = match kind {
        ErrorKind::PermissionDenied => {
            "a port below 1024 takes root or CAP_NET_BIND_SERVICE; --port names another"
        }
        ErrorKind::AddrInUse => "another program listens there; --port names another port",
        ErrorKind::AddrNotAvailable => {
            "this machine doesn't have that address; --listen names another"
        }
        _ => return None,
    };
    format!(in alloc; "\n  {cure}").ok()
}

// The line after that of a file that can't be written.
fn saving_advice(alloc: Global, kind: ErrorKind) -> Option<String> {
    let cure = match kind {
        ErrorKind::NotFound => "make its directory, or name a file elsewhere",
        ErrorKind::PermissionDenied | ErrorKind::ReadOnlyFilesystem => {
            "name a file in a directory that you may write to"
        }
        ErrorKind::StorageFull | ErrorKind::QuotaExceeded | ErrorKind::FileTooLarge => {
            "make room there, or name a file elsewhere"
        }
        ErrorKind::IsADirectory => "name a file, or one that doesn't exist yet",
        _ => return None,
    };
    format!(in alloc; "\n  {cure}").ok()
}

// The line after that of a script's fault.
fn script_advice(
    alloc: Global,
    name: &str,
    script: &[u8],
    line: u64,
    cause: LineCause,
) -> Option<String> {
    match cause {
        LineCause::BadLine => reported(alloc, name, line, advise_line(script, line)),
        LineCause::BadHex => reported(alloc, name, line, advise_bytes(script, line)),
        LineCause::NoHandle => reported(alloc, name, line, advise_file(script, line)),
        LineCause::NoCall => reported(alloc, name, line, advise_again(script, line)),
        LineCause::NotLive => not_live(alloc, name, line),
        _ if ends_in_return(line_of(script, line)) => {
            reported(alloc, name, line, advise_line(script, line))
        }
        LineCause::BadWord(word, wanted) => wanted_at(alloc, name, script, line, word, wanted),
        LineCause::NoFile(word) => wanted_at(alloc, name, script, line, word, Wanted::File),
    }
}

// Which lines may be played against another server.
fn not_live(alloc: Global, name: &str, line: u64) -> Option<String> {
    format!(in alloc;
        "\n  {name}:{line}:1: with --port, a script has ask, call and again lines"
    ).ok()
}

// Whether a line ends with a carriage return, which a word of an `ask` line takes in.
fn ends_in_return(line: &[u8]) -> bool {
    line.ends_with(b"\r")
}

// The line of this number, from 1; no bytes where there is none.
fn line_of(script: &[u8], line: u64) -> &[u8] {
    let mut lines = script.split(|b| *b == b'\n');
    match lines.nth(line.saturating_sub(1) as usize) {
        Some(text) => text,
        None => &[],
    }
}

// What is wanted in the place of a word of an `ask` line.
fn wanted_at(
    alloc: Global,
    name: &str,
    script: &[u8],
    line: u64,
    word: usize,
    wanted: Wanted,
) -> Option<String> {
    let column = column_of(script, line, word.saturating_add(WORDS_BEFORE_CALL));
    format!(in alloc; "\n  {name}:{line}:{column}: {wanted}").ok()
}

// The column of a word of a line, from 1; after the line where it has not so many.
fn column_of(script: &[u8], line: u64, word: usize) -> usize {
    let text = line_of(script, line);
    let mut left = word;
    let mut is_after_space = true;
    for (index, byte) in text.iter().enumerate() {
        let is_space = *byte == b' ';
        if is_after_space && !is_space {
            if left == 0 {
                return index.saturating_add(1);
            }
            left -= 1;
        }
        is_after_space = is_space;
    }
    text.len().saturating_add(1)
}

// The line after that of a fault.
fn reported(alloc: Global, name: &str, line: u64, advice: Advice<'_>) -> Option<String> {
    format!(in alloc; "\n  {name}:{line}:{advice}").ok()
}

impl fmt::Display for Diagnostic {
    fn fmt<W: fmt::Write>(&self, f: &mut fmt::Formatter<W>) -> fmt::Result {
        write!(f, "{}", self.fault)?;
        match &self.advice {
            Some(advice) => f.write_str(advice.as_str()),
            None => Ok(()),
        }
    }
}

impl From<Fault> for Diagnostic {
    ghost from_gives = { λ fault it. it.fault ≡ fault };

    fn from(fault: Fault) -> Diagnostic {
        Diagnostic {
            fault,
            advice: None,
        }
    }
}

impl From<AllocError> for Diagnostic {
    ghost use Rattle.std.specs.Prelude.{◌≡◌};
    ghost use Rattle.nfs_source.specs.declared.fault.Fault.TheVariants.{Memory};

    ghost from_gives = { λ error it. it.fault ≡ Memory error };

    fn from(error: AllocError) -> Diagnostic {
        Diagnostic {
            fault: Fault::Memory(error),
            advice: None,
        }
    }
}
