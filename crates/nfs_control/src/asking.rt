//! `nfs3d control`: a running service is asked, or stopped.

use crate::visit::MOST_LINE_BYTES;
use nfs_command_line::invocation::Control;
use nfs_source::diagnostic::Diagnostic;
use nfs_source::fault::Fault;
use nfs_source::output::print;
use std::alloc::{AllocError, Global};
use std::io::{self, ErrorKind, Read, Write};
use std::net::Net;
use std::os::unix::net::UnixStream;
use std::process::ExitCode;

/// Sends the words to the service whose socket has this path, and prints what it answers, once it has closed the
/// connection. The status is 1 where it refuses them or ended with a fault, which is printed on standard error,
/// and 2 where they are no line. `CannotRead` where the service can't be reached or doesn't answer, `Write` and
/// `Closed` where the output fails, `Memory`.
pub fn control<R: Net + Print + Eprint>(
    rt: &R,
    alloc: Global,
    words: Control<'_, '_>,
) -> Result<ExitCode, Diagnostic> {
    let line = line_of(alloc, words)?;
    if !is_line(line.as_bytes()) {
        let _ = eprintln!(rt;
            "error: WORD and FILE must be one line, of at most {MOST_LINE_BYTES} bytes"
        );
        return Ok(ExitCode::from(2));
    }
    match ask(rt, alloc, words.path(), line.as_bytes()) {
        Ok(answer) => show(rt, answer.as_slice()),
        Err(error) => {
            let name = words.path().to_string(alloc)?;
            Err(Fault::CannotRead { name, error }.into())
        }
    }
}

// The line that is sent, with its end.
fn line_of(alloc: Global, words: Control<'_, '_>) -> Result<String, AllocError> {
    let word = words.word();
    match (words.file(), words.save()) {
        (Some(file), _) => format!(in alloc; "{word} {file}\n"),
        (None, Some(save)) => format!(in alloc; "{word} --save {save}\n"),
        (None, None) => format!(in alloc; "{word}\n"),
    }
}

// Whether bytes are one line that a service takes.
fn is_line(bytes: &[u8]) -> bool {
    match bytes.split_last() {
        Some((_, line)) => line.len() <= MOST_LINE_BYTES && !line.contains(&b'\n'),
        None => false,
    }
}

// What is answered to a line. `UnexpectedEof` where that is nothing.
fn ask<R: Net>(rt: &R, alloc: Global, path: &str, line: &[u8]) -> io::Result<Vec<u8>> {
    let mut stream = UnixStream::connect(rt, path)?;
    stream.write_all(line)?;
    let mut answer = Vec::new(alloc);
    stream.read_to_end(&mut answer)?;
    if answer.is_empty() {
        return Err(io::Error::new(ErrorKind::UnexpectedEof, "the service doesn't answer"));
    }
    Ok(answer)
}

// Whether a line of an answer is a fault.
fn is_refused(answer: &str) -> bool {
    for line in answer.lines() {
        if line.starts_with("error: ") {
            return true;
        }
    }
    false
}

// Prints an answer.
fn show<R: Print + Eprint>(rt: &R, answer: &[u8]) -> Result<ExitCode, Diagnostic> {
    match str::from_utf8(answer) {
        Ok(text) if is_refused(text) => {
            let _ = eprint!(rt; "{text}");
            Ok(ExitCode::from(1))
        }
        _ => {
            print(rt, answer)?;
            Ok(ExitCode::SUCCESS)
        }
    }
}
