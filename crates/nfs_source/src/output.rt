//! Standard output.

use crate::fault::Fault;
use std::io::{self, ErrorKind, Write};

/// Prints some bytes. `Closed` where nobody reads them any more, `Write` where they can't be written
/// otherwise.
pub fn print<R: Print>(rt: &R, bytes: &[u8]) -> Result<(), Fault> {
    match io::writer(rt).write_all(bytes) {
        Ok(()) => Ok(()),
        Err(error) => Err(fault_of(error)),
    }
}

/// Why the output can't be written.
pub fn fault_of(error: io::Error) -> Fault {
    if error.kind() == ErrorKind::BrokenPipe {
        Fault::Closed
    } else {
        Fault::Write
    }
}
