//! Where the lines of a service go.
ghost use Rattle.std.specs.Prelude.{◌≡◌, ◌≢◌, Some, codes, option_map};
ghost use Rattle.nfs_command_line.specs.Given.{IsFlag, text_given};
ghost use Rattle.nfs_lines.specs.declared.wording.WhenFailed.TheVariants.{Count, Refuse};

use nfs_command_line::serve::{AuditFailed, Serve};
use nfs_lines::wording::{WhenFailed, Wording};
use nfs_source::fault::Fault;
use nfs_tcp::line_file::{LineFile, STANDARD_OUTPUT};
use std::alloc::Global;
use std::fs::{File, OpenOptions};
use std::io::{self, Write};
use std::net::Net;
use std::os::fd::{AsRawFd, RawFd};
use std::rt::Files;

/// Standard output. `CannotWrite` where the system has no more files to open.
pub fn output<R: Print + Net>(
    rt: &R,
    alloc: Global,
) -> Result<LineFile<io::Printer<'_, R>>, Fault> {
    line_file(
        rt,
        alloc,
        "standard output",
        io::writer(rt),
        STANDARD_OUTPUT,
    )
}

/// The file of this name, to which lines are appended. `CannotWrite` where the system opens none.
pub fn audit_file<R: Files<File = File> + Net>(
    rt: &R,
    alloc: Global,
    name: &str,
) -> Result<LineFile<File>, Fault> {
    match OpenOptions::new().append(true).create(true).open(rt, name) {
        Ok(file) => {
            let fd = file.as_raw_fd();
            line_file(rt, alloc, name, file, fd)
        }
        Err(error) => cannot_write(alloc, name, error),
    }
}

fn line_file<R: Net, W: Write + Drop>(
    rt: &R,
    alloc: Global,
    name: &str,
    writer: W,
    fd: RawFd,
) -> Result<LineFile<W>, Fault> {
    match LineFile::new(rt, alloc, writer, fd) {
        Ok(file) => Ok(file),
        Err(error) => cannot_write(alloc, name, error),
    }
}

fn cannot_write<T>(alloc: Global, name: &str, error: io::Error) -> Result<T, Fault> {
    Err(Fault::CannotWrite {
        name: name.to_string(alloc)?,
        error,
    })
}

/// How the lines are worded, and which are written.
pub fn wording_of<'a>(words: Serve<'a, '_>) -> Wording<'a>
    ensures times { IsFlag words.entry.words.now (codes "times") result.has_times }
    ensures names { IsFlag words.entry.words.now (codes "names") result.has_names }
    ensures skipped { option_map (λ text. text.now) result.skipped ≡ text_given words.entry.words.now (codes "audit-skip") }
    ensures count { text_given words.entry.words.now (codes "audit-failed") ≡ Some (codes "count") → result.when_failed ≡ Count }
    ensures refuse { text_given words.entry.words.now (codes "audit-failed") ≢ Some (codes "count") → result.when_failed ≡ Refuse }
{
    Wording {
        has_times: words.has_times(),
        has_names: words.is_named(),
        skipped: words.audit_skip(),
        when_failed: match words.audit_failed() {
            AuditFailed::Refuse => WhenFailed::Refuse,
            AuditFailed::Count => WhenFailed::Count,
        },
    }
}
