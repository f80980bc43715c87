//! `nfs3d describe`: directories on disk, as a description.

use nfs_command_line::invocation::Describe;
use nfs_describe::description::describe;
use nfs_describe::fault::DescribeFault;
use nfs_disk::survey::Purpose;
use nfs_load::loaded::Loaded;
use nfs_named::life::NoDigest;
use nfs_named::shared::SharedDirectories;
use nfs_named::skipped::report_skipped;
use nfs_saving::key::key_of;
use nfs_source::diagnostic::Diagnostic;
use nfs_source::fault::Fault;
use nfs_source::output::fault_of;
use std::alloc::{AllocError, Global};
use std::io::{self, BufWriter, Write};
use std::mem::forget;
use std::process::ExitCode;
use std::random::RandomSource;
use std::rt::Files;

// How much is written at once.
const BUFFER_BYTES: usize = 65_536;

/// Prints the description of the directories that the words name. What is skipped of them is reported on
/// standard error. `CannotRead` where there is no such directory, or the system has no key, `Sharing` where
/// a word is faulty, `Write` and `Closed` where the output fails, `Memory`.
pub fn describe_directories<R: Files + Print + Eprint + RandomSource + AllocGlobal>(
    rt: &R,
    alloc: Global,
    words: Describe<'_, '_>,
) -> Result<ExitCode, Diagnostic> {
    let key = key_of(rt, alloc, words.key())?;
    let trees: Vec<_> = words.directories().collect(alloc)?;
    let purpose = purpose_of(words);
    let shared = SharedDirectories::read(
        rt,
        alloc,
        trees.as_slice(),
        Some(key),
        purpose,
        &mut NoDigest,
    )?;
    report_skipped(rt, shared.warnings.as_slice());
    let printed = print_shared(rt, alloc, words, &shared);
    forget(shared);
    Ok(printed?)
}

fn purpose_of(words: Describe<'_, '_>) -> Purpose {
    if words.has_times() {
        Purpose::Serving
    } else {
        Purpose::Describing
    }
}

// Prints the description. What was loaded is not given back file by file, since the process ends.
fn print_shared<R: Print>(
    rt: &R,
    alloc: Global,
    words: Describe<'_, '_>,
    shared: &SharedDirectories,
) -> Result<ExitCode, Fault> {
    match write_description(alloc, io::writer(rt), &shared.loaded) {
        Ok(()) => Ok(status_of(words, shared)),
        Err(DescribeFault::Write(error)) => Err(fault_of(error)),
        Err(DescribeFault::Memory) => Err(Fault::Memory(AllocError)),
    }
}

// Writes the description of what was loaded.
fn write_description<W: Write + Drop>(
    alloc: Global,
    writer: W,
    loaded: &Loaded,
) -> Result<(), DescribeFault> {
    let Ok(mut out) = BufWriter::with_capacity(alloc, BUFFER_BYTES, writer) else {
        return Err(DescribeFault::Memory);
    };
    describe(
        alloc,
        &mut out,
        &loaded.tree,
        &loaded.table,
        loaded.tree.key(),
    )?;
    match out.flush() {
        Ok(()) => Ok(()),
        Err(error) => Err(DescribeFault::Write(error)),
    }
}

// 1 where something was skipped and nothing may be.
fn status_of(words: Describe<'_, '_>, shared: &SharedDirectories) -> ExitCode {
    if words.is_strict() && shared.is_partial() {
        ExitCode::from(1)
    } else {
        ExitCode::SUCCESS
    }
}
