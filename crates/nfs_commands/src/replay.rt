//! `nfs3d replay`: a script, run over a description.

use crate::live::replay_live;
use nfs_ask::script_fault::ScriptFault;
use nfs_command_line::invocation::Replay;
use nfs_load::loaded::Loaded;
use nfs_named::named::NamedTree;
use nfs_replay::replay::replay;
use nfs_replay::shown::Shown;
use nfs_saving::copies::Copies;
use nfs_server::sessions::Sessions;
use nfs_source::diagnostic::Diagnostic;
use nfs_source::output::fault_of;
use nfs_source::source::Source;
use nfs_xdr::device::Device;
use std::alloc::{AllocError, Global};
use std::fs::File;
use std::io::{self, BufWriter, Write};
use std::mem::forget;
use std::net::{Net, TcpStream};
use std::process::ExitCode;
use std::random::RandomSource;
use std::rt::Files;
use std::time::Clock;

// How much output is written at once.
const RUN_BYTES: usize = 65_536;

/// Runs a script over a description, and saves the tree as it then is where the words ask for it; or plays it against
/// a running server (`replay_live`). The faults of `Copies::of`,
/// `NamedTree::load` and `Copies::save_last`; `CannotRead` and `TooLong` where the script can't be read, `Script` with
/// its first faulty line, `Write` and `Closed` where the output fails, `Memory`.
pub fn replay_files<R>(rt: &R, alloc: Global, words: Replay<'_, '_>) -> Result<ExitCode, Diagnostic>
where
    R: Files<File = File>
        + Input
        + Print
        + Eprint
        + RandomSource
        + AllocGlobal
        + Net<Stream = TcpStream>
        + Clock,
{
    match words.port() {
        Some(port) => replay_live(rt, alloc, words, port),
        None => replay_and_save(rt, alloc, words),
    }
}

// Runs a script over a description, and saves the tree as it then is where the words ask for it.
fn replay_and_save<R>(rt: &R, alloc: Global, words: Replay<'_, '_>) -> Result<ExitCode, Diagnostic>
where
    R: Files<File = File> + Input + Print + Eprint + RandomSource + AllocGlobal,
{
    let copies = Copies::of(rt, alloc, words.save(), words.key())?;
    let loaded = NamedTree::load(rt, alloc, words.tree())?;
    replay_loaded(rt, alloc, loaded, words, &copies)
}

// The same over what was loaded.
fn replay_loaded<R: Files + Input + Print + Eprint + RandomSource>(
    rt: &R,
    alloc: Global,
    loaded: Loaded,
    words: Replay<'_, '_>,
    copies: &Copies<'_>,
) -> Result<ExitCode, Diagnostic> {
    match Source::read(rt, alloc, words.script()) {
        Ok(script) => replay_script(rt, alloc, loaded, &script, words, copies),
        Err(fault) => {
            forget(loaded);
            Err(fault.into())
        }
    }
}

// Runs a script over what was loaded, which is not given back file by file, since the process ends.
fn replay_script<R: Files + Print + Eprint + RandomSource>(
    rt: &R,
    alloc: Global,
    loaded: Loaded,
    script: &Source<'_>,
    words: Replay<'_, '_>,
    copies: &Copies<'_>,
) -> Result<ExitCode, Diagnostic> {
    let sessions = run(rt, alloc, loaded, script, words)?;
    let saved = copies.save_last(rt, alloc, sessions.server(), Ok(()));
    forget(sessions);
    saved?;
    Ok(ExitCode::SUCCESS)
}

// Runs a script, whose lines are printed up to the first faulty one.
fn run<R: Print>(
    rt: &R,
    alloc: Global,
    loaded: Loaded,
    script: &Source<'_>,
    words: Replay<'_, '_>,
) -> Result<Sessions, Diagnostic> {
    match BufWriter::with_capacity(alloc, RUN_BYTES, io::writer(rt)) {
        Ok(lines) => run_into(alloc, loaded, script, words, lines),
        Err(_) => {
            forget(loaded);
            Err(AllocError.into())
        }
    }
}

// The same, with its lines written there.
fn run_into<W: Write + Drop>(
    alloc: Global,
    loaded: Loaded,
    script: &Source<'_>,
    words: Replay<'_, '_>,
    lines: W,
) -> Result<Sessions, Diagnostic> {
    let mut out = Device::new(lines);
    let shown = Shown {
        is_decoded: words.is_decoded(),
        is_named: words.is_named(),
    };
    let cache = words.cache().clamp(1, 1024);
    let done = replay(
        alloc,
        loaded,
        script.text.as_slice(),
        cache,
        shown,
        &mut out,
    );
    let flushed = out.into_inner().flush();
    ended(alloc, script, done, flushed)
}

// The sessions of a script that ran to its end and whose output is written.
fn ended(
    alloc: Global,
    script: &Source<'_>,
    done: Result<Sessions, ScriptFault>,
    flushed: io::Result<()>,
) -> Result<Sessions, Diagnostic> {
    match flushed {
        Ok(()) => match done {
            Ok(sessions) => Ok(sessions),
            Err(fault) => Err(Diagnostic::of_script(alloc, fault, script)),
        },
        Err(error) => {
            forget(done);
            Err(fault_of(error).into())
        }
    }
}
