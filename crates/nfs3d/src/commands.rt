//! The commands.

use crate::self_calling::call_self;
use crate::serve::serve_tree;
use log::Log;
use nfs_command_line::invocation::Invocation;
use nfs_command_line::words::{Reported, Words};
use nfs_commands::check::check_file;
use nfs_commands::describing::describe_directories;
use nfs_commands::exports::print_exports;
use nfs_commands::extracting::extract_tree;
use nfs_commands::replay::replay_files;
use nfs_commands::why::print_why;
use nfs_control::asking::control;
use nfs_recovery::journal_work::{do_journal, rerun_journal};
use nfs_source::diagnostic::Diagnostic;
use nfs_source::fault::Fault;
use std::alloc::{AllocError, Global};
use std::fs::File;
use std::mem::forget;
use std::net::{Net, TcpListener, TcpStream};
use std::process::ExitCode;
use std::random::RandomSource;
use std::rt::Files;
use std::time::Clock;

/// Does what the words ask for. What they were read into is not given back, since the process ends.
pub(crate) fn run<R>(rt: &R, alloc: Global, words: &[String]) -> Result<ExitCode, Diagnostic>
where
    R: Files<File = File>
        + Input
        + Print
        + Eprint
        + AllocGlobal
        + Net<Listener = TcpListener, Stream = TcpStream>
        + Clock
        + RandomSource
        + Log,
{
    match Words::read(rt, alloc, words) {
        Ok(words) => {
            let done = answer(rt, alloc, words.request());
            forget(words);
            done
        }
        Err(Reported::All(code)) => Ok(code),
        Err(Reported::Write) => Err(Fault::Write.into()),
        Err(Reported::Memory) => Err(AllocError.into()),
    }
}

// Does one command; nothing where there is none.
fn answer<R>(
    rt: &R,
    alloc: Global,
    request: Option<Invocation<'_, '_>>,
) -> Result<ExitCode, Diagnostic>
where
    R: Files<File = File>
        + Input
        + Print
        + Eprint
        + AllocGlobal
        + Net<Listener = TcpListener, Stream = TcpStream>
        + Clock
        + RandomSource
        + Log,
{
    match request {
        Some(Invocation::Check(words)) => check_file(rt, alloc, words),
        Some(Invocation::Why(words)) => print_why(rt, alloc, words),
        Some(Invocation::Exports(words)) => print_exports(rt, alloc, words.tree()),
        Some(Invocation::Replay(words)) => match words.journal() {
            Some(name) => rerun_journal(rt, alloc, words.tree(), name),
            None => replay_files(rt, alloc, words),
        },
        Some(Invocation::Serve(words)) => serve_tree(rt, alloc, words),
        Some(Invocation::Control(words)) => control(rt, alloc, words),
        Some(Invocation::Describe(words)) => describe_directories(rt, alloc, words),
        Some(Invocation::Extract(words)) => extract_tree(rt, alloc, words),
        Some(Invocation::Journal(words)) => do_journal(rt, alloc, words),
        Some(Invocation::SelfCall(words)) => call_self(rt, alloc, words.tree()),
        None => Ok(ExitCode::SUCCESS),
    }
}
