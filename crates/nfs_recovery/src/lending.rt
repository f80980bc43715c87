//! Servers of descriptions, lent to what uses them.

use crate::beginning::begin;
use crate::exposure::warn_of_open_volumes;
use crate::journal::{Journaled, open_journal};
use nfs_command_line::serve::Serve;
use nfs_journal::file_journal::FileJournal;
use nfs_named::named::begin_life;
use nfs_server::server::Server;
use nfs_source::description::{Life, load_tree};
use nfs_source::diagnostic::Diagnostic;
use std::alloc::Global;
use std::fs::File;
use std::mem::forget;
use std::net::IpAddr;
use std::process::ExitCode;
use std::rt::Files;
use std::time::Clock;

/// What uses a server.
pub trait ServerUse<R> {
    /// Uses it, and the journal in which it is to note what it answers, if there is one. The status and the faults are
    /// those of the command.
    fn run(
        &mut self,
        server: &mut Server,
        journal: Option<FileJournal<'_, R, File>>,
    ) -> Result<ExitCode, Diagnostic>;
}

/// Has the server of what the words name used, whose life begins, or goes on from its journal. It is warned of volumes
/// that are open to whoever reaches this address. The server is not given back file by file, since the process ends. The
/// faults of `begin_life`, of `begin` or `open_journal`, and of the use.
pub fn lend_life<R, U: ServerUse<R>>(
    rt: &R,
    alloc: Global,
    words: Serve<'_, '_>,
    ip: IpAddr,
    using: &mut U,
) -> Result<ExitCode, Diagnostic>
where
    R: Files<File = File> + Input + Eprint + Clock + AllocGlobal,
{
    let life = begin_life(rt, alloc, words.trees(), words.is_strict())?;
    warn_of_open_volumes(rt, ip, &life.loaded);
    match words.journal() {
        Some(name) => lend_journaled(rt, alloc, words, name, life, using),
        None => {
            let server = begin(rt, alloc, life, words.cache())?;
            lend(server, no_journal(rt), using)
        }
    }
}

// The same with the journal of this name.
fn lend_journaled<R: Files<File = File> + Eprint + Clock, U: ServerUse<R>>(
    rt: &R,
    alloc: Global,
    words: Serve<'_, '_>,
    name: &str,
    life: Life,
    using: &mut U,
) -> Result<ExitCode, Diagnostic> {
    let sync = words.journal_sync();
    let Journaled { server, journal } = open_journal(rt, alloc, name, sync, life, words.cache())?;
    lend(server, Some(journal), using)
}

// No journal, of what uses this.
fn no_journal<R>(_rt: &R) -> Option<FileJournal<'_, R, File>> {
    None
}

// Has a server used.
fn lend<R, U: ServerUse<R>>(
    server: Server,
    journal: Option<FileJournal<'_, R, File>>,
    using: &mut U,
) -> Result<ExitCode, Diagnostic> {
    let mut server = server;
    let done = using.run(&mut server, journal);
    forget(server);
    done
}

/// Has the server of the description of this name used, as it is described, with one place for cached
/// replies. It is not given back either. The faults of `load_tree`, `Memory`, and those of the use.
pub fn lend_tree<R: Files + Input, U: ServerUse<R>>(
    rt: &R,
    alloc: Global,
    name: &str,
    using: &mut U,
) -> Result<ExitCode, Diagnostic> {
    let loaded = load_tree(rt, alloc, name)?;
    let server = Server::new(alloc, loaded, 1)?;
    lend(server, no_journal(rt), using)
}
