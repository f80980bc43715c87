//! The journal of a service, from which a server goes on.

use crate::beginning::next_number;
use crate::journal_file::JournalFile;
use crate::life_text::LifeText;
use crate::recovering::{Recovered, recover};
use nfs_command_line::serve::JournalSync;
use nfs_exports::export_table::ExportTable;
use nfs_journal::file_journal::{FileJournal, Syncing};
use nfs_journal::head::Head;
use nfs_lives::opening::open_server;
use nfs_load::description::load;
use nfs_load::loaded::Loaded;
use nfs_server::server::Server;
use nfs_source::description::Life;
use nfs_source::fault::Fault;
use std::alloc::Global;
use std::fs::File;
use std::rt::Files;
use std::time::Clock;

/// A server, and the journal in which what it answers is noted.
#[derive(Drop)]
pub(crate) struct Journaled<'r, R> {
    /// The server.
    pub(crate) server: Server,
    /// Its journal.
    pub(crate) journal: FileJournal<'r, R, File>,
}

/// The server of a life with a journal in the file of this name. Where there is none, the life begins, and the journal
/// with it; else the server is what it was when the last entry was written. What was not written whole is cut then, with a
/// warning, and of the description the exports alone may be others than before. The faults of `JournalFile::open` and
/// `recover`; `NoTime`; `CannotWrite`; `Memory`.
pub(crate) fn open_journal<'r, R: Files<File = File> + Clock + Eprint>(
    rt: &'r R,
    alloc: Global,
    name: &str,
    sync: JournalSync,
    life: Life,
    cache: usize,
) -> Result<Journaled<'r, R>, Fault> {
    let mut file = JournalFile::open(rt, alloc, name)?;
    let server = journaled_server(rt, alloc, &mut file, life, cache)?;
    let syncing = match sync {
        JournalSync::Round => Syncing::Each,
        JournalSync::Never => Syncing::Never,
    };
    Ok(Journaled {
        server,
        journal: file.into_journal(rt, syncing)?,
    })
}

// The server of a life with this journal, which has its description then.
fn journaled_server<R: Files + Clock + Eprint>(
    rt: &R,
    alloc: Global,
    file: &mut JournalFile<'_, File>,
    life: Life,
    cache: usize,
) -> Result<Server, Fault> {
    file.len()?;
    let text = LifeText::of(alloc, &life.loaded)?;
    let server = match file.head()? {
        Some(head) => go_on(rt, alloc, file, head, life, &text, cache)?,
        None => begin(rt, alloc, file, life, &text, cache)?,
    };
    file.put_description(rt, &text)?;
    Ok(server)
}

// A server whose life begins, with its journal.
fn begin<R: Files + Clock + Eprint>(
    rt: &R,
    alloc: Global,
    file: &mut JournalFile<'_, File>,
    life: Life,
    text: &LifeText,
    cache: usize,
) -> Result<Server, Fault> {
    let next = next_number(rt)?;
    let cache = cache.clamp(1, 1024);
    let Life { loaded, key } = life;
    let head = Head {
        key,
        next,
        cache: cache as u32,
        digest: text.digest,
    };
    file.begin(rt, &head)?;
    file.put_exports(rt, text.heads.as_slice())?;
    Ok(open_server(alloc, loaded, key, next, cache)?)
}

// A server that goes on. Where its description has other exports now, they are in force from here on, which the journal has
// first.
fn go_on<R: Files + Clock + Eprint>(
    rt: &R,
    alloc: Global,
    file: &mut JournalFile<'_, File>,
    head: Head,
    life: Life,
    text: &LifeText,
    cache: usize,
) -> Result<Server, Fault> {
    warn_of_places(rt, file.name(), head.cache, cache);
    let mut recovered = recover(rt, alloc, file, head, life, text)?;
    bring_up_to_date(rt, alloc, file, text, &mut recovered)?;
    let Recovered { server, .. } = recovered;
    Ok(server)
}

// Has the file end with what was written whole, and the exports of the description in force. What was done is said.
fn bring_up_to_date<R: Files + Eprint>(
    rt: &R,
    alloc: Global,
    file: &mut JournalFile<'_, File>,
    text: &LifeText,
    recovered: &mut Recovered,
) -> Result<(), Fault> {
    let (name, entries, unfinished) = (file.name(), recovered.entries, recovered.unfinished);
    let _ = eprintln!(rt; "nfs3d: {name}: {entries} entries run again");
    if unfinished > 0 {
        file.cut()?;
        let _ = eprintln!(rt;
            "nfs3d: warning: {name}: cut {unfinished} bytes after entry {entries}, which were not written whole and not answered"
        );
    }
    if recovered.exports.as_slice() != text.heads.as_slice() {
        recovered.server.set_exports(table_of(alloc, text)?);
        file.put_exports(rt, text.heads.as_slice())?;
        let _ = eprintln!(rt; "nfs3d: {name}: other exports are in force from here on");
    }
    Ok(())
}

// Warns where the words ask for another number of places for cached replies than a journal has.
fn warn_of_places<R: Eprint>(rt: &R, name: &str, places: u32, cache: usize) {
    if cache.clamp(1, 1024) != places as usize {
        let _ = eprintln!(rt;
            "nfs3d: warning: {name}: the journal began with {places} places for cached replies, which it keeps"
        );
    }
}

// The exports of a description of which a journal has this.
fn table_of(alloc: Global, text: &LifeText) -> Result<ExportTable, Fault> {
    let Loaded { table, .. } = load(alloc, text.heads.as_slice())?;
    Ok(table)
}
