//! `nfs3d journal`, and a journal that is run again.
ghost use Rattle.std.specs.Prelude.{◌≡◌, ◌+◌, ◌^◌, ◌<◌, None, length};
ghost use Rattle.nfs_journal.specs.Scanning.{Scans, StopsScan};

use crate::journal_file::{EntryReader, JournalFile};
use crate::life_text::LifeText;
use crate::recovering::{Recovered, recover};
use nfs_command_line::journal::{JournalCommand, JournalWork};
use nfs_command_line::sharing::TreeWords;
use nfs_journal::broken_entry::BrokenEntry;
use nfs_journal::head::{HEAD_BYTES, Head};
use nfs_journal::recovery::RecoveryFault;
use nfs_journal::scan::Scan;
use nfs_named::named::begin_life_of;
use nfs_saving::key::key_of;
use nfs_saving::saved_file::try_place;
use nfs_saving::saving::save;
use nfs_server::server::Server;
use nfs_source::description::load_life;
use nfs_source::diagnostic::Diagnostic;
use nfs_source::fault::Fault;
use nfs_source::journal_fault::JournalFault;
use nfs_source::output::print;
use std::alloc::{AllocError, Global};
use std::fs::File;
use std::mem::forget;
use std::process::ExitCode;
use std::random::RandomSource;
use std::rt::Files;
use std::time::Clock;

/// Does what the words ask for: looks at a journal, cuts it at the first entry that is damaged, or writes the
/// description of the tree that it leads to. `Journal` where it is no journal or is damaged, `CannotRead` and
/// `CannotWrite`, `Write` and `Closed` where the output fails, `Memory`; where a description is written, also the
/// faults of `load_life`.
pub fn do_journal<R>(
    rt: &R,
    alloc: Global,
    words: JournalCommand<'_, '_>,
) -> Result<ExitCode, Diagnostic>
where
    R: Files<File = File> + Input + Print + Eprint + Clock + RandomSource + AllocGlobal,
{
    let line = match words.work() {
        Some(JournalWork::Check(name)) => check(rt, alloc, name)?,
        Some(JournalWork::Cut(name)) => cut(rt, alloc, name)?,
        Some(JournalWork::Compact { tree, journal, new }) => {
            compact(rt, alloc, words.key(), tree, journal, new)?
        }
        None => String::new(alloc),
    };
    print(rt, line.as_bytes())?;
    Ok(ExitCode::SUCCESS)
}

/// Runs the journal of this name again over the tree that the words name, and prints how many entries it has: each of
/// its replies is the one that the rules give. `Journal` where one isn't; the faults of `begin_life` and `recover`;
/// `Write` and `Closed` where the output fails.
pub fn rerun_journal<R>(
    rt: &R,
    alloc: Global,
    tree: TreeWords<'_, '_>,
    name: &str,
) -> Result<ExitCode, Diagnostic>
where
    R: Files<File = File> + Input + Print + Eprint + Clock + AllocGlobal,
{
    let mut file = JournalFile::open_to_read(rt, alloc, name)?;
    let head = head_of(&mut file)?;
    let life = begin_life_of(rt, alloc, &[tree], false)?;
    let text = LifeText::of(alloc, &life.loaded)?;
    let Recovered {
        server,
        entries,
        unfinished,
        ..
    } = recover(rt, alloc, &mut file, head, life, &text)?;
    forget(server);
    print(
        rt,
        ok_line(alloc, entries, file.end(), unfinished)?.as_bytes(),
    )?;
    Ok(ExitCode::SUCCESS)
}

// The head of a journal that has one.
fn head_of(file: &mut JournalFile<'_, File>) -> Result<Head, Fault> {
    file.len()?;
    match file.head()? {
        Some(head) => Ok(head),
        None => Err(file.fault(JournalFault::NoJournal)),
    }
}

impl EntryReader for Scan {
    ghost entries_taken = { λ old bytes new. Scans bytes old new };

    ghost stops = { λ old bytes broken new. old.broken ≡ None → old.end + old.unfinished + length bytes + 1 < 2 ^ 64
        → StopsScan broken bytes old new };

    ghost exports_taken = { λ old lines new. new ≡ old };

    ghost exports_refused = { λ old lines new. ⊥ };

    ghost count = { λ s. s.entries };

    ghost ends_at = { λ s. s.end };

    ghost rest = { λ s. s.unfinished };

    fn take_exports(&mut self, _text: &[u8]) -> Result<bool, Fault> {
        Ok(true)
    }

    fn take(&mut self, bytes: &[u8]) -> Result<(), BrokenEntry> {
        Scan::take(self, bytes)
    }

    fn entries(&self) -> u64 {
        Scan::entries(self)
    }

    fn end(&self) -> u64 {
        Scan::end(self)
    }

    fn unfinished(&self) -> u64 {
        Scan::unfinished(self)
    }
}

// Looks at all entries. What is printed.
fn check<R: Files<File = File>>(rt: &R, alloc: Global, name: &str) -> Result<String, Fault> {
    let mut file = JournalFile::open_to_read(rt, alloc, name)?;
    head_of(&mut file)?;
    let mut scan = Scan::new(alloc, HEAD_BYTES as u64);
    file.read_entries(&mut scan)?;
    let unfinished = file.len()?.saturating_sub(file.end());
    Ok(ok_line(alloc, scan.entries(), file.end(), unfinished)?)
}

// Cuts a journal before the first block of which an entry is damaged. What is printed.
fn cut<R: Files<File = File>>(rt: &R, alloc: Global, name: &str) -> Result<String, Fault> {
    let mut file = JournalFile::open_old(rt, alloc, name)?;
    head_of(&mut file)?;
    let len = file.len()?;
    let mut scan = Scan::new(alloc, HEAD_BYTES as u64);
    match file.break_of(&mut scan)? {
        Some(broken) if broken.fault == RecoveryFault::Memory => return Err(file.broken(broken)),
        _ => {}
    }
    let (entries, lost) = (file.entries(), len.saturating_sub(file.end()));
    if lost == 0 {
        return Ok("nothing to cut\n".to_string(alloc)?);
    }
    file.cut()?;
    Ok(format!(in alloc; "cut {lost} bytes after entry {entries}\n")?)
}

// Writes the description of the tree to which a journal leads, under another key. What is printed.
fn compact<R>(
    rt: &R,
    alloc: Global,
    key: Option<&str>,
    tree: &str,
    journal: &str,
    new: &str,
) -> Result<String, Diagnostic>
where
    R: Files<File = File> + Input + Eprint + Clock + RandomSource,
{
    try_place(rt, alloc, new)?;
    let mut file = JournalFile::open_to_read(rt, alloc, journal)?;
    let Recovered {
        server,
        entries,
        ..
    } = run_again(rt, alloc, &mut file, tree)?;
    let done = save_compacted(rt, alloc, key, new, &server, entries);
    forget(server);
    done
}

// The server of a description after all entries of its journal.
fn run_again<R: Files<File = File> + Input + Eprint + Clock>(
    rt: &R,
    alloc: Global,
    file: &mut JournalFile<'_, File>,
    tree: &str,
) -> Result<Recovered, Diagnostic> {
    let head = head_of(file)?;
    let life = load_life(rt, alloc, tree)?;
    let text = LifeText::of(alloc, &life.loaded)?;
    Ok(recover(rt, alloc, file, head, life, &text)?)
}

// Writes the description of the tree of a server that ran so many entries again. What is printed.
fn save_compacted<R: Files + RandomSource>(
    rt: &R,
    alloc: Global,
    key: Option<&str>,
    new: &str,
    server: &Server,
    entries: u64,
) -> Result<String, Diagnostic> {
    let key = key_of(rt, alloc, key)?;
    let line = format!(in alloc; "compacted {entries} entries into {new}\n")?;
    save(rt, alloc, new, server, Some(key))?;
    Ok(line)
}

// What is said of a journal without a fault.
fn ok_line(alloc: Global, entries: u64, end: u64, unfinished: u64) -> Result<String, AllocError> {
    if unfinished > 0 {
        return format!(in alloc; "ok entries={entries} bytes={end} unfinished={unfinished}\n");
    }
    format!(in alloc; "ok entries={entries} bytes={end}\n")
}
