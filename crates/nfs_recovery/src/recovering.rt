//! A server becomes again what it was, by its journal.
ghost use Rattle.std.specs.Prelude.{◌≡◌, ◌+◌, ◌^◌, ◌<◌, ℕ, Err, None, Ok, length};
ghost use Rattle.nfs_journal.specs.Recovering.{Advances, Stops};
ghost use Rattle.nfs_load.specs.Descriptions.{Describes};
ghost use Rattle.nfs_load.specs.declared.cause.Cause.{Cause};
ghost use Rattle.nfs_load.specs.declared.load_error.LoadError.TheVariants as error;
ghost use Rattle.nfs_load.specs.declared.loaded.Loaded.{Loaded as Read};
ghost use Rattle.nfs_server.specs.Fits.{with_exports};

use crate::journal_file::{EntryReader, JournalFile};
use crate::life_text::LifeText;
use nfs_journal::broken_entry::BrokenEntry;
use nfs_journal::head::{HEAD_BYTES, Head};
use nfs_journal::recovering::Recovery;
use nfs_lives::opening::open_server;
use nfs_load::description::load;
use nfs_load::load_error::LoadError;
use nfs_load::loaded::Loaded;
use nfs_server::server::Server;
use nfs_source::description::Life;
use nfs_source::fault::Fault;
use nfs_source::journal_fault::JournalFault;
use std::alloc::{AllocError, Global};
use std::fs::File;
use std::time::{Clock, Instant};

/// A server that has run its journal again.
#[derive(Drop)]
pub(crate) struct Recovered {
    /// The server.
    pub(crate) server: Server,
    /// How many entries were run again.
    pub(crate) entries: u64,
    /// The lines of the exports that the journal has last; none where it has none.
    pub(crate) exports: Vec<u8>,
    /// How many bytes stand after the last of them, of a block that was not written whole.
    pub(crate) unfinished: u64,
}

/// The server of this life after all entries of its journal, of which the head was read. Each is judged by the exports that
/// were in force for it; at the end those are that the journal has last. It is reported on standard error once a second how
/// far that is. `CannotRead`; `Journal` where the journal is that of another life, of which this is the text, or an entry is
/// damaged or has another reply; `Memory`.
pub(crate) fn recover<R: Eprint + Clock>(
    rt: &R,
    alloc: Global,
    file: &mut JournalFile<'_, File>,
    head: Head,
    life: Life,
    text: &LifeText,
) -> Result<Recovered, Fault> {
    match fault_of_life(head, life.key, text) {
        None => recover_life(rt, alloc, file, head, life),
        Some(fault) => Err(refusal(alloc, file, fault, text)),
    }
}

// The same where the journal is that of this life.
fn recover_life<R: Eprint + Clock>(
    rt: &R,
    alloc: Global,
    file: &mut JournalFile<'_, File>,
    head: Head,
    life: Life,
) -> Result<Recovered, Fault> {
    let Life { loaded, key } = life;
    let cache = (head.cache as usize).clamp(1, 1024);
    let mut server = open_server(alloc, loaded, key, head.next, cache)?;
    let (entries, exports, unfinished) = rerun(rt, alloc, file, &mut server)?;
    Ok(Recovered {
        server,
        entries,
        exports,
        unfinished,
    })
}

// Why a journal with this head is not that of a life with this key and text; `None` where it is.
fn fault_of_life(head: Head, key: [u8; 8], text: &LifeText) -> Option<JournalFault> {
    if head.key != key {
        Some(JournalFault::OtherKey)
    } else if head.digest != text.digest {
        Some(JournalFault::OtherDescription)
    } else {
        None
    }
}

// That fault of the file.
fn refusal(
    alloc: Global,
    file: &mut JournalFile<'_, File>,
    fault: JournalFault,
    text: &LifeText,
) -> Fault {
    match with_lines(alloc, file, fault, text) {
        Ok(fault) => file.fault(fault),
        Err(fault) => fault,
    }
}

// That fault, with the first line that differs where the journal has the description that it began with.
fn with_lines(
    alloc: Global,
    file: &mut JournalFile<'_, File>,
    fault: JournalFault,
    text: &LifeText,
) -> Result<JournalFault, Fault> {
    let Some(theirs) = file.description()? else {
        return Ok(fault);
    };
    match (text.difference_from(theirs.as_slice()), fault) {
        (Some(difference), _) => Ok(JournalFault::OtherLine {
            theirs: difference.theirs(alloc)?,
            ours: difference.ours(alloc)?,
        }),
        (None, JournalFault::OtherKey) => Ok(JournalFault::OtherOrder),
        (None, fault) => Ok(fault),
    }
}

// Runs all entries again. How many there are, the lines of the exports that the journal has last, and how many bytes stand
// after the last entry.
fn rerun<R: Eprint + Clock>(
    rt: &R,
    alloc: Global,
    file: &mut JournalFile<'_, File>,
    server: &mut Server,
) -> Result<(u64, Vec<u8>, u64), Fault> {
    let mut rerunning = Rerunning {
        rt,
        alloc,
        name: file.name(),
        len: file.len()?,
        server,
        recovery: Recovery::new(alloc, HEAD_BYTES as u64)?,
        exports: Vec::new(alloc),
        began: Instant::now(rt).ok(),
        reported: 0,
    };
    file.read_entries(&mut rerunning)?;
    let unfinished = file.len()?.saturating_sub(file.end());
    let Rerunning {
        recovery,
        exports,
        ..
    } = rerunning;
    Ok((recovery.entries(), exports, unfinished))
}

// Runs entries again.
#[derive(Drop)]
struct Rerunning<'a, R> {
    rt: &'a R,
    alloc: Global,
    name: &'a str,
    // How many bytes the journal has.
    len: u64,
    server: &'a mut Server,
    recovery: Recovery,
    // The lines of the exports that are in force; none before any were read.
    exports: Vec<u8>,
    // When it began, where there is a clock.
    began: Option<Instant>,
    // How many seconds it had taken when it last reported.
    reported: u64,
}

impl<R: Eprint + Clock> EntryReader for Rerunning<'_, R> {
    ghost entries_taken = { λ old bytes new. Advances bytes old.recovery new.recovery old.server.now new.server.now };

    ghost stops = { λ old bytes broken new. old.recovery.broken ≡ None
        → old.recovery.end + old.recovery.unfinished + length bytes + 1 < 2 ^ 64
        → Stops broken bytes old.recovery new.recovery old.server.now new.server.now };

    ghost exports_taken = { λ old lines new. (loaded : Read) × Describes lines (Ok loaded)
        × (new.server.now ≡ with_exports loaded.table old.server.now) × (new.recovery ≡ old.recovery) };

    ghost exports_refused = { λ old lines new. (number : ℕ) × (cause : Cause) × Describes lines (Err (error.Fault number cause))
        × (new ≡ old) };

    ghost count = { λ it. it.recovery.entries };

    ghost ends_at = { λ it. it.recovery.end };

    ghost rest = { λ it. it.recovery.unfinished };

    fn take_exports(&mut self, text: &[u8]) -> Result<bool, Fault> {
        let Loaded { table, .. } = match load(self.alloc, text) {
            Ok(loaded) => loaded,
            Err(LoadError::Memory) => return Err(Fault::Memory(AllocError)),
            Err(LoadError::Fault { .. }) => return Ok(false),
        };
        self.server.set_exports(table);
        let mut exports = Vec::new(self.alloc);
        exports.extend_from_slice(text).map_err(Fault::Memory)?;
        self.exports = exports;
        Ok(true)
    }

    fn take(&mut self, bytes: &[u8]) -> Result<(), BrokenEntry> {
        self.recovery.take(self.server, bytes)?;
        self.report();
        Ok(())
    }

    fn entries(&self) -> u64 {
        self.recovery.entries()
    }

    fn end(&self) -> u64 {
        self.recovery.end()
    }

    fn unfinished(&self) -> u64 {
        self.recovery.unfinished()
    }
}

impl<R: Eprint + Clock> Rerunning<'_, R> {
    // Reports once a second how far it is.
    fn report(&mut self)
        ensures { self.new ≡ record self.old { reported = self.new.reported } }
    {
        let Some(began) = self.began else {
            return;
        };
        let Ok(took) = began.elapsed(self.rt) else {
            return;
        };
        let seconds = took.as_secs();
        if seconds <= self.reported {
            return;
        }
        self.reported = seconds;
        let (name, entries) = (self.name, self.recovery.entries());
        let (end, len) = (self.recovery.end(), self.len);
        let left = seconds_left(seconds, end, len);
        let _ = eprintln!(self.rt;
            "nfs3d: {name}: {entries} entries run again, {end} of {len} bytes, {left} s left"
        );
    }
}

// How many seconds are left, where the first bytes of so many took so long.
fn seconds_left(seconds: u64, bytes: u64, len: u64) -> u64 {
    let left = len.saturating_sub(bytes);
    left.saturating_mul(seconds) / bytes.max(1)
}
