//! The file of a journal.
ghost use Rattle.std.specs.Prelude.{◌≡◌, ◌≤◌, ◌<◌, ◌+◌, ◌-◌, ◌^◌, ℕ, List, None, length, IfErr, IfOk, IfSome, IsFalse, IsTrue, OnOk, drop, false, ◌++◌};
ghost use Rattle.nfs_recovery.specs.JournalFiles.{AllTaken, BreaksAfter, BreaksBlock, EntriesBreak, ExportsBreak};
ghost use Rattle.nfs_recovery.specs.JournalFiles.{ReadsAll, StandsNext, TakesBlock, capped, damaged_at, placed_in};
ghost use Rattle.nfs_journal.specs.Blocks.{block_text};
ghost use Rattle.nfs_journal.specs.Heads.{head_record};
ghost use Rattle.nfs_journal.specs.NextBlock.{AreZeros};
ghost use Rattle.nfs_journal.specs.declared.broken_entry.BrokenEntry.{BrokenEntry};
ghost use Rattle.nfs_server.specs.Entries.{checked};
ghost use Rattle.nfs_source.specs.Status.{status_of};
ghost use Rattle.nfs_xdr.specs.Known.{Grows, Shrinks};

use crate::life_text::LifeText;
use nfs_journal::block::{
    BLOCK_HEADER_BYTES, BlockHeader, BlockKind, DESCRIPTION_NUMBER, MOST_BLOCK_BYTES, decode_lines,
    encode_header, encode_lines,
};
use nfs_journal::broken_entry::BrokenEntry;
use nfs_journal::file_journal::{FileJournal, Syncing};
use nfs_journal::head::{HEAD_BYTES, Head, HeadFault, decode_head, encode_head};
use nfs_journal::next_block::{Next, ReadFault, are_zeros, fill, read_block};
use nfs_journal::recovery::RecoveryFault;
use nfs_journal::scan::Scan;
use nfs_saving::saved_file::{cannot_write, sync_directory};
use nfs_server::entry::CHECKSUM_BYTES;
use nfs_source::fault::Fault;
use nfs_source::journal_fault::JournalFault;
use nfs_xdr::output::Output;
use std::alloc::{AllocError, Global};
use std::fs::{File, OpenFile, OpenOptions, TryLockError};
use std::io::{self, ErrorKind, Read, Write};
use std::rt::Files;

/// What reads a journal, block by block.
pub(crate) trait EntryReader {
    /// That it took entries, of which the last may be unfinished.
    ghost entries_taken: { Self → List ℕ → Self → Type 0 };

    /// That it took entries up to one that is at fault.
    ghost stops: { Self → List ℕ → BrokenEntry → Self → Type 0 };

    /// That it took the first lines of a description.
    ghost exports_taken: { Self → List ℕ → Self → Type 0 };

    /// That it refused lines, which are no such ones.
    ghost exports_refused: { Self → List ℕ → Self → Type 0 };

    /// How many entries were read.
    ghost count: { Self → ℕ };

    /// The offset after the last of them.
    ghost ends_at: { Self → ℕ };

    /// How many bytes stand after it.
    ghost rest: { Self → ℕ };

    /// Takes the first lines of a description, whose exports are in force for the entries that follow. Whether they are
    /// such lines; `Memory`.
    fn take_exports(&mut self, text: &[u8]) -> Result<bool, Fault>
        ensures taken { IfOk result (λ is. IsTrue is → exports_taken self.old text.now self.new) }
        ensures refused { IfOk result (λ is. IsFalse is → exports_refused self.old text.now self.new) };

    /// Takes the bytes of the next block. The first entry that is at fault, with which nothing more is read.
    fn take(&mut self, bytes: &[u8]) -> Result<(), BrokenEntry>
        ensures taken { OnOk result (entries_taken self.old bytes.now self.new) }
        ensures stops { IfErr result (λ broken. stops self.old bytes.now broken self.new) };

    /// How many entries were read.
    fn entries(&self) -> u64
        ensures { result ≡ count self.now };

    /// The offset after the last of them, among the bytes of entries alone.
    fn end(&self) -> u64
        ensures { result ≡ ends_at self.now };

    /// How many bytes stand after the last of them.
    fn unfinished(&self) -> u64
        ensures { result ≡ rest self.now };
}

/// The file of a journal, which no other server has.
#[derive(Drop)]
pub(crate) struct JournalFile<'a, F> {
    alloc: Global,
    name: &'a str,
    file: F,
    // Where the last block ends that was read.
    end: u64,
    // The number of the next one.
    next: u64,
    // How many entries were read up to there.
    entries: u64,
}

impl<'a> JournalFile<'a, File> {
    // Nothing of it was read.
    fn of(alloc: Global, name: &'a str, file: File) -> JournalFile<'a, File> {
        JournalFile {
            alloc,
            name,
            file,
            end: HEAD_BYTES as u64,
            next: 1,
            entries: 0,
        }
    }

    /// The file of this name, which is made where there is none. `CannotWrite` where the system doesn't open it,
    /// `Journal` where another server has it, `Memory`.
    pub(crate) fn open<R: Files<File = File>>(
        rt: &R,
        alloc: Global,
        name: &'a str,
    ) -> Result<JournalFile<'a, File>, Fault> {
        let mut options = OpenOptions::new();
        options.read(true).append(true).create(true);
        JournalFile::open_with(rt, alloc, name, &options)
    }

    /// The same of a file that is there.
    pub(crate) fn open_old<R: Files<File = File>>(
        rt: &R,
        alloc: Global,
        name: &'a str,
    ) -> Result<JournalFile<'a, File>, Fault> {
        let mut options = OpenOptions::new();
        options.read(true).append(true);
        JournalFile::open_with(rt, alloc, name, &options)
    }

    // The file, locked.
    fn open_with<R: Files<File = File>>(
        rt: &R,
        alloc: Global,
        name: &'a str,
        options: &OpenOptions,
    ) -> Result<JournalFile<'a, File>, Fault> {
        let file = match options.open(rt, name) {
            Ok(file) => file,
            Err(error) => return Err(cannot_write(alloc, name, error)),
        };
        match file.try_lock() {
            Ok(()) => Ok(JournalFile::of(alloc, name, file)),
            Err(TryLockError::WouldBlock) => Err(Fault::of_journal(
                alloc,
                name,
                JournalFault::InUse,
            )),
            Err(TryLockError::Error(error)) => Err(cannot_write(alloc, name, error)),
        }
    }

    /// The file of this name for reading alone. `CannotRead` where the system doesn't open it, `Journal` where a
    /// server has it, `Memory`.
    pub(crate) fn open_to_read<R: Files<File = File>>(
        rt: &R,
        alloc: Global,
        name: &'a str,
    ) -> Result<JournalFile<'a, File>, Fault> {
        let file = match OpenOptions::new().read(true).open(rt, name) {
            Ok(file) => file,
            Err(error) => return Err(cannot_read(alloc, name, error)),
        };
        match file.try_lock_shared() {
            Ok(()) => Ok(JournalFile::of(alloc, name, file)),
            Err(TryLockError::WouldBlock) => Err(Fault::of_journal(
                alloc,
                name,
                JournalFault::InUse,
            )),
            Err(TryLockError::Error(error)) => Err(cannot_read(alloc, name, error)),
        }
    }

    /// The journal itself, still locked, to which blocks are appended from now on.
    /// `Memory`.
    pub(crate) fn into_journal<R>(
        self,
        rt: &R,
        syncing: Syncing,
    ) -> Result<FileJournal<'_, R, File>, AllocError>
        ensures { IfOk result (λ it. (it.next ≡ self.entry.next) × (it.len ≡ self.entry.end) × (it.failed ≡ false)) }
    {
        let JournalFile {
            alloc,
            file,
            end,
            next,
            ..
        } = self;
        FileJournal::new(rt, alloc, file, syncing, end, next)
    }
}

impl<'a, F: Read + Write + OpenFile> JournalFile<'a, F> {
    /// How many bytes it has. `CannotRead` where the system doesn't say it, or where it is no regular file, `Memory`.
    pub(crate) fn len(&self) -> Result<u64, Fault> {
        match self.file.metadata() {
            Ok(metadata) if metadata.is_file() => Ok(metadata.len()),
            Ok(_) => {
                let error = io::Error::new(ErrorKind::InvalidInput, "it is not a regular file");
                Err(self.cannot_read(error))
            }
            Err(error) => Err(self.cannot_read(error)),
        }
    }

    /// Its head, which is read first; `None` where nothing but the beginning of one was written. `CannotRead`,
    /// `Journal` where that is no head of this version, `Memory`.
    pub(crate) fn head(&mut self) -> Result<Option<Head>, Fault>
        ensures head { IfOk result (λ found. IfSome found (λ head. Shrinks (F.remaining self.old.file) (head_record head) (F.remaining self.new.file))) }
        ensures rest { self.new ≡ record self.old { file = self.new.file } }
    {
        let mut bytes = [0; HEAD_BYTES];
        let len = match fill(&mut self.file, &mut bytes) {
            Ok(len) => len,
            Err(error) => return Err(self.cannot_read(error)),
        };
        match decode_head(&bytes[..len]) {
            Ok(head) => Ok(Some(head)),
            Err(HeadFault::Unfinished) => Ok(None),
            Err(HeadFault::NoJournal) => Err(self.fault(JournalFault::NoJournal)),
            Err(HeadFault::OtherVersion(version)) => {
                Err(self.fault(JournalFault::OtherVersion(version)))
            }
            Err(HeadFault::Damaged) => Err(self.fault(JournalFault::DamagedHead)),
        }
    }

    /// Reads all blocks after the head, up to the end or to a block that was not written whole. `CannotRead`, `Journal`
    /// with the first entry that is at fault, `Memory`.
    pub(crate) fn read_entries<E: EntryReader>(&mut self, entries: &mut E) -> Result<(), Fault>
        ensures { OnOk result (ReadsAll (AllTaken E.entries_taken E.rest) E.exports_taken self.old.next (F.remaining self.old.file)
            entries.old entries.new self.new.next) }
    {
        match self.break_of(entries)? {
            Some(broken) => Err(self.broken(broken)),
            None => Ok(()),
        }
    }

    /// The same; the first entry that is at fault, if one is.
    pub(crate) fn break_of<E: EntryReader>(
        &mut self,
        entries: &mut E,
    ) -> Result<Option<BrokenEntry>, Fault>
        ensures all { IfOk result (λ broken. broken ≡ None → ReadsAll (AllTaken E.entries_taken E.rest) E.exports_taken self.old.next
            (F.remaining self.old.file) entries.old entries.new self.new.next) }
        ensures breaks { IfOk result (λ found. IfSome found (λ broken. BreaksAfter (AllTaken E.entries_taken E.rest) E.exports_taken
            (BreaksBlock (EntriesBreak E.entries_taken E.stops E.count E.ends_at E.rest) E.exports_refused E.count E.ends_at) E.count
            self.old.next self.old.end (F.remaining self.old.file) entries.old entries.new broken self.new.next self.new.end)) }
    {
        let mut bytes = Vec::new(self.alloc);
        while self.next < u64::MAX {
            let kind = match self.next_block(&mut bytes)? {
                Next::Block(kind) => kind,
                Next::End => return Ok(None),
                Next::Damaged => break,
            };
            let broken = self.hand_on(kind, bytes.as_slice(), entries)?;
            if broken.is_some() {
                return Ok(broken);
            }
            self.pass(bytes.len(), entries.entries());
        }
        Ok(Some(self.damaged(entries)))
    }

    // Has the bytes of a block taken. The first entry that is at fault, if one is.
    fn hand_on<E: EntryReader>(
        &self,
        kind: BlockKind,
        bytes: &[u8],
        entries: &mut E,
    ) -> Result<Option<BrokenEntry>, Fault>
        ensures takes { IfOk result (λ broken. broken ≡ None → TakesBlock (AllTaken E.entries_taken E.rest) E.exports_taken kind bytes.now
            entries.old entries.new) }
        ensures breaks { IfOk result (λ found. IfSome found (λ broken.
            BreaksBlock (EntriesBreak E.entries_taken E.stops E.count E.ends_at E.rest) E.exports_refused E.count E.ends_at
            self.now.end kind bytes.now entries.old broken entries.new)) }
    {
        let is_whole = match kind {
            BlockKind::Entries => return Ok(self.hand_on_entries(bytes, entries)),
            BlockKind::Exports => hand_on_exports(bytes, entries)?,
            // Its checksum is looked at where it is shown, since nothing else depends on it.
            BlockKind::Description => true,
        };
        if is_whole {
            Ok(None)
        } else {
            Ok(Some(self.damaged(entries)))
        }
    }

    // Has entries taken. The first that is at fault, if one is: one that is not whole where its block ends is.
    fn hand_on_entries<E: EntryReader>(&self, bytes: &[u8], entries: &mut E) -> Option<BrokenEntry>
        ensures takes { result ≡ None → AllTaken E.entries_taken E.rest entries.old bytes.now entries.new }
        ensures breaks { IfSome result (λ broken. (fault : BrokenEntry) × EntriesBreak E.entries_taken E.stops E.count E.ends_at E.rest
            entries.old bytes.now fault entries.new × (broken ≡ placed_in self.now.end (E.ends_at entries.old) fault)) }
    {
        let start = entries.end();
        let broken = match entries.take(bytes) {
            Ok(()) if entries.unfinished() == 0 => return None,
            Ok(()) => damaged_entry(entries.entries(), entries.end()),
            Err(broken) => broken,
        };
        Some(self.placed(broken, start))
    }

    // The block that is next, as damaged.
    fn damaged<E: EntryReader>(&self, entries: &E) -> BrokenEntry
        ensures { result ≡ damaged_at (E.count entries.now) self.now.end }
    {
        damaged_entry(entries.entries(), self.end)
    }

    // A fault of an entry of the block that is next, whose offset is counted from the beginning of the block, which has this
    // one.
    fn placed(&self, broken: BrokenEntry, start: u64) -> BrokenEntry
        ensures { result ≡ placed_in self.now.end start broken }
    {
        let before = self.end.saturating_add(BLOCK_HEADER_BYTES as u64);
        let within = broken.offset.saturating_sub(start);
        BrokenEntry {
            offset: before.saturating_add(within),
            ..broken
        }
    }

    // Goes over the block that is next, which has so many bytes, and with which so many entries were read.
    fn pass(&mut self, len: usize, entries: u64)
        ensures { self.new ≡ record self.old { end = capped (self.old.end + (BLOCK_HEADER_BYTES + len)); next = capped (self.old.next + 1); entries = entries } }
    {
        let len = (len as u64).saturating_add(BLOCK_HEADER_BYTES as u64);
        self.end = self.end.saturating_add(len);
        self.next = self.next.saturating_add(1);
        self.entries = entries;
    }

    // Reads what is next, and the bytes of a block.
    fn next_block(&mut self, bytes: &mut Vec<u8>) -> Result<Next, Fault>
        ensures next { IfOk result (λ next. StandsNext next self.old.next (F.remaining self.old.file) bytes.new.items (F.remaining self.new.file)) }
        ensures rest { self.new ≡ record self.old { file = self.new.file } }
    {
        let next = match read_block(&mut self.file, self.next, bytes) {
            Ok(next) => next,
            Err(fault) => return Err(self.not_read(fault)),
        };
        let Next::Block(kind) = next else {
            return Ok(next);
        };
        if self.is_torn(kind, bytes.as_slice())? {
            Ok(Next::End)
        } else {
            Ok(next)
        }
    }

    // Whether this block, which is next, was not written whole: where it stands last, and has zeros in the place of its last
    // bytes.
    fn is_torn(&self, kind: BlockKind, bytes: &[u8]) -> Result<bool, Fault>
        ensures { IfOk result (λ is. IsTrue is → AreZeros (drop (length bytes.now - CHECKSUM_BYTES) bytes.now)) }
    {
        if !self.is_last(bytes.len())? || is_whole(self.alloc, kind, bytes)? {
            return Ok(false);
        }
        let start = bytes.len().saturating_sub(CHECKSUM_BYTES);
        Ok(are_zeros(&bytes[start..]))
    }

    // Whether nothing stands after the block that is next, which has so many bytes.
    fn is_last(&self, len: usize) -> Result<bool, Fault> {
        let before = self.end.saturating_add(BLOCK_HEADER_BYTES as u64);
        Ok(before.saturating_add(len as u64) >= self.len()?)
    }

    /// The fault of an entry.
    pub(crate) fn broken(&self, broken: BrokenEntry) -> Fault
        ensures { status_of result ≡ 3 }
    {
        let BrokenEntry {
            entry,
            offset,
            fault,
        } = broken;
        match fault {
            RecoveryFault::BadEntry => self.fault(JournalFault::BadEntry { entry, offset }),
            RecoveryFault::OtherReply => self.fault(JournalFault::OtherReply { entry, offset }),
            RecoveryFault::Memory => Fault::Memory(AllocError),
        }
    }

    /// Begins a journal with this head, once it is on disk with its name. `CannotWrite` where the system refuses
    /// that, `Memory`.
    pub(crate) fn begin<R: Files>(&mut self, rt: &R, head: &Head) -> Result<(), Fault> {
        let mut out = Output::new(self.alloc, HEAD_BYTES)?;
        encode_head(&mut out, head);
        self.set_len(0)?;
        match self.write(rt, out.bytes()) {
            Ok(()) => Ok(()),
            Err(error) => Err(self.cannot_write(error)),
        }
    }

    /// Appends a block that puts the exports in force that these first lines of a description have, once it is on disk.
    /// `CannotWrite` where the system refuses that, `Journal` where they are too long for a block, `Memory`.
    pub(crate) fn put_exports<R: Files>(&mut self, rt: &R, text: &[u8]) -> Result<(), Fault> {
        let most = MOST_BLOCK_BYTES - CHECKSUM_BYTES;
        if text.len() > most {
            return Err(self.fault(JournalFault::LongExports { most }));
        }
        self.put_lines(rt, BlockKind::Exports, text)
    }

    /// Appends a block with the description, if it has at most `MOST_DESCRIPTION_BYTES` bytes and the journal nothing but
    /// the exports with which it began. `CannotWrite` where the system refuses that, `Memory`.
    pub(crate) fn put_description<R: Files>(
        &mut self,
        rt: &R,
        text: &LifeText,
    ) -> Result<(), Fault> {
        match text.description() {
            Some(lines) if self.next == DESCRIPTION_NUMBER => {
                self.put_lines(rt, BlockKind::Description, lines)
            }
            _ => Ok(()),
        }
    }

    // Appends a block with lines of a description.
    fn put_lines<R: Files>(&mut self, rt: &R, kind: BlockKind, lines: &[u8]) -> Result<(), Fault>
        requires { length lines.now + CHECKSUM_BYTES ≤ MOST_BLOCK_BYTES }
        ensures written { OnOk result (Grows (F.contents self.old.file) (block_text self.old.next (record { kind = kind; bytes = checked lines.now })) (F.contents self.new.file)) }
        ensures next { OnOk result (self.new.next ≡ capped (self.old.next + 1)) }
    {
        let len = lines.len() + CHECKSUM_BYTES;
        let mut out = Output::new(self.alloc, BLOCK_HEADER_BYTES + len)?;
        let header = BlockHeader {
            kind,
            number: self.next,
            len: len as u32,
        };
        encode_header(&mut out, header);
        encode_lines(&mut out, lines);
        match self.write(rt, out.bytes()) {
            Ok(()) => {
                self.pass(len, self.entries);
                Ok(())
            }
            Err(error) => Err(self.cannot_write(error)),
        }
    }

    /// The description without its exports that the journal began with, before any block was read; `None` where it has
    /// none. `CannotRead`, `Memory`.
    pub(crate) fn description(&mut self) -> Result<Option<Vec<u8>>, Fault> {
        let mut bytes = Vec::new(self.alloc);
        if self.next_block(&mut bytes)? != Next::Block(BlockKind::Exports) {
            return Ok(None);
        }
        self.pass(bytes.len(), 0);
        if self.next_block(&mut bytes)? != Next::Block(BlockKind::Description) {
            return Ok(None);
        }
        let Some(lines) = decode_lines(bytes.as_slice()) else {
            return Ok(None);
        };
        let len = lines.len();
        bytes.truncate(len);
        Ok(Some(bytes))
    }

    // Appends bytes, and has them on disk, with the name of the file.
    fn write<R: Files>(&mut self, rt: &R, bytes: &[u8]) -> io::Result<()>
        ensures written { OnOk result (Grows (F.contents self.old.file) bytes.now (F.contents self.new.file)) }
        ensures rest { self.new ≡ record self.old { file = self.new.file } }
    {
        self.file.write_all(bytes)?;
        self.file.sync_all()?;
        sync_directory(rt, self.name)
    }

    /// Cuts all that stands after the blocks that were read. `CannotWrite` where the system refuses that, `Memory`.
    pub(crate) fn cut(&mut self) -> Result<(), Fault> {
        let end = self.end;
        self.set_len(end)
    }

    fn set_len(&self, len: u64) -> Result<(), Fault> {
        match set_len(&self.file, len) {
            Ok(()) => Ok(()),
            Err(error) => Err(self.cannot_write(error)),
        }
    }

    /// How many entries the blocks have that were read.
    pub(crate) fn entries(&self) -> u64
        ensures { result ≡ self.now.entries }
    {
        self.entries
    }

    /// Where the last block ends that was read; where none was, the head.
    pub(crate) fn end(&self) -> u64
        ensures { result ≡ self.now.end }
    {
        self.end
    }

    /// Its name.
    pub(crate) fn name(&self) -> &'a str {
        self.name
    }

    /// A fault of it.
    pub(crate) fn fault(&self, fault: JournalFault) -> Fault
        ensures { status_of result ≡ 3 }
    {
        Fault::of_journal(self.alloc, self.name, fault)
    }

    fn not_read(&self, fault: ReadFault) -> Fault {
        match fault {
            ReadFault::System(error) => self.cannot_read(error),
            ReadFault::Memory(error) => Fault::Memory(error),
        }
    }

    fn cannot_read(&self, error: io::Error) -> Fault {
        cannot_read(self.alloc, self.name, error)
    }

    fn cannot_write(&self, error: io::Error) -> Fault {
        cannot_write(self.alloc, self.name, error)
    }
}

// The entry after so many, as damaged, at this offset.
fn damaged_entry(entries: u64, offset: u64) -> BrokenEntry
    ensures { result ≡ damaged_at entries offset }
{
    BrokenEntry {
        entry: entries.saturating_add(1),
        offset,
        fault: RecoveryFault::BadEntry,
    }
}

// Has the lines of exports taken. Whether their checksum is right, and they are such lines.
fn hand_on_exports<E: EntryReader>(bytes: &[u8], entries: &mut E) -> Result<bool, Fault>
    ensures takes { IfOk result (λ is. IsTrue is → TakesBlock (AllTaken E.entries_taken E.rest) E.exports_taken BlockKind.Exports bytes.now
        entries.old entries.new) }
    ensures breaks { IfOk result (λ is. IsFalse is → ExportsBreak E.exports_refused entries.old bytes.now entries.new) }
{
    match decode_lines(bytes) {
        Some(lines) => entries.take_exports(lines),
        None => Ok(false),
    }
}

// Whether the bytes of a block have their checksums. A description without its own may be left, unless it ends with zeros, as
// one does that was not written whole. `Memory`.
fn is_whole(alloc: Global, kind: BlockKind, bytes: &[u8]) -> Result<bool, Fault> {
    match kind {
        BlockKind::Entries => are_entries(alloc, bytes),
        BlockKind::Exports => Ok(decode_lines(bytes).is_some()),
        BlockKind::Description => Ok(
            decode_lines(bytes).is_some() || !bytes.ends_with(&[0; CHECKSUM_BYTES]),
        ),
    }
}

// Whether these are entries, and nothing else. `Memory`.
fn are_entries(alloc: Global, bytes: &[u8]) -> Result<bool, Fault> {
    let mut scan = Scan::new(alloc, 0);
    match scan.take(bytes) {
        Ok(()) => Ok(scan.unfinished() == 0),
        Err(broken) if broken.fault == RecoveryFault::Memory => Err(Fault::Memory(AllocError)),
        Err(_) => Ok(false),
    }
}

// Cuts a file, or makes it longer, and has that on disk.
fn set_len<F: OpenFile>(file: &F, len: u64) -> io::Result<()> {
    file.set_len(len)?;
    file.sync_all()
}

fn cannot_read(alloc: Global, name: &str, error: io::Error) -> Fault {
    match name.to_string(alloc) {
        Ok(name) => Fault::CannotRead { name, error },
        Err(error) => Fault::Memory(error),
    }
}
