//! A journal that is kept in a file.
ghost use Rattle.std.specs.Prelude.{◌≡◌, ◌+◌, ◌-◌, ◌^◌, ◌<◌, ◌≤◌, ◌++◌, true, false, [], is_some, length, min, take, IfOk, IsErr, OnOk, OnErr};
ghost use Rattle.nfs_journal.specs.OnFile.{lasting_in, next_block, one_more, syncs_after};
ghost use Rattle.nfs_xdr.specs.Known.{Grows, GrowsByPart};

use crate::block::{BLOCK_HEADER_BYTES, BlockHeader, BlockKind, MOST_BLOCK_BYTES, encode_header};
use crate::sync_file::SyncFile;
use nfs_server::journal_out::{JournalFigures, JournalOut};
use nfs_xdr::device::DeviceFault;
use nfs_xdr::output::Output;
use std::alloc::{AllocError, Global};
use std::io::{self, ErrorKind, Write};
use std::marker::Model;
use std::time::{Clock, Instant};

// A block of up to 64 KiB is put together with its header, to be written at once. To copy a longer one takes longer than to
// write its header alone.
const BUFFER_BYTES: usize = BLOCK_HEADER_BYTES + 65_536;

/// When what was appended is synced, so that it outlives not only the process, but also the machine.
#[derive(Clone, Copy, Debug, PartialEq, Eq)]
pub enum Syncing {
    /// After each append.
    Each,
    /// Never.
    Never,
}

/// A journal in a file: what is appended at once becomes a block of it.
#[derive(Drop)]
pub struct FileJournal<'a, R, F> {
    rt: &'a R,
    file: F,
    // The header of the block that is written, and all of it where there is room.
    buffer: Output,
    syncing: Syncing,
    has_failed: bool,
    error: Option<io::Error>,
    len: u64,
    // The number of the next block.
    next: u64,
    syncs: u64,
    sync_micros: u64,
}

impl<'a, R, F> Model for FileJournal<'a, R, F> {
    ghost use Rattle.std.specs.Prelude.{is_some};
    ghost use Rattle.nfs_journal.specs.OnFile.{OnFile, IsBuffer};

    ghost Value = { OnFile F };

    ghost view = { λ it. record {
      file = it.file;
      syncing = it.syncing;
      failed = it.has_failed;
      has_error = is_some it.error;
      len = it.len;
      next = it.next;
      syncs = it.syncs;
    } };

    ghost invariant = { λ it. IsBuffer it.buffer };
}

impl<'a, R, F: Drop> FileJournal<'a, R, F> {
    /// A journal of so many bytes in this file, which stands at its end, and whose next block has this number. Refused
    /// where there is no memory for its buffer.
    pub fn new(
        rt: &'a R,
        alloc: Global,
        file: F,
        syncing: Syncing,
        len: u64,
        next: u64,
    ) -> Result<FileJournal<'a, R, F>, AllocError>
        ensures { IfOk result (λ it. it ≡ record { file = file; syncing = syncing; failed = false; has_error = false; len = len; next = next; syncs = 0 }) }
    {
        let buffer = Output::new(alloc, BUFFER_BYTES)?;
        Ok(FileJournal {
            rt,
            file,
            buffer,
            syncing,
            has_failed: false,
            error: None,
            len,
            next,
            syncs: 0,
            sync_micros: 0,
        })
    }
}

impl<R, F> FileJournal<'_, R, F> {
    /// What the system said at the fault, once.
    pub fn take_error(&mut self) -> Option<io::Error>
        ensures error { is_some result ≡ self.old.has_error }
        ensures once { self.new ≡ record self.old { has_error = false } }
    {
        self.error.take()
    }
}

impl<R: Clock, F: SyncFile> FileJournal<'_, R, F> {
    // Appends a block, unless the journal has failed.
    fn append_block(&mut self, bytes: &[u8]) -> Result<(), DeviceFault>
        ensures ok { OnOk result (Grows (F.contents self.old.file) (next_block self.old.next bytes.now) (F.contents self.new.file)) }
        ensures part { OnErr result (GrowsByPart (F.contents self.old.file) (next_block self.old.next bytes.now) (F.contents self.new.file)) }
        ensures fits { OnOk result (length bytes.now ≤ MOST_BLOCK_BYTES) }
        ensures long { MOST_BLOCK_BYTES < length bytes.now → self.new.file ≡ self.old.file }
        ensures next { OnOk result (self.new.next ≡ self.old.next + 1) }
        ensures syncs { OnOk result (self.new.syncs ≡ syncs_after self.old.syncing self.old.syncs) }
        ensures synced { OnOk result (self.old.syncing ≡ Syncing.Each → F.synced self.new.file ≡ F.contents self.new.file) }
        ensures syncing { self.new.syncing ≡ self.old.syncing }
        ensures alive { OnOk result ((self.old.failed ≡ false) × (self.new.failed ≡ false)) }
        ensures fault { OnErr result (self.new.failed ≡ true) }
        ensures again { self.old.failed ≡ true → IsErr result × (self.new ≡ self.old) }
    {
        if self.has_failed {
            return Err(DeviceFault);
        }
        match self.write(bytes) {
            Ok(()) => Ok(()),
            Err(error) => {
                self.error = Some(error);
                self.has_failed = true;
                Err(DeviceFault)
            }
        }
    }

    // Writes a block, and syncs it where each append is.
    fn write(&mut self, bytes: &[u8]) -> io::Result<()>
        ensures ok { OnOk result (Grows (F.contents self.old.file) (next_block self.old.next bytes.now) (F.contents self.new.file)) }
        ensures part { OnErr result (GrowsByPart (F.contents self.old.file) (next_block self.old.next bytes.now) (F.contents self.new.file)) }
        ensures fits { OnOk result (length bytes.now ≤ MOST_BLOCK_BYTES) }
        ensures long { MOST_BLOCK_BYTES < length bytes.now → self.new ≡ self.old }
        ensures next { OnOk result (self.new.next ≡ self.old.next + 1) }
        ensures syncs { OnOk result (self.new.syncs ≡ syncs_after self.old.syncing self.old.syncs) }
        ensures synced { OnOk result (self.old.syncing ≡ Syncing.Each → F.synced self.new.file ≡ F.contents self.new.file) }
        ensures len { OnOk result (self.new.len ≡ min (self.old.len + (BLOCK_HEADER_BYTES + length bytes.now)) (2 ^ 64 - 1)) }
        ensures failed { self.new.failed ≡ self.old.failed }
        ensures syncing { self.new.syncing ≡ self.old.syncing }
    {
        if bytes.len() > MOST_BLOCK_BYTES || self.next == u64::MAX {
            return Err(io::Error::from(ErrorKind::InvalidInput));
        }
        self.write_block(bytes)?;
        let len = (BLOCK_HEADER_BYTES + bytes.len()) as u64;
        self.len = self.len.saturating_add(len);
        self.next += 1;
        match self.syncing {
            Syncing::Each => self.sync(),
            Syncing::Never => Ok(()),
        }
    }

    // Writes a block of entries: at once where the buffer has room for it, else after its header.
    fn write_block(&mut self, bytes: &[u8]) -> io::Result<()>
        requires { length bytes.now ≤ MOST_BLOCK_BYTES }
        ensures ok { OnOk result (Grows (F.contents self.old.file) (next_block self.old.next bytes.now) (F.contents self.new.file)) }
        ensures part { OnErr result (GrowsByPart (F.contents self.old.file) (next_block self.old.next bytes.now) (F.contents self.new.file)) }
        ensures rest { self.new ≡ record self.old { file = self.new.file } }
    {
        self.buffer.clear();
        let header = BlockHeader {
            kind: BlockKind::Entries,
            number: self.next,
            len: bytes.len() as u32,
        };
        encode_header(&mut self.buffer, header);
        if bytes.len() > self.buffer.room() {
            return write_both(&mut self.file, self.buffer.bytes(), bytes);
        }
        self.buffer.part(bytes);
        write_all(&mut self.file, self.buffer.bytes())
    }

    fn sync(&mut self) -> io::Result<()>
        ensures contents { F.contents self.new.file ≡ F.contents self.old.file }
        ensures synced { OnOk result (F.synced self.new.file ≡ F.contents self.new.file) }
        ensures syncs { OnOk result (self.new.syncs ≡ one_more self.old.syncs) }
        ensures rest { self.new ≡ record self.old { file = self.new.file; syncs = self.new.syncs } }
    {
        let began = Instant::now(self.rt).ok();
        self.file.sync()?;
        self.syncs = self.syncs.saturating_add(1);
        self.sync_micros = self
            .sync_micros
            .saturating_add(micros_since(self.rt, began));
        Ok(())
    }
}

// Writes some bytes, and then others.
fn write_both<F: Write>(file: &mut F, first: &[u8], second: &[u8]) -> io::Result<()>
    ensures ok { OnOk result (Grows (F.contents file.old) (first.now ++ second.now) (F.contents file.new)) }
    ensures part { OnErr result (GrowsByPart (F.contents file.old) (first.now ++ second.now) (F.contents file.new)) }
{
    write_all(file, first)?;
    write_all(file, second)
}

// Writes all of some bytes, in as many calls as the file wants. At an error some first ones were written.
fn write_all<F: Write>(file: &mut F, bytes: &[u8]) -> io::Result<()>
    ensures ok { OnOk result (Grows (F.contents file.old) bytes.now (F.contents file.new)) }
    ensures part { OnErr result (GrowsByPart (F.contents file.old) bytes.now (F.contents file.new)) }
{
    let mut at = 0;
    while at < bytes.len() {
        match write_some(file, &bytes[at..]) {
            Ok(n) => at += n,
            Err(error) => return Err(error),
        }
    }
    Ok(())
}

// Writes some first ones of some bytes. At an error none were written.
fn write_some<F: Write>(file: &mut F, bytes: &[u8]) -> io::Result<usize>
    ensures count { IfOk result (λ n. (0 < n) × (n ≤ length bytes.now)) }
    ensures ok { IfOk result (λ n. Grows (F.contents file.old) (take n bytes.now) (F.contents file.new)) }
    ensures err { OnErr result (Grows (F.contents file.old) [] (F.contents file.new)) }
{
    for _ in 0..u64::MAX {
        match file.write(bytes) {
            Ok(0) => return Err(io::Error::from(ErrorKind::WriteZero)),
            Ok(n) => return Ok(n),
            Err(error) if error.kind() == ErrorKind::Interrupted => {}
            Err(error) => return Err(error),
        }
    }
    Err(io::Error::from(ErrorKind::Interrupted))
}

// How many microseconds have passed; none where there is no clock.
fn micros_since<R: Clock>(rt: &R, began: Option<Instant>) -> u64 {
    let Some(began) = began else {
        return 0;
    };
    match began.elapsed(rt) {
        Ok(took) => took
            .as_secs()
            .saturating_mul(1_000_000)
            .saturating_add(u64::from(took.subsec_micros())),
        Err(_) => 0,
    }
}

impl<R: Clock, F: SyncFile + Drop> JournalOut for FileJournal<'_, R, F> {
    ghost lasting = { λ it. lasting_in (F.contents it.file) it.failed it.next };

    ghost failed = { λ it. it.failed };

    fn append(&mut self, bytes: &[u8]) -> Result<(), DeviceFault> {
        self.append_block(bytes)
    }

    fn figures(&self) -> JournalFigures {
        JournalFigures {
            bytes: self.len,
            syncs: self.syncs,
            sync_micros: self.sync_micros,
        }
    }
}
