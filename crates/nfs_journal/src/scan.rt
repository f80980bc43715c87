//! A journal is looked at without the server that it is of.
ghost use Rattle.std.specs.Prelude.{◌≡◌, ◌+◌, ◌^◌, ◌<◌, ◌≤◌, None, Some, Err, length, take, IfOk, IfErr, IfSome, OnOk, IsTrue, IsFalse};
ghost use Rattle.nfs_journal.specs.Entries.{IsNoEntry};
ghost use Rattle.nfs_journal.specs.Recovering.{IsFresh};
ghost use Rattle.nfs_journal.specs.Scanning.{FaultOn, IsEntry, ReadsOn, Scans, StopsScan};
ghost use Rattle.nfs_server.specs.Connections.{IsBetween};
ghost use Rattle.nfs_server.specs.Taking.{BeginsAnew};

use crate::broken_entry::BrokenEntry;
use crate::entry::decode_entry;
use crate::recovery::{Part, RecoveryFault, Rerun};
use nfs_rpc::framer::{FrameFault, Framer, Stage};
use nfs_server::notes::MOST_NOTED;
use std::alloc::Global;
use std::marker::Model;

/// Looks at the entries of a journal, chunk by chunk, without running them.
#[derive(Drop)]
pub struct Scan {
    framer: Framer,
    entries: u64,
    end: u64,
    unfinished: u64,
    broken: Option<BrokenEntry>,
}

impl Model for Scan {
    ghost use Rattle.nfs_journal.specs.Recovering.{IsSound, Position, position_of};

    ghost Value = { Position };

    ghost view = { λ s. position_of s.framer s.entries s.end s.unfinished s.broken };

    ghost invariant = { λ s. IsSound (position_of s.framer s.entries s.end s.unfinished s.broken) };
}

impl Scan {
    /// Nothing was looked at, and the entries begin at this offset.
    pub fn new(alloc: Global, offset: u64) -> Scan
        ensures { IsFresh offset result }
    {
        Scan {
            framer: Framer::new(alloc, MOST_NOTED),
            entries: 0,
            end: offset,
            unfinished: 0,
            broken: None,
        }
    }

    /// Looks at the entries of the next chunk, the first of them with what was unfinished before it. The first
    /// that is at fault is reported: `BadEntry` where its bytes are none, or where offsets come to the largest
    /// of 64 bits, `Memory`. After a fault nothing more is looked at, and the same one is reported again.
    pub fn take(&mut self, chunk: &[u8]) -> Result<(), BrokenEntry>
        ensures scans { OnOk result (Scans chunk.now self.old self.new) }
        ensures stops { IfErr result (λ broken. self.old.broken ≡ None → self.old.end + self.old.unfinished + length chunk.now + 1 < 2 ^ 64
            → StopsScan broken chunk.now self.old self.new) }
        ensures broken { IfErr result (λ broken. self.new.broken ≡ Some broken) }
        ensures again { IfSome self.old.broken (λ broken. (result ≡ Err broken) × (self.new ≡ self.old)) }
    {
        if let Some(broken) = self.broken {
            return Err(broken);
        }
        if chunk.len() as u64 >= u64::MAX - self.end - self.unfinished {
            return Err(self.stop(RecoveryFault::BadEntry));
        }
        let mut used = 0;
        while used < chunk.len() {
            match self.take_one(&chunk[used..]) {
                Ok(n) => used += n,
                Err(broken) => return Err(broken),
            }
        }
        Ok(())
    }

    // Takes a chunk up to the end of the first entry. How many bytes that are.
    fn take_one(&mut self, chunk: &[u8]) -> Result<usize, BrokenEntry>
        requires unbroken { self.old.broken ≡ None }
        requires some { 0 < length chunk.now }
        requires room { self.old.end + self.old.unfinished + length chunk.now + 1 < 2 ^ 64 }
        ensures used { IfOk result (λ n. (0 < n) × (n ≤ length chunk.now)) }
        ensures scans { IfOk result (λ n. Scans (take n chunk.now) self.old self.new) }
        ensures stops { IfErr result (λ broken. StopsScan broken chunk.now self.old self.new) }
        ensures broken { IfErr result (λ broken. self.new.broken ≡ Some broken) }
    {
        match scan_one(&mut self.framer, self.unfinished, chunk) {
            Ok(part) => {
                self.entries += part.rerun.entries;
                self.end = self.end + self.unfinished + part.used as u64 - part.rerun.unfinished;
                self.unfinished = part.rerun.unfinished;
                Ok(part.used)
            }
            Err(fault) => {
                let broken = BrokenEntry::after(self.entries, self.end, fault);
                self.broken = Some(broken);
                Err(broken)
            }
        }
    }

    // The entry after the last that was looked at is at fault.
    fn stop(&mut self, fault: RecoveryFault) -> BrokenEntry
        ensures { self.new ≡ record self.old { broken = Some result } }
    {
        let broken = BrokenEntry::after(self.entries, self.end, fault);
        self.broken = Some(broken);
        broken
    }

    /// How many entries there are.
    pub fn entries(&self) -> u64
        ensures { result ≡ self.now.entries }
    {
        self.entries
    }

    /// The offset after the last of them.
    pub fn end(&self) -> u64
        ensures { result ≡ self.now.end }
    {
        self.end
    }

    /// How many bytes stand after it, which may be the beginning of one more.
    pub fn unfinished(&self) -> u64
        ensures { result ≡ self.now.unfinished }
    {
        self.unfinished
    }
}

// Takes a chunk up to the end of the first entry, after so many unfinished bytes.
fn scan_one(framer: &mut Framer, unfinished: u64, chunk: &[u8]) -> Result<Part, RecoveryFault>
    requires between { IsBetween framer.old }
    requires room { unfinished + length chunk.now < 2 ^ 64 }
    ensures used { IfOk result (λ part. part.used ≤ length chunk.now) }
    ensures some { 0 < length chunk.now → IfOk result (λ part. 0 < part.used) }
    ensures entries { IfOk result (λ part. part.rerun.entries ≤ part.used) }
    ensures unfinished { IfOk result (λ part. part.rerun.unfinished ≤ unfinished + part.used) }
    ensures between { OnOk result (IsBetween framer.new) }
    ensures limit { framer.new.limit ≡ framer.old.limit }
    ensures faults { IfErr result (λ fault. FaultOn fault chunk.now unfinished 0 (unfinished + length chunk.now) framer.old) }
    ensures reads { IfOk result (λ part. ReadsOn (take part.used chunk.now) unfinished part.rerun.entries part.rerun.unfinished
        framer.old framer.new) }
{
    let fed = match framer.feed(chunk) {
        Ok(fed) => fed,
        Err(FrameFault::Memory) => return Err(RecoveryFault::Memory),
        Err(FrameFault::TooLong) => return Err(RecoveryFault::BadEntry),
        Err(FrameFault::Failed) => unreachable!(),
    };
    if !fed.ready {
        return Ok(Part {
            used: fed.used,
            rerun: Rerun {
                entries: 0,
                unfinished: unfinished + fed.used as u64,
            },
        });
    }
    if !scan_record(framer) {
        return Err(RecoveryFault::BadEntry);
    }
    Ok(Part {
        used: fed.used,
        rerun: Rerun {
            entries: 1,
            unfinished: 0,
        },
    })
}

// Whether the record that is whole is an entry. Goes on to the next.
fn scan_record(framer: &mut Framer) -> bool
    requires { framer.old.stage ≡ Stage.Ready }
    ensures next { BeginsAnew framer.new }
    ensures limit { framer.new.limit ≡ framer.old.limit }
    ensures entry { IsTrue result → IsEntry framer.old.content }
    ensures none { IsFalse result → IsNoEntry framer.old.content }
{
    let is = is_entry(framer.whole());
    framer.next();
    is
}

// Whether these bytes are an entry.
fn is_entry(bytes: &[u8]) -> bool
    ensures entry { IsTrue result → IsEntry bytes.now }
    ensures none { IsFalse result → IsNoEntry bytes.now }
{
    match decode_entry(bytes) {
        Some(_) => true,
        None => false,
    }
}
