//! A server becomes again what it was, by its journal, chunk by chunk.
ghost use Rattle.std.specs.Prelude.{◌≡◌, ◌+◌, ◌^◌, ◌<◌, ◌≤◌, None, Some, Err, length, take, IfOk, IfErr, IfSome, OnOk};
ghost use Rattle.nfs_journal.specs.Recovering.{Advances, IsFresh, Stops};

use crate::broken_entry::BrokenEntry;
use crate::recovery::{RecoveryFault, rerun_one};
use nfs_rpc::framer::Framer;
use nfs_server::notes::MOST_NOTED;
use nfs_server::reply_buf::ReplyBuf;
use nfs_server::server::Server;
use std::alloc::{AllocError, Global};
use std::marker::Model;

/// Runs a journal again, chunk by chunk.
#[derive(Drop)]
pub struct Recovery {
    framer: Framer,
    reply: ReplyBuf,
    entries: u64,
    end: u64,
    unfinished: u64,
    broken: Option<BrokenEntry>,
}

impl Model for Recovery {
    ghost use Rattle.nfs_journal.specs.Recovering.{IsSound, Position, position_of};

    ghost Value = { Position };

    ghost view = { λ r. position_of r.framer r.entries r.end r.unfinished r.broken };

    ghost invariant = { λ r. IsSound (position_of r.framer r.entries r.end r.unfinished r.broken) };
}

impl Recovery {
    /// Nothing was run again, and the entries begin at this offset. Refused where there is no memory.
    pub fn new(alloc: Global, offset: u64) -> Result<Recovery, AllocError>
        ensures { IfOk result (IsFresh offset) }
    {
        Ok(Recovery {
            // No entry is longer than all that is noted at once.
            framer: Framer::new(alloc, MOST_NOTED),
            reply: ReplyBuf::new(alloc)?,
            entries: 0,
            end: offset,
            unfinished: 0,
            broken: None,
        })
    }

    /// Runs the entries of the next chunk again, the first of them with what was unfinished before it. Each
    /// event is answered as its entry says, or the first entry that is at fault is reported: `BadEntry` where
    /// its bytes are none, or where offsets come to the largest of 64 bits, `OtherReply` where the server
    /// answers otherwise, `Memory`. After a fault nothing more is run, and the same one is reported again.
    pub fn take(&mut self, server: &mut Server, chunk: &[u8]) -> Result<(), BrokenEntry>
        ensures advances { OnOk result (Advances chunk.now self.old self.new server.old server.new) }
        ensures stops { IfErr result (λ broken. self.old.broken ≡ None → self.old.end + self.old.unfinished + length chunk.now + 1 < 2 ^ 64
            → Stops broken chunk.now self.old self.new server.old server.new) }
        ensures broken { IfErr result (λ broken. self.new.broken ≡ Some broken) }
        ensures again { IfSome self.old.broken (λ broken. (result ≡ Err broken) × (self.new ≡ self.old) × (server.new ≡ server.old)) }
    {
        if let Some(broken) = self.broken {
            return Err(broken);
        }
        if chunk.len() as u64 >= u64::MAX - self.end - self.unfinished {
            return Err(self.stop(RecoveryFault::BadEntry));
        }
        let mut used = 0;
        while used < chunk.len() {
            match self.take_one(server, &chunk[used..]) {
                Ok(n) => used += n,
                Err(broken) => return Err(broken),
            }
        }
        Ok(())
    }

    // Takes a chunk up to the end of the first entry, which is run again. How many bytes that are.
    fn take_one(&mut self, server: &mut Server, chunk: &[u8]) -> Result<usize, BrokenEntry>
        requires unbroken { self.old.broken ≡ None }
        requires some { 0 < length chunk.now }
        requires room { self.old.end + self.old.unfinished + length chunk.now + 1 < 2 ^ 64 }
        ensures used { IfOk result (λ n. (0 < n) × (n ≤ length chunk.now)) }
        ensures advances { IfOk result (λ n. Advances (take n chunk.now) self.old self.new server.old server.new) }
        ensures stops { IfErr result (λ broken. Stops broken chunk.now self.old self.new server.old server.new) }
        ensures broken { IfErr result (λ broken. self.new.broken ≡ Some broken) }
    {
        match rerun_one(
            server,
            &mut self.reply,
            &mut self.framer,
            self.unfinished,
            chunk,
        ) {
            Ok(part) => {
                self.entries += part.rerun.entries;
                self.end = self.end + self.unfinished + part.used as u64 - part.rerun.unfinished;
                self.unfinished = part.rerun.unfinished;
                Ok(part.used)
            }
            Err(fault) => {
                let broken = BrokenEntry::after(self.entries, self.end, fault);
                self.broken = Some(broken);
                Err(broken)
            }
        }
    }

    // The entry after the last that was run again is at fault.
    fn stop(&mut self, fault: RecoveryFault) -> BrokenEntry
        ensures { self.new ≡ record self.old { broken = Some result } }
    {
        let broken = BrokenEntry::after(self.entries, self.end, fault);
        self.broken = Some(broken);
        broken
    }

    /// How many entries were run again.
    pub fn entries(&self) -> u64
        ensures { result ≡ self.now.entries }
    {
        self.entries
    }

    /// The offset after the last of them.
    pub fn end(&self) -> u64
        ensures { result ≡ self.now.end }
    {
        self.end
    }

    /// How many bytes stand after it, which may be the beginning of one more.
    pub fn unfinished(&self) -> u64
        ensures { result ≡ self.now.unfinished }
    {
        self.unfinished
    }
}
