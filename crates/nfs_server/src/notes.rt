//! Notes: the entries of what a server has answered, until they last in its journal.
ghost use Rattle.std.specs.Prelude.{◌≡◌, ◌+◌, ◌↔◌, List, ℕ, [], true, None, Some, length, nat_le, option_map, OnOk, OnErr, IsErrOf};
ghost use Rattle.nfs_rpc.specs.Records.{fragment};
ghost use Rattle.nfs_server.specs.Entries.{entry_text};
ghost use Rattle.nfs_server.specs.InMemory.{event_of};
ghost use Rattle.nfs_server.specs.Notes.{to_note, with_entry};
ghost use Rattle.nfs_xdr.specs.Known.{Grows, GrowsByPart, StaysFailed};

use crate::entry::{ENTRY_BYTES, encode_entry};
use crate::event::Event;
use crate::journal_out::JournalOut;
use crate::settle_fault::SettleFault;
use nfs_rpc::record::HEADER_BYTES;
use nfs_xdr::output::Output;
use std::alloc::{AllocError, Global};
use std::marker::Model;

/// The most bytes of notes.
pub const MOST_NOTED: usize = 4 << 20;

/// The entries of what was answered and doesn't last yet. Contracts see their bytes, or none where no
/// notes are kept, or some were lost for want of room.
#[derive(Drop)]
pub(crate) struct Notes {
    entries: Option<Output>,
}

impl Model for Notes {
    ghost use Rattle.std.specs.Prelude.{List, ℕ, Option, option_map};
    ghost use Rattle.nfs_server.specs.Notes.{HasRoomLeft};
    ghost use Rattle.nfs_xdr.specs.Written.{Written};

    ghost Value = { Option (List ℕ) };

    ghost view = { λ n. option_map (λ (out : Written). out.bytes) n.entries };

    ghost invariant = { λ n. HasRoomLeft n.entries };
}

impl Notes {
    /// None are kept.
    pub(crate) fn none() -> Notes
        ensures { result ≡ None }
    {
        Notes { entries: None }
    }

    /// They are kept from now on, and there are none yet. Refused where there is no memory.
    pub(crate) fn keep(&mut self, alloc: Global) -> Result<(), AllocError>
        ensures ok { OnOk result (self.new ≡ Some []) }
        ensures err { OnErr result (self.new ≡ self.old) }
    {
        let out = Output::new(alloc, MOST_NOTED)?;
        self.entries = Some(out);
        Ok(())
    }

    /// The notes, where some are kept and none were lost.
    pub(crate) fn bytes(&self) -> Option<&[u8]>
        ensures { option_map (λ bytes. bytes.now) result ≡ self.now }
    {
        match &self.entries {
            Some(out) => Some(out.bytes()),
            None => None,
        }
    }

    /// Notes an event with its reply. Where there is no room for its entry, all are lost. Out of line, so
    /// that other events pay nothing for it.
    #[inline(never)]
    pub(crate) fn add(&mut self, event: Event<'_>, reply: &[u8])
        ensures { self.new ≡ with_entry (fragment true (entry_text (event_of event.entry) reply.now)) self.old }
    {
        let Some(mut out) = self.entries.take() else {
            return;
        };
        if has_room(out.room(), event, reply) {
            encode_entry(&mut out, event, reply);
            self.entries = Some(out);
        }
    }

    /// Makes the notes last. Where there are none, the journal isn't touched; at a fault they stay.
    pub(crate) fn settle<J: JournalOut>(&mut self, journal: &mut J) -> Result<(), SettleFault>
        ensures ok { OnOk result (self.new ≡ Some []) }
        ensures grows { OnOk result (Grows (J.lasting journal.old) (to_note self.old) (J.lasting journal.new)) }
        ensures lost { IsErrOf result SettleFault.Lost ↔ (self.old ≡ None) }
        ensures part { OnErr result (GrowsByPart (J.lasting journal.old) (to_note self.old) (J.lasting journal.new)) }
        ensures failed { IsErrOf result SettleFault.JournalFault → J.failed journal.new ≡ true }
        ensures stays { StaysFailed (J.failed journal.old) (J.lasting journal.old) (J.failed journal.new) (J.lasting journal.new) }
        ensures idle { to_note self.old ≡ [] → journal.new ≡ journal.old }
        ensures err { OnErr result (self.new ≡ self.old) }
    {
        let Some(out) = &mut self.entries else {
            return Err(SettleFault::Lost);
        };
        if out.bytes().is_empty() {
            return Ok(());
        }
        if journal.append(out.bytes()).is_err() {
            return Err(SettleFault::JournalFault);
        }
        out.clear();
        Ok(())
    }
}

// Whether there is room for the entry of a call with this reply.
fn has_room(room: usize, event: Event<'_>, reply: &[u8]) -> bool
    ensures { result ≡ nat_le (HEADER_BYTES + ENTRY_BYTES + length reply.now + length event.entry.bytes.now) room }
{
    if room < HEADER_BYTES + ENTRY_BYTES {
        return false;
    }
    let left = room - HEADER_BYTES - ENTRY_BYTES;
    reply.len() <= left && event.bytes.len() <= left - reply.len()
}
