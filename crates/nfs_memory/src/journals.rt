//! Clients of a server whose journal fails.
ghost use Rattle.std.specs.Prelude.{None};

use crate::calls::{DIRECTORY, NO_SETTINGS, record};
use crate::described::server;
use nfs_attrs::moment::Moment;
use nfs_exports::addr::Addr;
use nfs_server::journal_out::{JournalFigures, JournalOut};
use nfs_server::server::Server;
use nfs_serving::client::Client;
use nfs_serving::turn_buffers::TurnBuffers;
use nfs_xdr::device::{Device, DeviceFault};
use nfs_xdr::link::{Came, Link};
use std::alloc::{AllocError, Global};
use std::test::Fail;

const NOW: Moment = Moment {
    seconds: 100,
    nanos: 0,
};

// Two clients that may write.
const ONE: Addr = Addr(0x0a00_0001);

const OTHER: Addr = Addr(0x0a00_0002);

// NULL with the number 42, with its record mark, and that of a call of MKDIR.
const NULL: &[u8] =
    b"\x80\0\0\x28\0\0\0\x2a\0\0\0\0\0\0\0\x02\0\x01\x86\xa3\0\0\0\x03\0\0\0\0\0\0\0\0\0\0\0\0\0\0\0\0\0\0\0\0";

const MARK: &[u8] = b"\x80\0\0\x78";

// How many bytes NULL and MKDIR have together, and their replies, with record marks.
const CALLS_BYTES: usize = 44 + 124;

const NULL_REPLY_BYTES: usize = 28;

const REPLIES_BYTES: usize = NULL_REPLY_BYTES + 268;

// How many bytes the reply of MKDIR has without its mark, and its entry, in which it has this place.
const REPLY_BYTES: usize = 264;

const ENTRY_BYTES: usize = 4 + 20 + REPLY_BYTES + 120;

const REPLY_PLACE: usize = 20;

// What each client sends: three times NULL and MKDIR of one of these names.
fn stream(alloc: Global, names: &[u8; 3]) -> Result<Vec<u8>, AllocError> {
    let mut stream = Vec::new(alloc);
    for name in names {
        let record = record(
            alloc,
            9,
            &[DIRECTORY, &[0, 0, 0, 1, *name, 0, 0, 0], NO_SETTINGS, b""],
        )?;
        stream.extend_from_slice(NULL)?;
        stream.extend_from_slice(MARK)?;
        stream.extend_from_slice(record.as_slice())?;
    }
    Ok(stream)
}

// A journal in memory that fails at an append, of which it takes half the bytes.
#[derive(Drop)]
struct FailingJournal {
    bytes: Vec<u8>,
    appends: u32,
    has_failed: bool,
}

impl FailingJournal {
    // One that takes so many appends.
    fn new(alloc: Global, appends: u32) -> FailingJournal {
        FailingJournal {
            bytes: Vec::new(alloc),
            appends,
            has_failed: false,
        }
    }
}

impl JournalOut for FailingJournal {
    ghost lasting = { λ _. None };

    ghost failed = { λ it. it.has_failed };

    fn append(&mut self, bytes: &[u8]) -> Result<(), DeviceFault> {
        if self.has_failed {
            return Err(DeviceFault);
        }
        let is_last = self.appends == 0;
        let taken = if is_last {
            &bytes[..bytes.len() / 2]
        } else {
            bytes
        };
        if self.bytes.extend_from_slice(taken).is_err() || is_last {
            self.has_failed = true;
            return Err(DeviceFault);
        }
        self.appends = self.appends.saturating_sub(1);
        Ok(())
    }

    fn figures(&self) -> JournalFigures {
        JournalFigures {
            bytes: self.bytes.len() as u64,
            syncs: 0,
            sync_micros: 0,
        }
    }
}

// A link on which NULL and MKDIR come together, and which takes all that is sent.
#[derive(Drop)]
struct PromptLink<'a> {
    incoming: &'a [u8],
    sent: Vec<u8>,
    has_failed: bool,
}

impl Link for PromptLink<'_> {
    ghost outgoing = { λ _. None };

    ghost incoming = { λ _. None };

    ghost failed = { λ it. it.has_failed };

    ghost reports = { λ _ _ _ _. Unit {0} };

    fn send(&mut self, bytes: &[u8]) -> Result<usize, DeviceFault> {
        match self.sent.extend_from_slice(bytes) {
            Ok(()) => Ok(bytes.len()),
            Err(_) => {
                self.has_failed = true;
                Err(DeviceFault)
            }
        }
    }

    fn receive(&mut self, buffer: &mut [u8]) -> Result<Came, DeviceFault> {
        if self.incoming.is_empty() {
            return Ok(Came::End);
        }
        let n = CALLS_BYTES.min(self.incoming.len()).min(buffer.len());
        if n == 0 {
            return Ok(Came::Nothing);
        }
        let (now, later) = self.incoming.split_at(n);
        buffer[..n].copy_from_slice(now);
        self.incoming = later;
        Ok(Came::Bytes(n))
    }
}

// A client at this address that sends this.
fn client<'a>(alloc: Global, addr: Addr, stream: &'a [u8]) -> Client<PromptLink<'a>> {
    let link = PromptLink {
        incoming: stream,
        sent: Vec::new(alloc),
        has_failed: false,
    };
    Client::new(alloc, addr, link)
}

// How many bytes were sent to a client, or would be if those that are pending went out.
fn due(client: &Client<PromptLink<'_>>) -> usize {
    client.link().sent.len().saturating_add(client.pending())
}

// Gives both clients a turn, as a service does in a round, and makes what was noted last. Whether it lasts; `None` where a
// client was sent more than what was due before the round.
fn round(
    server: &mut Server,
    room: &mut TurnBuffers,
    one: &mut Client<PromptLink<'_>>,
    other: &mut Client<PromptLink<'_>>,
    journal: &mut FailingJournal,
) -> Option<bool> {
    let mut audit = Device::new(std::io::sink());
    let due = (due(one), due(other));
    one.turn(server, room, NOW, &mut audit, true);
    other.turn(server, room, NOW, &mut audit, true);
    let lasts = server.settle(journal).is_ok();
    let is_held = one.link().sent.len() <= due.0 && other.link().sent.len() <= due.1;
    is_held.then_some(lasts)
}

// Serves both clients until the journal fails, or they have ended. Whether it failed; `None` as above.
fn serve(
    server: &mut Server,
    room: &mut TurnBuffers,
    one: &mut Client<PromptLink<'_>>,
    other: &mut Client<PromptLink<'_>>,
    journal: &mut FailingJournal,
) -> Option<bool> {
    for _ in 0..1_000 {
        if !round(server, room, one, other, journal)? {
            return Some(true);
        }
        if one.end().is_some() && other.end().is_some() {
            return Some(false);
        }
    }
    None
}

// The reply to the MKDIR of a client's turn, counted from 0, as it was sent.
fn sent_reply<'a>(client: &'a Client<PromptLink<'_>>, turn: usize) -> Option<&'a [u8]> {
    let start = turn
        .saturating_mul(REPLIES_BYTES)
        .saturating_add(NULL_REPLY_BYTES + 4);
    client
        .link()
        .sent
        .as_slice()
        .get(start..start.saturating_add(REPLY_BYTES))
}

// The reply that an entry has, counted from 0.
fn noted_reply(journal: &FailingJournal, entry: usize) -> Option<&[u8]> {
    let start = entry
        .saturating_mul(ENTRY_BYTES)
        .saturating_add(REPLY_PLACE);
    journal
        .bytes
        .as_slice()
        .get(start..start.saturating_add(REPLY_BYTES))
}

// Whether of so many turns each client has its replies, the journal has their entries, and after them half of what was appended
// when it failed, if it did.
fn is_answered(
    turns: usize,
    has_failed: bool,
    one: &Client<PromptLink<'_>>,
    other: &Client<PromptLink<'_>>,
    journal: &FailingJournal,
) -> bool {
    let sent = turns.saturating_mul(REPLIES_BYTES);
    let lasting = turns.saturating_mul(2 * ENTRY_BYTES);
    let part = if has_failed { ENTRY_BYTES } else { 0 };
    one.link().sent.len() == sent
        && other.link().sent.len() == sent
        && journal.bytes.len() == lasting.saturating_add(part)
        && are_all_noted(turns, one, other, journal)
}

// Whether the replies to the MKDIRs of so many turns are those of their entries.
fn are_all_noted(
    turns: usize,
    one: &Client<PromptLink<'_>>,
    other: &Client<PromptLink<'_>>,
    journal: &FailingJournal,
) -> bool {
    for turn in 0..turns {
        if !are_noted(turn, one, other, journal) {
            return false;
        }
    }
    true
}

// Whether the replies to both MKDIRs of a turn are those of its entries.
fn are_noted(
    turn: usize,
    one: &Client<PromptLink<'_>>,
    other: &Client<PromptLink<'_>>,
    journal: &FailingJournal,
) -> bool {
    let entry = turn.saturating_mul(2);
    let first = sent_reply(one, turn);
    let second = sent_reply(other, turn);
    first.is_some()
        && second.is_some()
        && first == noted_reply(journal, entry)
        && second == noted_reply(journal, entry.saturating_add(1))
}

// A server that keeps notes. Refused without memory.
fn noting_server(alloc: Global) -> Result<Server, AllocError> {
    let mut server = server(alloc)?;
    server.keep_notes(alloc)?;
    Ok(server)
}

// Whether two clients were served as they have to be by a server whose journal takes so many appends.
fn fails_well(alloc: Global, appends: u32) -> Result<bool, AllocError> {
    let one = stream(alloc, b"pqr")?;
    let other = stream(alloc, b"stu")?;
    fails_well_on(alloc, (one.as_slice(), other.as_slice()), appends)
}

// The same of clients that send this.
fn fails_well_on(alloc: Global, streams: (&[u8], &[u8]), appends: u32) -> Result<bool, AllocError> {
    let mut room = TurnBuffers::new(alloc)?;
    let mut server = noting_server(alloc)?;
    Ok(is_served(alloc, &mut server, &mut room, streams, appends))
}

// The same of a server that is lent.
fn is_served(
    alloc: Global,
    server: &mut Server,
    room: &mut TurnBuffers,
    streams: (&[u8], &[u8]),
    appends: u32,
) -> bool {
    let mut one = client(alloc, ONE, streams.0);
    let mut other = client(alloc, OTHER, streams.1);
    let mut journal = FailingJournal::new(alloc, appends);
    let has_failed = serve(server, room, &mut one, &mut other, &mut journal);
    let is_due = has_failed == Some(appends < 3);
    is_due && is_answered(appends as usize, appends < 3, &one, &other, &journal)
}

#[test]
fn a_journal_that_fails_at_once_lets_no_reply_go_out(rt: HostRuntime) -> Result<(), Fail> {
    let is_well = fails_well(rt.alloc(), 0)?;
    assert!(rt; is_well);
    Ok(())
}

#[test]
fn what_was_answered_before_a_journal_failed_lasts(rt: HostRuntime) -> Result<(), Fail> {
    for appends in 1..4 {
        let is_well = fails_well(rt.alloc(), appends)?;
        assert!(rt; is_well);
    }
    Ok(())
}
