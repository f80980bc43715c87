//! A server becomes again what it was, by its journal.
ghost use Rattle.std.specs.Prelude.{◌≡◌, false, ◌+◌, ◌^◌, ◌<◌, ◌≤◌, length, take, IfOk, IfErr, OnOk};
ghost use Rattle.nfs_journal.specs.Recovering.{BreaksOn, Fails, IsOther, Reruns, RunsOn};
ghost use Rattle.nfs_server.specs.Connections.{IsBetween};
ghost use Rattle.nfs_server.specs.Retransmissions.{is_refused};
ghost use Rattle.nfs_server.specs.Taking.{BeginsAnew};

use crate::entry::decode_entry;
use nfs_rpc::framer::{FrameFault, Framer, Stage};
use nfs_server::audit_line::DenialReason;
use nfs_server::event::Handled;
use nfs_server::reply_buf::ReplyBuf;
use nfs_server::server::Server;

/// How far a chunk was run again.
#[derive(Clone, Copy, Debug, PartialEq, Eq)]
pub(crate) struct Rerun {
    /// The number of entries.
    pub(crate) entries: u64,
    /// The number of bytes after the last of them, which may be the beginning of one more.
    pub(crate) unfinished: u64,
}

/// Why a journal can't be run again.
#[derive(Clone, Copy, Debug, PartialEq, Eq)]
pub enum RecoveryFault {
    /// A record is no entry, or longer than the framer takes.
    BadEntry,
    /// The server answers an entry otherwise than it says: the journal is that of another server.
    OtherReply,
    /// There is no memory.
    Memory,
}

/// What became of a chunk up to the end of the first entry.
#[derive(Clone, Copy, Debug, PartialEq, Eq)]
pub(crate) struct Part {
    pub(crate) used: usize,
    pub(crate) rerun: Rerun,
}

/// Takes a chunk up to the end of the first entry, which it runs again, after so many unfinished bytes.
/// Its event is answered as the entry says, or a fault is reported. Nothing is said of what the unfinished
/// bytes would become.
pub(crate) fn rerun_one(
    server: &mut Server,
    reply: &mut ReplyBuf,
    framer: &mut Framer,
    unfinished: u64,
    chunk: &[u8],
) -> Result<Part, RecoveryFault>
    requires between { IsBetween framer.old }
    requires room { unfinished + length chunk.now < 2 ^ 64 }
    ensures used { IfOk result (λ part. part.used ≤ length chunk.now) }
    ensures some { 0 < length chunk.now → IfOk result (λ part. 0 < part.used) }
    ensures entries { IfOk result (λ part. part.rerun.entries ≤ part.used) }
    ensures unfinished { IfOk result (λ part. part.rerun.unfinished ≤ unfinished + part.used) }
    ensures between { OnOk result (IsBetween framer.new) }
    ensures limit { framer.new.limit ≡ framer.old.limit }
    ensures breaks { IfErr result (λ fault. BreaksOn fault chunk.now unfinished 0 (unfinished + length chunk.now)
        server.old server.new framer.old) }
    ensures runs { IfOk result (λ part. RunsOn (take part.used chunk.now) unfinished part.rerun.entries part.rerun.unfinished
        server.old server.new framer.old framer.new) }
{
    let fed = match framer.feed(chunk) {
        Ok(fed) => fed,
        Err(FrameFault::Memory) => return Err(RecoveryFault::Memory),
        Err(FrameFault::TooLong) => return Err(RecoveryFault::BadEntry),
        Err(FrameFault::Failed) => unreachable!(),
    };
    if !fed.ready {
        return Ok(Part {
            used: fed.used,
            rerun: Rerun {
                entries: 0,
                unfinished: unfinished + fed.used as u64,
            },
        });
    }
    match rerun_record(server, reply, framer) {
        Ok(()) => Ok(Part {
            used: fed.used,
            rerun: Rerun {
                entries: 1,
                unfinished: 0,
            },
        }),
        Err(fault) => Err(fault),
    }
}

// Runs the entry again that is whole, and goes on to the next.
fn rerun_record(
    server: &mut Server,
    reply: &mut ReplyBuf,
    framer: &mut Framer,
) -> Result<(), RecoveryFault>
    requires { framer.old.stage ≡ Stage.Ready }
    ensures next { BeginsAnew framer.new }
    ensures limit { framer.new.limit ≡ framer.old.limit }
    ensures fails { IfErr result (λ fault. Fails fault framer.old.content server.old server.new) }
    ensures reruns { OnOk result (Reruns framer.old.content server.old server.new) }
{
    let rerun = rerun_entry(server, reply, framer.whole());
    framer.next();
    rerun
}

/// Runs an entry again: its event is answered as it says, or a fault is reported.
pub fn rerun_entry(
    server: &mut Server,
    reply: &mut ReplyBuf,
    bytes: &[u8],
) -> Result<(), RecoveryFault>
    ensures reruns { OnOk result (Reruns bytes.now server.old server.new) }
    ensures fails { IfErr result (λ fault. Fails fault bytes.now server.old server.new) }
{
    let Some(entry) = decode_entry(bytes) else {
        return Err(RecoveryFault::BadEntry);
    };
    match server.handle(entry.event, reply) {
        Handled::Answered => check(server, reply, entry.reply),
        Handled::NoReply => Err(RecoveryFault::OtherReply),
    }
}

// Whether the last call has this reply.
fn check(server: &Server, reply: &ReplyBuf, expected: &[u8]) -> Result<(), RecoveryFault>
    ensures same { OnOk result (reply.now.reply ≡ expected.now) }
    ensures served { OnOk result (is_refused server.now.line ≡ false) }
    ensures fails { IfErr result (λ fault. IsOther fault reply.now.reply expected.now server.now.line) }
{
    if wanted_memory(server) {
        return Err(RecoveryFault::Memory);
    }
    if reply.bytes() == expected {
        Ok(())
    } else {
        Err(RecoveryFault::OtherReply)
    }
}

// Whether there was no memory for the last call.
fn wanted_memory(server: &Server) -> bool
    ensures { result ≡ is_refused server.now.line }
{
    match server.last_audit() {
        Some(line) => line.reason == DenialReason::Memory,
        None => false,
    }
}
