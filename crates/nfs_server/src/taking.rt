//! Bytes of a stream, whose records are answered as they become whole.
ghost use Rattle.std.specs.Prelude.{◌≡◌, ◌<◌, ◌≤◌, ◌↔◌, length, drop, IfOk, IfErr, IfSome, OnOk, OnErr, IsSome, IsTrue, Some, None, true, false};
ghost use Rattle.nfs_rpc.specs.Lent.{HasNoneAtFront, IsBefore};
ghost use Rattle.nfs_server.specs.Connections.{IsBetween};
ghost use Rattle.nfs_server.specs.Feeding.{device, event_at, EndsWith};
ghost use Rattle.nfs_server.specs.Denying.{IsSpared, fails_rule};
ghost use Rattle.nfs_server.specs.InMemory as seen;
ghost use Rattle.nfs_server.specs.InMemory.{reported};
ghost use Rattle.nfs_server.specs.Taking.{AnswersEvent, BeginsAnew, FeedsOne, FeedsSome, Holds, Waits, Writes};
ghost use Rattle.nfs_server.specs.Taking.{room_after as room_left};
ghost use Rattle.nfs_xdr.specs.Known.{StaysFailed};

use crate::audit_out::AuditOut;
use crate::event::{Event, Handled};
use crate::reply_buf::ReplyBuf;
use crate::reply_out::ReplyOut;
use crate::server::Server;
use crate::session_fault::SessionFault;
use nfs_attrs::moment::Moment;
use nfs_exports::addr::Addr;
use nfs_rpc::framer::{Framer, Stage};
use nfs_rpc::record::HEADER_BYTES;
use std::alloc::AllocError;

/// Who sends bytes, and when they come.
#[derive(Clone, Copy, Debug, PartialEq, Eq)]
pub struct Origin {
    /// The peer's address.
    pub addr: Addr,
    /// The moment.
    pub moment: Moment,
}

/// Why no more of a chunk was taken.
#[derive(Clone, Copy, Debug, PartialEq, Eq)]
pub enum Stop {
    /// All of it was taken, or the replies fill the room.
    Done,
    /// The next record is a call that would be denied, and its line has no room.
    Denied,
    /// Lines have no room, and there is no memory to look at the next record, which doesn't stand
    /// whole, in one fragment, in the chunk.
    Memory,
}

/// How far a chunk was taken.
#[derive(Clone, Copy, Debug, PartialEq, Eq)]
pub struct Taken {
    /// The number of bytes taken.
    pub used: usize,
    /// The number of records that they made whole.
    pub records: u64,
    /// Why it was no more.
    pub stop: Stop,
}

// What came of a chunk up to the end of the first record.
#[derive(Clone, Copy, Debug, PartialEq, Eq)]
struct Step {
    // The number of bytes taken.
    used: usize,
    // The number of records that they made whole: one or none.
    records: u64,
    // The number of bytes of its framed reply.
    replied: usize,
    // Whether it waits.
    stop: Stop,
}

impl Step {
    // Nothing was taken, since the record waits.
    fn held(stop: Stop) -> Step
        ensures { result ≡ record { used = 0; records = 0; replied = 0; stop = stop } }
    {
        Step {
            used: 0,
            records: 0,
            replied: 0,
            stop,
        }
    }
}

// Takes a chunk, and answers each record that it makes whole. Where there is room for so many
// bytes of replies alone, it stops after the record whose reply fills it. Where lines have no room, it
// stops before a call that would be denied.
pub(crate) fn take_chunk<R: ReplyOut, A: AuditOut>(
    server: &mut Server,
    reply: &mut ReplyBuf,
    framer: &mut Framer,
    origin: Origin,
    chunk: &[u8],
    room: Option<usize>,
    replies: &mut R,
    audit: &mut A,
) -> Result<Taken, SessionFault>
    requires { IsBetween framer.old }
    ensures used { IfOk result (λ taken. taken.used ≤ length chunk.now) }
    ensures between { OnOk result (IsBetween framer.new) }
    ensures limit { framer.new.limit ≡ framer.old.limit }
    ensures setup { server.new.setup ≡ server.old.setup }
    ensures fault { IfErr result (EndsWith (A.failed audit.new) (R.failed replies.new reply.new)) }
    ensures stays { StaysFailed (A.broken audit.old) (A.contents audit.old) (A.broken audit.new) (A.contents audit.new) }
    ensures most { reply.new.most ≡ reply.old.most }
    ensures feeds { FeedsSome origin chunk.now room result server.old server.new framer.old framer.new
        (device (A.contents audit.old) (A.contents audit.new))
        (device (R.contents replies.old reply.old.earlier) (R.contents replies.new reply.new.earlier)) }
    ensures waits { IfOk result (λ taken. Waits taken.stop (A.full audit.new) origin (drop taken.used chunk.now) server.new framer.new) }
{
    let mut used = 0;
    let mut records = 0;
    let mut left = room;
    let mut stop = Stop::Done;
    while stop == Stop::Done && used < chunk.len() && !is_used_up(left) {
        match take_record(
            server,
            reply,
            framer,
            origin,
            &chunk[used..],
            replies,
            audit,
        ) {
            Ok(step) => {
                used += step.used;
                records += step.records;
                left = room_after(left, step.replied);
                stop = step.stop;
            }
            Err(fault) => return Err(fault),
        }
    }
    Ok(Taken {
        used,
        records,
        stop,
    })
}

// Whether room for bytes, if it is bounded, is used up.
#[inline(always)]
fn is_used_up(room: Option<usize>) -> bool
    ensures { IsTrue result ↔ (room ≡ Some 0) }
{
    match room {
        Some(room) => room == 0,
        None => false,
    }
}

// What is left of room for bytes, if it is bounded, after so many more.
#[inline(always)]
fn room_after(room: Option<usize>, len: usize) -> Option<usize>
    ensures { result ≡ room_left room len }
{
    match room {
        Some(room) => Some(room.saturating_sub(len)),
        None => None,
    }
}

// Takes a chunk up to the end of the first record, which it answers, or nothing of it where that
// record waits. One that stands whole in the chunk is read there.
#[inline(always)]
fn take_record<R: ReplyOut, A: AuditOut>(
    server: &mut Server,
    reply: &mut ReplyBuf,
    framer: &mut Framer,
    origin: Origin,
    chunk: &[u8],
    replies: &mut R,
    audit: &mut A,
) -> Result<Step, SessionFault>
    requires { IsBetween framer.old }
    ensures used { IfOk result (λ step. step.used ≤ length chunk.now) }
    ensures some { 0 < length chunk.now → IfOk result (λ step. step.stop ≡ Stop.Done → 0 < step.used) }
    ensures counted { IfOk result (λ step. step.records ≤ step.used) }
    ensures between { OnOk result (IsBetween framer.new) }
    ensures limit { framer.new.limit ≡ framer.old.limit }
    ensures setup { server.new.setup ≡ server.old.setup }
    ensures fault { IfErr result (EndsWith (A.failed audit.new) (R.failed replies.new reply.new)) }
    ensures stays { StaysFailed (A.broken audit.old) (A.contents audit.old) (A.broken audit.new) (A.contents audit.new) }
    ensures most { reply.new.most ≡ reply.old.most }
    ensures feeds { FeedsOne origin chunk.now result server.old server.new framer.old framer.new
        (device (A.contents audit.old) (A.contents audit.new))
        (device (R.contents replies.old reply.old.earlier) (R.contents replies.new reply.new.earlier)) }
    ensures waits { IfOk result (λ step. Holds step.stop step.used × Waits step.stop (A.full audit.new) origin chunk.now server.new framer.new) }
{
    let Some(content) = framer.lend(chunk) else {
        return take_fed(server, reply, framer, origin, chunk, replies, audit);
    };
    let event = Event {
        addr: origin.addr,
        moment: origin.moment,
        bytes: content,
    };
    if audit.is_full() && server.would_deny(event) {
        return Ok(Step::held(Stop::Denied));
    }
    let replied = answer_event(server, reply, event, replies, audit)?;
    Ok(Step {
        used: HEADER_BYTES + content.len(),
        records: 1,
        replied,
        stop: Stop::Done,
    })
}

// The same, where the record doesn't stand whole in the chunk.
fn take_fed<R: ReplyOut, A: AuditOut>(
    server: &mut Server,
    reply: &mut ReplyBuf,
    framer: &mut Framer,
    origin: Origin,
    chunk: &[u8],
    replies: &mut R,
    audit: &mut A,
) -> Result<Step, SessionFault>
    requires between { IsBetween framer.old }
    requires none { IsBefore framer.old → HasNoneAtFront framer.old.limit chunk.now }
    ensures used { IfOk result (λ step. step.used ≤ length chunk.now) }
    ensures some { 0 < length chunk.now → IfOk result (λ step. step.stop ≡ Stop.Done → 0 < step.used) }
    ensures counted { IfOk result (λ step. step.records ≤ step.used) }
    ensures between { OnOk result (IsBetween framer.new) }
    ensures limit { framer.new.limit ≡ framer.old.limit }
    ensures setup { server.new.setup ≡ server.old.setup }
    ensures fault { IfErr result (EndsWith (A.failed audit.new) (R.failed replies.new reply.new)) }
    ensures stays { StaysFailed (A.broken audit.old) (A.contents audit.old) (A.broken audit.new) (A.contents audit.new) }
    ensures most { reply.new.most ≡ reply.old.most }
    ensures feeds { FeedsOne origin chunk.now result server.old server.new framer.old framer.new
        (device (A.contents audit.old) (A.contents audit.new))
        (device (R.contents replies.old reply.old.earlier) (R.contents replies.new reply.new.earlier)) }
    ensures waits { IfOk result (λ step. Holds step.stop step.used × Waits step.stop (A.full audit.new) origin chunk.now server.new framer.new) }
{
    let before = match copy_where(audit.is_full(), framer) {
        Ok(before) => before,
        Err(_) => return Ok(Step::held(Stop::Memory)),
    };
    let fed = framer.feed(chunk)?;
    if !fed.ready {
        return Ok(Step {
            used: fed.used,
            records: 0,
            replied: 0,
            stop: Stop::Done,
        });
    }
    if let Some(before) = before {
        let event = Event {
            addr: origin.addr,
            moment: origin.moment,
            bytes: framer.whole(),
        };
        if server.would_deny(event) {
            *framer = before;
            return Ok(Step::held(Stop::Denied));
        }
    }
    let replied = answer_record(server, reply, framer, origin, replies, audit)?;
    Ok(Step {
        used: fed.used,
        records: 1,
        replied,
        stop: Stop::Done,
    })
}

// A copy of a framer, to which it can go back, where one is wanted. Refused without memory.
fn copy_where(is_wanted: bool, framer: &Framer) -> Result<Option<Framer>, AllocError>
    ensures some { IfOk result (λ copy. IfSome copy (λ before. (before ≡ framer.now) × (is_wanted ≡ true))) }
    ensures wanted { is_wanted ≡ true → IfOk result IsSome }
    ensures unwanted { is_wanted ≡ false → result ≡ Ok None }
{
    if !is_wanted {
        return Ok(None);
    }
    match framer.copied() {
        Ok(copy) => Ok(Some(copy)),
        Err(error) => Err(error),
    }
}

// Answers the record that is whole, and goes on to the next. Answers how many bytes of replies were
// written.
#[inline(always)]
pub(crate) fn answer_record<R: ReplyOut, A: AuditOut>(
    server: &mut Server,
    reply: &mut ReplyBuf,
    framer: &mut Framer,
    origin: Origin,
    replies: &mut R,
    audit: &mut A,
) -> Result<usize, SessionFault>
    requires ready { framer.old.stage ≡ Stage.Ready }
    requires spared { A.full audit.old ≡ true → fails_rule server.old (event_at origin framer.old.content) ≡ false }
    ensures next { BeginsAnew framer.new }
    ensures limit { framer.new.limit ≡ framer.old.limit }
    ensures setup { server.new.setup ≡ server.old.setup }
    ensures fault { IfErr result (EndsWith (A.failed audit.new) (R.failed replies.new reply.new)) }
    ensures stays { StaysFailed (A.broken audit.old) (A.contents audit.old) (A.broken audit.new) (A.contents audit.new) }
    ensures most { reply.new.most ≡ reply.old.most }
    ensures answers { AnswersEvent (event_at origin framer.old.content) result server.old server.new
        (device (A.contents audit.old) (A.contents audit.new))
        (device (R.contents replies.old reply.old.earlier) (R.contents replies.new reply.new.earlier)) }
{
    let event = Event {
        addr: origin.addr,
        moment: origin.moment,
        bytes: framer.whole(),
    };
    let replied = answer_event(server, reply, event, replies, audit);
    framer.next();
    replied
}

// Answers an event, and how many bytes of replies were written.
#[inline(always)]
fn answer_event<R: ReplyOut, A: AuditOut>(
    server: &mut Server,
    reply: &mut ReplyBuf,
    event: Event<'_>,
    replies: &mut R,
    audit: &mut A,
) -> Result<usize, SessionFault>
    requires { A.full audit.old ≡ true → fails_rule server.old (seen.event_of event) ≡ false }
    ensures setup { server.new.setup ≡ server.old.setup }
    ensures fault { IfErr result (EndsWith (A.failed audit.new) (R.failed replies.new reply.new)) }
    ensures stays { StaysFailed (A.broken audit.old) (A.contents audit.old) (A.broken audit.new) (A.contents audit.new) }
    ensures most { reply.new.most ≡ reply.old.most }
    ensures answers { AnswersEvent (seen.event_of event.entry) result server.old server.new
        (device (A.contents audit.old) (A.contents audit.new))
        (device (R.contents replies.old reply.old.earlier) (R.contents replies.new reply.new.earlier)) }
{
    match server.handle(event, reply) {
        Handled::Answered => write_answer(server, event, reply, replies, audit),
        Handled::NoReply => Ok(0),
    }
}

// Writes the audit line of the call of an event, if it has one, and then its reply, and answers the
// number of the reply's bytes.
#[inline(always)]
fn write_answer<R: ReplyOut, A: AuditOut>(
    server: &Server,
    event: Event<'_>,
    reply: &mut ReplyBuf,
    replies: &mut R,
    audit: &mut A,
) -> Result<usize, SessionFault>
    requires { A.full audit.old ≡ true → IsSpared server.now.line }
    ensures fault { IfErr result (EndsWith (A.failed audit.new) (R.failed replies.new reply.new)) }
    ensures stays { StaysFailed (A.broken audit.old) (A.contents audit.old) (A.broken audit.new) (A.contents audit.new) }
    ensures most { reply.new.most ≡ reply.old.most }
    ensures writes { Writes (reported reply.old.reply server.now.line) result
        (device (A.contents audit.old) (A.contents audit.new))
        (device (R.contents replies.old reply.old.earlier) (R.contents replies.new reply.new.earlier)) }
{
    if let Some(denied) = server.last_audit() {
        if audit.take(&denied, event, server).is_err() {
            return Err(SessionFault::AuditFault);
        }
    }
    match replies.take(reply) {
        Ok(len) => Ok(len),
        Err(_) => Err(SessionFault::WriteFault),
    }
}
