//! One stream of records, which is read until it ends.
ghost use Rattle.std.specs.Prelude.{◌≡◌, ◌+◌, ◌^◌, ◌<◌, ◌≤◌, [], length, IfOk, IfErr, OnOk};
ghost use Rattle.nfs_server.specs.Connections.{IsBetween, max_record_bytes};
ghost use Rattle.nfs_server.specs.Feeding.{device, EndsWith};
ghost use Rattle.nfs_server.specs.Fits.{History, Fits};
ghost use Rattle.nfs_server.specs.Streams.{bytes_used, calls_of, course, left_after, served_of, FailsWith, StreamFeeds, Streams};
ghost use Rattle.nfs_rpc.specs.Progress.{Unfinished};
ghost use Rattle.nfs_xdr.specs.Known.{IsAtEnd};

use crate::connection::MAX_RECORD_BYTES;
use crate::moments::Moments;
use crate::reply_buf::ReplyBuf;
use crate::serve_fault::ServeFault;
use crate::server::Server;
use crate::session_fault::SessionFault;
use crate::taking::{Origin, answer_record};
use nfs_exports::addr::Addr;
use nfs_rpc::framer::Framer;
use nfs_xdr::device::{ByteIn, ByteOut};
use std::alloc::Global;

// The most bytes that one read asks for.
const READ_BYTES: usize = 8192;

/// What a stream brought until it ended.
#[derive(Clone, Copy, Debug, PartialEq, Eq)]
pub struct Served {
    /// The number of records that it held.
    pub calls: u64,
    /// The number of bytes after the last of them, those of headers too.
    pub rest: u64,
}

/// Serves a stream of records from an address, from its beginning: reads it until it ends, and
/// answers each record as it becomes whole, at the moment that the clock reports then; its audit line,
/// where it is denied, and then its framed reply are written before the next is looked at. One read
/// asks for at most 8,192 bytes, and there are at most `turns` reads.
///
/// `ReadFault`, `AuditFault` and `WriteFault` come where that device has failed, `TooLong` where a
/// header brings a record above the limit, `TurnsSpent` where all reads gave bytes, and `Memory`
/// where there is none for the replies, before the first read, or for a record. What was done before
/// stands.
pub fn serve_stream<R: ByteIn, W: ByteOut, A: ByteOut, C: Moments>(
    alloc: Global,
    server: &mut Server,
    addr: Addr,
    reader: &mut R,
    writer: &mut W,
    audit: &mut A,
    clock: &mut C,
    turns: u32,
) -> Result<Served, ServeFault>
    ensures streams { (history : History) → Fits history server.old → Streams R.gives R.breaks C.reports history addr turns result server.new
        (course reader.old reader.new) (course clock.old clock.new)
        (device (A.contents audit.old) (A.contents audit.new))
        (device (W.contents writer.old) (W.contents writer.new)) }
    ensures end { OnOk result (IsAtEnd (R.remaining reader.new)) }
    ensures fault { IfErr result (FailsWith (R.failed reader.new) (A.failed audit.new) (W.failed writer.new)) }
    ensures setup { server.new.setup ≡ server.old.setup }
{
    let Ok(mut reply) = ReplyBuf::new(alloc) else {
        return Err(ServeFault::Memory);
    };
    let mut framer = Framer::new(alloc, MAX_RECORD_BYTES);
    read_stream(
        server,
        &mut reply,
        &mut framer,
        addr,
        reader,
        writer,
        audit,
        clock,
        turns,
    )
}

// Reads a stream until it ends, from the beginning of a record on.
fn read_stream<R: ByteIn, W: ByteOut, A: ByteOut, C: Moments>(
    server: &mut Server,
    reply: &mut ReplyBuf,
    framer: &mut Framer,
    addr: Addr,
    reader: &mut R,
    writer: &mut W,
    audit: &mut A,
    clock: &mut C,
    turns: u32,
) -> Result<Served, ServeFault>
    requires between { IsBetween framer.old }
    requires begins { Unfinished [] framer.old }
    requires limit { framer.old.limit ≡ max_record_bytes }
    ensures streams { (history : History) → Fits history server.old → Streams R.gives R.breaks C.reports history addr turns result server.new
        (course reader.old reader.new) (course clock.old clock.new)
        (device (A.contents audit.old) (A.contents audit.new))
        (device (W.contents writer.old) (W.contents writer.new)) }
    ensures end { OnOk result (IsAtEnd (R.remaining reader.new)) }
    ensures fault { IfErr result (FailsWith (R.failed reader.new) (A.failed audit.new) (W.failed writer.new)) }
    ensures setup { server.new.setup ≡ server.old.setup }
{
    let mut buffer = [0u8; READ_BYTES];
    let mut served = Served { calls: 0, rest: 0 };
    for _turn in 0..turns {
        let Ok(n) = reader.read(&mut buffer) else {
            return Err(ServeFault::ReadFault);
        };
        if n == 0 {
            return Ok(served);
        }
        match take_read(
            server,
            reply,
            framer,
            addr,
            served.rest,
            &buffer[..n],
            writer,
            audit,
            clock,
        ) {
            Ok(taken) => {
                served = Served {
                    calls: served.calls + taken.calls,
                    rest: taken.rest,
                };
            }
            Err(fault) => return Err(ServeFault::of_session(fault)),
        }
    }
    Err(ServeFault::TurnsSpent)
}

// Takes what a read gave, after so many unfinished bytes, and answers each record that it makes
// whole. Answers how many these are, and how many bytes are unfinished then.
fn take_read<W: ByteOut, A: ByteOut, C: Moments>(
    server: &mut Server,
    reply: &mut ReplyBuf,
    framer: &mut Framer,
    addr: Addr,
    unfinished: u64,
    chunk: &[u8],
    replies: &mut W,
    audit: &mut A,
    clock: &mut C,
) -> Result<Served, SessionFault>
    requires between { IsBetween framer.old }
    requires room { unfinished + length chunk.now < 2 ^ 64 }
    ensures calls { IfOk result (λ served. served.calls ≤ length chunk.now) }
    ensures rest { IfOk result (λ served. served.rest ≤ unfinished + length chunk.now) }
    ensures between { OnOk result (IsBetween framer.new) }
    ensures limit { framer.new.limit ≡ framer.old.limit }
    ensures setup { server.new.setup ≡ server.old.setup }
    ensures fault { IfErr result (EndsWith (A.failed audit.new) (W.failed replies.new)) }
    ensures feeds { StreamFeeds C.reports addr chunk.now (calls_of result) (course unfinished (left_after result))
        (course server.old server.new) (course framer.old framer.new) (course clock.old clock.new)
        (device (A.contents audit.old) (A.contents audit.new))
        (device (W.contents replies.old) (W.contents replies.new)) }
{
    let mut used = 0;
    let mut taken = Served {
        calls: 0,
        rest: unfinished,
    };
    while used < chunk.len() {
        match take_one(
            server,
            reply,
            framer,
            addr,
            taken.rest,
            &chunk[used..],
            replies,
            audit,
            clock,
        ) {
            Ok(part) => {
                used += part.used;
                taken = Served {
                    calls: taken.calls + part.served.calls,
                    rest: part.served.rest,
                };
            }
            Err(fault) => return Err(fault),
        }
    }
    Ok(taken)
}

// What became of a chunk up to the end of the first record.
#[derive(Clone, Copy, Debug, PartialEq, Eq)]
struct Part {
    // The number of bytes taken.
    used: usize,
    // The number of records that they made whole, one or none, and of bytes unfinished then.
    served: Served,
}

// Takes a chunk up to the end of the first record, after so many unfinished bytes. The record is
// answered at the moment that the clock reports then.
fn take_one<W: ByteOut, A: ByteOut, C: Moments>(
    server: &mut Server,
    reply: &mut ReplyBuf,
    framer: &mut Framer,
    addr: Addr,
    unfinished: u64,
    chunk: &[u8],
    replies: &mut W,
    audit: &mut A,
    clock: &mut C,
) -> Result<Part, SessionFault>
    requires between { IsBetween framer.old }
    requires room { unfinished + length chunk.now < 2 ^ 64 }
    ensures used { IfOk result (λ part. part.used ≤ length chunk.now) }
    ensures some { 0 < length chunk.now → IfOk result (λ part. 0 < part.used) }
    ensures calls { IfOk result (λ part. part.served.calls ≤ part.used) }
    ensures rest { IfOk result (λ part. part.served.rest ≤ unfinished + part.used) }
    ensures between { OnOk result (IsBetween framer.new) }
    ensures limit { framer.new.limit ≡ framer.old.limit }
    ensures setup { server.new.setup ≡ server.old.setup }
    ensures fault { IfErr result (EndsWith (A.failed audit.new) (W.failed replies.new)) }
    ensures feeds { StreamFeeds C.reports addr (bytes_used result chunk.now) (calls_of (served_of result))
        (course unfinished (left_after (served_of result)))
        (course server.old server.new) (course framer.old framer.new) (course clock.old clock.new)
        (device (A.contents audit.old) (A.contents audit.new))
        (device (W.contents replies.old) (W.contents replies.new)) }
{
    let fed = framer.feed(chunk)?;
    if !fed.ready {
        return Ok(Part {
            used: fed.used,
            served: Served {
                calls: 0,
                rest: unfinished + fed.used as u64,
            },
        });
    }
    let origin = Origin {
        addr,
        moment: clock.now(),
    };
    answer_record(server, reply, framer, origin, replies, audit)?;
    Ok(Part {
        used: fed.used,
        served: Served { calls: 1, rest: 0 },
    })
}
