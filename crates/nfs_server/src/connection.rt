//! A connection: a stream of records from one address.
ghost use Rattle.std.specs.Prelude.{◌≡◌, ◌≤◌, true, false, length, drop, IfOk, IfErr, IsTrue, OnOk, OnErr, IsErrOf, ◌↔◌};
ghost use Rattle.nfs_rpc.specs.Lent.{IsBefore};
ghost use Rattle.nfs_rpc.specs.Stages.{begun_by};
ghost use Rattle.nfs_server.specs.Connections.{IsAtStart};
ghost use Rattle.nfs_server.specs.Feeding.{device, EndsWith};
ghost use Rattle.nfs_server.specs.Taking.{FeedsSome, Waits};
ghost use Rattle.nfs_xdr.specs.Known.{StaysFailed};

use crate::audit_out::AuditOut;
use crate::reply_buf::ReplyBuf;
use crate::reply_out::ReplyOut;
use crate::server::Server;
use crate::session_fault::SessionFault;
use crate::taking::{Origin, Taken, take_chunk};
use nfs_args::limits::MAX_DATA_BYTES;
use nfs_attrs::moment::Moment;
use nfs_exports::addr::Addr;
use nfs_rpc::framer::{Begun, Framer};
use nfs_rpc::record::HEADER_BYTES;
use std::alloc::Global;
use std::marker::Model;

/// The largest record that a connection takes: twice the data of the largest WRITE that the server
/// speaks of.
pub const MAX_RECORD_BYTES: usize = 2 * MAX_DATA_BYTES;

// A record without content (RFC 5531, section 11): it is lent exactly where one may begin.
const EMPTY_RECORD: [u8; HEADER_BYTES] = [0x80, 0, 0, 0];

/// A stream of records from one address.
#[derive(Drop)]
pub struct Connection {
    addr: Addr,
    framer: Framer,
    ended: bool,
}

impl Model for Connection {
    ghost use Rattle.std.specs.Prelude.{◌≡◌, false};
    ghost use Rattle.nfs_server.specs.Connections.{Joined, IsBetween};

    ghost Value = { Joined };

    ghost view = { λ c. record { addr = c.addr; progress = c.framer; ended = c.ended } };

    ghost invariant = { λ c. c.ended ≡ false → IsBetween c.framer };
}

impl Connection {
    /// At the beginning of its stream.
    pub fn new(alloc: Global, addr: Addr) -> Connection
        ensures { IsAtStart addr result }
    {
        Connection {
            addr,
            framer: Framer::new(alloc, MAX_RECORD_BYTES),
            ended: false,
        }
    }

    /// Whether nothing of a record came since the last whole one, but for fragments without content.
    pub fn is_before_record(&self) -> bool
        ensures { IsTrue result ↔ IsBefore self.now.progress }
    {
        self.framer.lend(&EMPTY_RECORD).is_some()
    }

    /// The record of which a fragment has begun and is not whole yet.
    pub fn begun(&self) -> Option<Begun>
        ensures { result ≡ begun_by (length self.now.progress.content) self.now.progress.stage }
    {
        self.framer.begun()
    }

    /// Takes a chunk of the stream, and answers each record that it makes whole. Where there is room
    /// for so many bytes of replies alone, it stops after the record whose reply fills it. Where the log
    /// is full, it stops before a call that fails a rule, and what follows waits.
    ///
    /// `Ended` where a fault ended it: then nothing is written, and nothing changes. Any other fault
    /// ends it.
    pub fn feed<R: ReplyOut, A: AuditOut>(
        &mut self,
        server: &mut Server,
        reply: &mut ReplyBuf,
        moment: Moment,
        chunk: &[u8],
        room: Option<usize>,
        replies: &mut R,
        audit: &mut A,
    ) -> Result<Taken, SessionFault>
        ensures ended { IsErrOf result SessionFault.Ended ↔ (self.old.ended ≡ true) }
        ensures idle { self.old.ended ≡ true →
            (self.new ≡ self.old) × (server.new ≡ server.old) × (reply.new ≡ reply.old) × (replies.new ≡ replies.old) × (audit.new ≡ audit.old) }
        ensures ok { OnOk result (self.new.ended ≡ false) }
        ensures fault { OnErr result (self.new.ended ≡ true) }
        ensures addr { self.new.addr ≡ self.old.addr }
        ensures limit { self.new.progress.limit ≡ self.old.progress.limit }
        ensures kind { self.old.ended ≡ false → IfErr result (EndsWith (A.failed audit.new) (R.failed replies.new reply.new)) }
        ensures stays { StaysFailed (A.broken audit.old) (A.contents audit.old) (A.broken audit.new) (A.contents audit.new) }
        ensures setup { server.new.setup ≡ server.old.setup }
        ensures most { reply.new.most ≡ reply.old.most }
        ensures used { IfOk result (λ taken. taken.used ≤ length chunk.now) }
        ensures feeds { self.old.ended ≡ false → FeedsSome (record { addr = self.old.addr; moment = moment }) chunk.now room
            result server.old server.new self.old.progress self.new.progress
            (device (A.contents audit.old) (A.contents audit.new))
            (device (R.contents replies.old reply.old.earlier) (R.contents replies.new reply.new.earlier)) }
        ensures waits { IfOk result (λ taken. Waits taken.stop (A.full audit.new)
            (record { addr = self.old.addr; moment = moment }) (drop taken.used chunk.now) server.new self.new.progress) }
    {
        if self.ended {
            return Err(SessionFault::Ended);
        }
        let origin = Origin {
            addr: self.addr,
            moment,
        };
        let taken = take_chunk(
            server,
            reply,
            &mut self.framer,
            origin,
            chunk,
            room,
            replies,
            audit,
        );
        self.ended = taken.is_err();
        taken
    }
}
