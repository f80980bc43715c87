//! A client of a server.
ghost use Rattle.std.specs.Prelude.{◌≡◌, ◌≢◌, ◌⊎◌, ◌≤◌, ◌↔◌, Bool, vec_capacity, ℕ, List, [], length, None, Some, true, false, IsTrue, IfOk, IfErr, OnOk, OnErr};
ghost use Rattle.nfs_server.specs.Connections.{IsAtStart};
ghost use Rattle.nfs_server.specs.Feeding.{device, EndsWith};
ghost use Rattle.nfs_server.specs.Taking.{Waits};
ghost use Rattle.nfs_serving.specs.Outgoing.{IsDrained};
ghost use Rattle.nfs_serving.specs.Turns.{EndsForCause, Gathers, HasAsked, IsAtRest, IsCause, IsCauseInRecords, IsEndBy, IsEndedBy, IsHeld, IsPendingSince, Rests, Takes, Reports, SendsPending, Turns, origin_of};
ghost use Rattle.nfs_xdr.specs.Known.{StaysFailed};

use crate::buffer::Buffer;
use crate::channel::Channel;
use crate::receive_size::ReceiveSize;
use crate::traffic::Traffic;
use crate::turn::{End, Turn};
use crate::turn_buffers::TurnBuffers;
use nfs_attrs::moment::Moment;
use nfs_exports::addr::Addr;
use nfs_server::audit_out::AuditOut;
use nfs_server::connection::Connection;
use nfs_server::reply_buf::{MOST_GATHERED, ROOM, ReplyBuf};
use nfs_server::reply_out::Gathering;
use nfs_server::serve_fault::ServeFault;
use nfs_server::server::Server;
use nfs_server::session_fault::SessionFault;
use nfs_server::taking::Stop;
use nfs_xdr::device::DeviceFault;
use nfs_xdr::link::{Came, Link};
use std::alloc::Global;
use std::marker::Model;

// After the reply with which so many bytes are pending, no more is taken: so all that gather in a turn
// have room.
const MOST_PENDING: usize = MOST_GATHERED - ROOM;

/// A connection over a link: what has come and is not taken yet, and what is pending.
#[derive(Drop)]
pub struct Client<L> {
    connection: Connection,
    channel: Channel<L>,
    chunk: Buffer,
    end: Option<End>,
    calls: u64,
    receive_size: ReceiveSize,
}

impl<L> Model for Client<L> {
    ghost use Rattle.std.specs.Prelude.{◌≡◌, None, false};
    ghost use Rattle.nfs_serving.specs.Turns.{Standing};

    ghost Value = { Standing L };

    ghost view = { λ c. record { connection = c.connection; channel = c.channel; chunk = c.chunk.bytes; end = c.end; calls = c.calls } };

    ghost invariant = { λ c. c.end ≡ None → c.connection.ended ≡ false };
}

impl<L: Link> Client<L> {
    /// A client at an address, at the beginning of its stream. Until something comes, it takes no
    /// memory but its own.
    pub fn new(alloc: Global, addr: Addr, link: L) -> Client<L>
        ensures start { IsAtStart addr result.connection }
        ensures channel { result.channel ≡ record { link = link; pending = []; failed = false } }
        ensures chunk { result.chunk ≡ [] }
        ensures end { result.end ≡ None }
        ensures calls { result.calls ≡ 0 }
    {
        Client {
            connection: Connection::new(alloc, addr),
            channel: Channel::new(alloc, link),
            chunk: Buffer::new(alloc),
            end: None,
            calls: 0,
            receive_size: ReceiveSize::new(),
        }
    }

    /// The link.
    pub fn link(&self) -> &L
        ensures { result.now ≡ self.now.channel.link }
    {
        self.channel.link()
    }

    /// How many records were answered, but for those of a turn that a fault of its records, of the audit
    /// lines or of memory ended.
    pub fn calls(&self) -> u64
        ensures { result ≡ self.now.calls }
    {
        self.calls
    }

    /// How many bytes came from it, and how many went to it.
    pub fn traffic(&self) -> Traffic {
        self.channel.traffic()
    }

    /// How many bytes of replies are pending.
    pub fn pending(&self) -> usize
        ensures { result ≡ length self.now.channel.pending }
    {
        self.channel.pending()
    }

    /// How its connection ended, if it has.
    pub fn end(&self) -> Option<End>
        ensures { result ≡ self.now.end }
    {
        self.end
    }

    /// Whether nothing is on its way: no reply is pending, and no byte of a record has come that is not
    /// answered.
    pub fn is_at_rest(&self) -> bool
        ensures { IsTrue result ↔ IsAtRest self.now }
    {
        self.channel.is_settled() && self.chunk.is_empty() && self.connection.is_before_record()
    }

    /// Gives the client its turn: what is pending goes out first, as much as the link takes. Only where
    /// nothing is pending any more, some bytes that have come are taken, each record that they make whole
    /// is answered, its audit line, where it is denied, written before the next is looked at, and the
    /// replies go out together, as much as the link takes. Where the log is full, nothing is taken from a
    /// call on that fails a rule; where its device has failed, nothing more is written to it.
    ///
    /// A fault of a record, of the audit lines or of memory ends the connection after the replies
    /// to the records before it; a fault of the link ends it at once.
    ///
    /// Where the turn holds its replies, none of them goes out, and they are pending: nothing goes out in
    /// it but what was pending when it began.
    pub fn turn<A: AuditOut>(
        &mut self,
        server: &mut Server,
        room: &mut TurnBuffers,
        moment: Moment,
        audit: &mut A,
        holds: bool,
    ) -> Turn
        ensures turns { Turns L.outgoing L.incoming moment self.old self.new server.old server.new
            (device (A.contents audit.old) (A.contents audit.new)) }
        ensures reports { Reports result self.new }
        ensures held { result ≡ Turn.Held → IsHeld moment self.new server.new (A.full audit.new) }
        ensures holds { holds ≡ true → SendsPending L.outgoing self.old self.new }
        ensures since { IsPendingSince holds self.old.channel.pending result }
        ensures asked { HasAsked L.incoming L.reports result self.new }
        ensures setup { server.new.setup ≡ server.old.setup }
        ensures stays { StaysFailed (A.broken audit.old) (A.contents audit.old) (A.broken audit.new) (A.contents audit.new) }
        ensures cause { EndsForCause L.incoming L.failed (A.failed audit.new) self.old self.new }
    {
        if self.pass_on().is_err() {
            return self.ends(End::Fault(ServeFault::WriteFault));
        }
        if !self.channel.is_settled() {
            return Turn::Owing;
        }
        if let Some(end) = self.end {
            return Turn::Ended(end);
        }
        self.take(server, room, moment, audit, holds)
    }

    // Sends what is pending, as much of it as the link takes.
    fn pass_on(&mut self) -> Result<(), DeviceFault>
        ensures rests { Rests L.outgoing L.incoming [] self.old self.new }
        ensures end { self.new.end ≡ self.old.end }
        ensures fault { OnErr result (self.new.channel.failed ≡ true) }
    {
        self.channel.pass_on()
    }

    // Takes some bytes that have come, where nothing is pending.
    fn take<A: AuditOut>(
        &mut self,
        server: &mut Server,
        room: &mut TurnBuffers,
        moment: Moment,
        audit: &mut A,
        holds: bool,
    ) -> Turn
        requires pending { self.old.channel.pending ≡ [] }
        requires alive { self.old.end ≡ None }
        ensures turns { Turns L.outgoing L.incoming moment self.old self.new server.old server.new
            (device (A.contents audit.old) (A.contents audit.new)) }
        ensures reports { Reports result self.new }
        ensures held { result ≡ Turn.Held → IsHeld moment self.new server.new (A.full audit.new) }
        ensures holds { holds ≡ true → L.outgoing self.new.channel.link ≡ L.outgoing self.old.channel.link }
        ensures since { IsPendingSince holds [] result }
        ensures asked { HasAsked L.incoming L.reports result self.new }
        ensures setup { server.new.setup ≡ server.old.setup }
        ensures stays { StaysFailed (A.broken audit.old) (A.contents audit.old) (A.broken audit.new) (A.contents audit.new) }
        ensures cause { IsCause L.incoming L.failed (A.failed audit.new) self.new.end self.new }
    {
        if room.make().is_err() {
            return self.ends(End::Fault(ServeFault::Memory));
        }
        let turn = self.take_some(server, room, moment, audit, holds);
        self.chunk.give_back(&mut room.bytes);
        turn
    }

    // The same, where there is room for all replies to be pending, and keeps the room for what came.
    fn take_some<A: AuditOut>(
        &mut self,
        server: &mut Server,
        room: &mut TurnBuffers,
        moment: Moment,
        audit: &mut A,
        holds: bool,
    ) -> Turn
        requires pending { self.old.channel.pending ≡ [] }
        requires alive { self.old.end ≡ None }
        requires room { MOST_GATHERED ≤ vec_capacity room.old.pending }
        ensures turns { Turns L.outgoing L.incoming moment self.old self.new server.old server.new
            (device (A.contents audit.old) (A.contents audit.new)) }
        ensures reports { Reports result self.new }
        ensures held { result ≡ Turn.Held → IsHeld moment self.new server.new (A.full audit.new) }
        ensures holds { holds ≡ true → L.outgoing self.new.channel.link ≡ L.outgoing self.old.channel.link }
        ensures since { IsPendingSince holds [] result }
        ensures asked { HasAsked L.incoming L.reports result self.new }
        ensures setup { server.new.setup ≡ server.old.setup }
        ensures stays { StaysFailed (A.broken audit.old) (A.contents audit.old) (A.broken audit.new) (A.contents audit.new) }
        ensures cause { IsCause L.incoming L.failed (A.failed audit.new) self.new.end self.new }
    {
        if self.chunk.is_empty() {
            return match self.receive(&mut room.bytes) {
                Ok(may_be_more) => self.feed(server, room, moment, audit, may_be_more, holds),
                Err(turn) => turn,
            };
        }
        // What came since these bytes were received may have been reported already.
        self.feed(server, room, moment, audit, true, holds)
    }

    // Receives what has come, in place of what was taken: whether there may be more, which is so where
    // as much came as there was room for. Where nothing has come, what becomes of the turn.
    #[inline(always)]
    fn receive(&mut self, room: &mut Vec<u8>) -> Result<bool, Turn>
        requires chunk { self.old.chunk ≡ [] }
        requires pending { self.old.channel.pending ≡ [] }
        requires alive { self.old.end ≡ None }
        ensures rests { (came : List ℕ) × Rests L.outgoing L.incoming came self.old self.new }
        ensures outgoing { L.outgoing self.new.channel.link ≡ L.outgoing self.old.channel.link }
        ensures goes_on { OnOk result (self.new.end ≡ None) }
        ensures pending { self.new.channel.pending ≡ [] }
        ensures reports { IfErr result (λ turn. Reports turn self.new) }
        ensures held { IfErr result (λ turn. turn ≢ Turn.Held) }
        ensures since { (holds : Bool) → IfErr result (IsPendingSince holds []) }
        ensures drained { IfOk result (λ may_be_more. may_be_more ≡ false → IsDrained L.incoming L.reports self.new.channel.link) }
        ensures asked { IfErr result (λ turn. HasAsked L.incoming L.reports turn self.new) }
        ensures cause { (audit_failed : Bool) → IsCause L.incoming L.failed audit_failed self.new.end self.new }
    {
        if self.chunk.borrow_room(room).is_err() {
            return Err(self.ends(End::Fault(ServeFault::Memory)));
        }
        let most = self.receive_size.next(self.connection.begun());
        let Ok(received) = self.channel.receive(&mut self.chunk, most) else {
            return Err(self.ends(End::Fault(ServeFault::ReadFault)));
        };
        match received.came {
            Came::Bytes(n) => Ok(n == received.room),
            Came::Nothing => Err(Turn::Idle),
            Came::End => Err(self.ends(End::Closed)),
        }
    }

    // Feeds the connection with what has come, and sends the replies. There may be more to receive
    // after it, of which the system will report nothing.
    #[inline(always)]
    fn feed<A: AuditOut>(
        &mut self,
        server: &mut Server,
        room: &mut TurnBuffers,
        moment: Moment,
        audit: &mut A,
        may_be_more: bool,
        holds: bool,
    ) -> Turn
        requires pending { self.old.channel.pending ≡ [] }
        requires alive { self.old.end ≡ None }
        requires room { MOST_GATHERED ≤ vec_capacity room.old.pending }
        requires drained { may_be_more ≡ false → IsDrained L.incoming L.reports self.old.channel.link }
        ensures takes { Takes L.outgoing L.incoming moment [] self.old self.new server.old server.new
            (device (A.contents audit.old) (A.contents audit.new)) }
        ensures reports { Reports result self.new }
        ensures held { result ≡ Turn.Held → IsHeld moment self.new server.new (A.full audit.new) }
        ensures holds { holds ≡ true → L.outgoing self.new.channel.link ≡ L.outgoing self.old.channel.link }
        ensures since { IsPendingSince holds [] result }
        ensures asked { HasAsked L.incoming L.reports result self.new }
        ensures setup { server.new.setup ≡ server.old.setup }
        ensures stays { StaysFailed (A.broken audit.old) (A.contents audit.old) (A.broken audit.new) (A.contents audit.new) }
        ensures cause { IsCause L.incoming L.failed (A.failed audit.new) self.new.end self.new }
    {
        let stop = self.answer(server, &mut room.reply, moment, audit);
        let sent = self
            .channel
            .send(room.reply.gathered(), &mut room.pending, holds);
        self.outcome(sent.is_ok(), may_be_more, stop, holds)
    }

    // What became of a turn after which the link is whole or broken, and which took bytes, up to where it
    // stopped, after which there may be more, and held its replies or not.
    fn outcome(&mut self, is_whole: bool, may_be_more: bool, stop: Stop, holds: bool) -> Turn
        requires whole { is_whole ≡ false → self.old.channel.failed ≡ true }
        requires drained { may_be_more ≡ false → IsDrained L.incoming L.reports self.old.channel.link }
        ensures connection { self.new.connection ≡ self.old.connection }
        ensures channel { self.new.channel ≡ self.old.channel }
        ensures chunk { self.new.chunk ≡ self.old.chunk }
        ensures calls { self.new.calls ≡ self.old.calls }
        ensures reports { Reports result self.new }
        ensures held { result ≡ Turn.Held → stop ≢ Stop.Done }
        ensures since { IsPendingSince holds [] result }
        ensures asked { HasAsked L.incoming L.reports result self.new }
        ensures ends { (self.new.end ≡ self.old.end) ⊎ ((self.new.end ≡ Some (End.Fault ServeFault.WriteFault)) × (self.new.channel.failed ≡ true)) }
        ensures cause { (audit_failed : Bool) → IsCauseInRecords self.old.connection.ended audit_failed self.old.end → IsCause L.incoming L.failed audit_failed self.new.end self.new }
    {
        if !is_whole {
            return self.ends(End::Fault(ServeFault::WriteFault));
        }
        if !self.channel.is_settled() {
            return if holds { Turn::Answered } else { Turn::Owing };
        }
        match self.end {
            Some(end) => Turn::Ended(end),
            None if stop != Stop::Done => Turn::Held,
            None if self.chunk.is_empty() && !may_be_more => Turn::Drained,
            None => Turn::Fed,
        }
    }

    // Feeds the connection with what has come, and answers why no more of it was taken. The replies
    // gather in the buffer in which they are written. Where they have no room there, they end it for
    // want of memory.
    fn answer<A: AuditOut>(
        &mut self,
        server: &mut Server,
        reply: &mut ReplyBuf,
        moment: Moment,
        audit: &mut A,
    ) -> Stop
        requires alive { self.old.end ≡ None }
        ensures waits { Waits result (A.full audit.new) (origin_of self.new moment) self.new.chunk server.new self.new.connection.progress }
        ensures gathers { Gathers moment self.old self.new server.old server.new
            (device (A.contents audit.old) (A.contents audit.new)) reply.new }
        ensures most { reply.new.most ≡ reply.old.most }
        ensures cause { IsCauseInRecords self.new.connection.ended (A.failed audit.new) self.new.end }
        ensures setup { server.new.setup ≡ server.old.setup }
        ensures stays { StaysFailed (A.broken audit.old) (A.contents audit.old) (A.broken audit.new) (A.contents audit.new) }
    {
        reply.clear_all();
        let mut gathering = Gathering;
        let chunk = self.chunk.bytes();
        let (most, out) = (Some(MOST_PENDING), &mut gathering);
        match self
            .connection
            .feed(server, reply, moment, chunk, most, out, audit)
        {
            Ok(taken) => {
                self.chunk.take(taken.used);
                self.calls = self.calls.saturating_add(taken.records);
                taken.stop
            }
            Err(fault) => {
                self.chunk.clear();
                self.end = Some(End::Fault(fault_of(fault)));
                Stop::Done
            }
        }
    }

    // The connection ends so.
    #[cold]
    fn ends(&mut self, end: End) -> Turn
        ensures turn { result ≡ Turn.Ended end }
        ensures end { self.new.end ≡ Some end }
        ensures connection { self.new.connection ≡ self.old.connection }
        ensures channel { self.new.channel ≡ self.old.channel }
        ensures chunk { self.new.chunk ≡ self.old.chunk }
        ensures calls { self.new.calls ≡ self.old.calls }
    {
        self.end = Some(end);
        Turn::Ended(end)
    }
}

// The fault that a connection ends with. Where replies don't gather, there is no room for them.
#[cold]
fn fault_of(fault: SessionFault) -> ServeFault
    requires { (audit_failed : Bool) × (replies_failed : Bool) × EndsWith audit_failed replies_failed fault }
    ensures { IsEndedBy fault result }
{
    match ServeFault::of_session(fault) {
        ServeFault::WriteFault => ServeFault::Memory,
        fault => fault,
    }
}
