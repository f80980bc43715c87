//! A server and its connections.
ghost use Rattle.std.specs.Prelude.{◌≡◌, ◌↔◌, ◌≤◌, ◌⊎◌, true, false, [], None, length, IfOk, IfErr, IfSome, OnOk, OnErr, IsSome, IsNone, IsErrOf, Some, is_err};
ghost use Rattle.nfs_server.specs.Connections.{IsAlive, IsAtStart, IsFed, OthersStay, at, has_ended};
ghost use Rattle.nfs_server.specs.Feeding.{device, EndsWith, Feeds};
ghost use Rattle.nfs_server.specs.Fits.{History, Fits};
ghost use Rattle.nfs_server.specs.Runs.{events_of, RunsThrough};
ghost use Rattle.nfs_server.specs.Taking.{FeedsSome};

use crate::connection::Connection;
use crate::event::{Event, Sink};
use crate::reply_buf::ReplyBuf;
use crate::server::Server;
use crate::session_fault::SessionFault;
use crate::taking::{Stop, Taken};
use indexmap::IndexMap;
use nfs_attrs::moment::Moment;
use nfs_exports::addr::Addr;
use nfs_xdr::device::ByteOut;
use std::alloc::{AllocError, Global};
use std::marker::Model;

/// A server with its connections, each of a number of its own. What comes on a connection is
/// answered record by record, as they become whole.
#[derive(Drop)]
pub struct Sessions {
    alloc: Global,
    server: Server,
    reply: ReplyBuf,
    connections: IndexMap<u32, Connection>,
}

impl Model for Sessions {
    ghost use Rattle.nfs_server.specs.Connections.{Open};

    ghost Value = { Open };

    ghost view = { λ s. record { server = s.server; connections = s.connections.entries } };
}

impl Sessions {
    /// The server without a connection. Refused where there is no memory; the server is then
    /// dropped.
    pub fn new(alloc: Global, server: Server) -> Result<Sessions, AllocError>
        ensures { IfOk result (λ s. s ≡ record { server = server; connections = [] }) }
    {
        Ok(Sessions {
            alloc,
            server,
            reply: ReplyBuf::new(alloc)?,
            connections: IndexMap::new(alloc),
        })
    }

    /// The server.
    pub fn server(&self) -> &Server
        ensures { result.now ≡ self.now.server }
    {
        &self.server
    }

    /// `Server::run` on the server, which leaves the connections.
    pub fn run<S: Sink>(&mut self, events: &[Event<'_>], sink: &mut S) -> usize
        ensures bound { result ≤ length events.now }
        ensures run { (history : History) → Fits history self.old.server
            → RunsThrough S.takes history (events_of events.now) result sink.old sink.new self.new.server }
        ensures setup { self.new.server.setup ≡ self.old.server.setup }
        ensures connections { self.new.connections ≡ self.old.connections }
    {
        self.server.run(events, &mut self.reply, sink)
    }

    /// A new connection of this number from this address, at the beginning of its stream.
    /// `ConnectionTaken` exactly where the number has one, also one that a fault ended, else `Memory`
    /// where there is none; nothing changes then.
    pub fn attach(&mut self, conn: u32, addr: Addr) -> Result<(), SessionFault>
        ensures taken { IsErrOf result SessionFault.ConnectionTaken ↔ IsSome (at conn self.old) }
        ensures kind { IfErr result (λ e. (e ≡ SessionFault.ConnectionTaken) ⊎ (e ≡ SessionFault.Memory)) }
        ensures some { OnOk result (IsSome (at conn self.new)) }
        ensures start { OnOk result (IfSome (at conn self.new) (IsAtStart addr)) }
        ensures others { OthersStay conn self.old self.new }
        ensures server { self.new.server ≡ self.old.server }
        ensures err { OnErr result (self.new ≡ self.old) }
    {
        if self.connections.contains_key(&conn) {
            return Err(SessionFault::ConnectionTaken);
        }
        match self
            .connections
            .insert(conn, Connection::new(self.alloc, addr))
        {
            Ok(_) => Ok(()),
            Err(_) => Err(SessionFault::Memory),
        }
    }

    /// Takes the connection of this number away. `UnknownConnection` exactly where there is none;
    /// nothing changes then.
    pub fn detach(&mut self, conn: u32) -> Result<(), SessionFault>
        ensures unknown { IsErrOf result SessionFault.UnknownConnection ↔ IsNone (at conn self.old) }
        ensures kind { IfErr result (λ e. e ≡ SessionFault.UnknownConnection) }
        ensures gone { at conn self.new ≡ None }
        ensures others { OthersStay conn self.old self.new }
        ensures server { self.new.server ≡ self.old.server }
        ensures err { OnErr result (self.new ≡ self.old) }
    {
        match self.connections.swap_remove(&conn) {
            Some(_) => Ok(()),
            None => Err(SessionFault::UnknownConnection),
        }
    }

    /// Takes the next bytes of a connection's stream. Each record that is whole now is one event, in
    /// the order of the stream; its audit line, where it is denied, and then its framed reply are
    /// written before the next is looked at. Answers how many records were answered.
    ///
    /// `UnknownConnection` exactly where no connection has the number, `Ended` exactly where a fault
    /// ended it: these write nothing and change nothing. `TooLong`, where a header brings a record
    /// above the limit, `Memory`, where there is none for a record, `AuditFault` and `WriteFault`,
    /// where that device has failed, end the connection; what was done before stands.
    pub fn feed<W: ByteOut, A: ByteOut>(
        &mut self,
        conn: u32,
        moment: Moment,
        chunk: &[u8],
        replies: &mut W,
        audit: &mut A,
    ) -> Result<u64, SessionFault>
        ensures unknown { IsErrOf result SessionFault.UnknownConnection ↔ IsNone (at conn self.old) }
        ensures ended { IsErrOf result SessionFault.Ended ↔ (has_ended (at conn self.old) ≡ true) }
        ensures idle { IsErrOf result SessionFault.UnknownConnection ⊎ IsErrOf result SessionFault.Ended →
            (self.new ≡ self.old) × (replies.new ≡ replies.old) × (audit.new ≡ audit.old) }
        ensures fault { IsAlive (at conn self.old) → IfErr result (EndsWith (A.failed audit.new) (W.failed replies.new)) }
        ensures feeds { IfSome (at conn self.old) (λ was. was.ended ≡ false → IsFed conn was self.old self.new (is_err result)
            (λ old new from to. Feeds (record { addr = was.addr; moment = moment }) chunk.now result old new from to
            (device (A.contents audit.old) (A.contents audit.new)) (device (W.contents replies.old) (W.contents replies.new)))) }
        ensures others { OthersStay conn self.old self.new }
        ensures setup { self.new.server.setup ≡ self.old.server.setup }
    {
        Ok(self.take(conn, moment, chunk, replies, audit)?.records)
    }

    // The same, which answers how far the chunk was taken: all of it, as no device is full.
    fn take<W: ByteOut, A: ByteOut>(
        &mut self,
        conn: u32,
        moment: Moment,
        chunk: &[u8],
        replies: &mut W,
        audit: &mut A,
    ) -> Result<Taken, SessionFault>
        ensures unknown { IsErrOf result SessionFault.UnknownConnection ↔ IsNone (at conn self.old) }
        ensures ended { IsErrOf result SessionFault.Ended ↔ (has_ended (at conn self.old) ≡ true) }
        ensures idle { IsErrOf result SessionFault.UnknownConnection ⊎ IsErrOf result SessionFault.Ended →
            (self.new ≡ self.old) × (replies.new ≡ replies.old) × (audit.new ≡ audit.old) }
        ensures fault { IsAlive (at conn self.old) → IfErr result (EndsWith (A.failed audit.new) (W.failed replies.new)) }
        ensures used { IfOk result (λ taken. taken.used ≤ length chunk.now) }
        ensures stop { IfOk result (λ taken. taken.stop ≡ Stop.Done) }
        ensures feeds { IfSome (at conn self.old) (λ was. was.ended ≡ false → IsFed conn was self.old self.new (is_err result)
            (λ old new from to. FeedsSome (record { addr = was.addr; moment = moment }) chunk.now None result old new from to
            (device (A.contents audit.old) (A.contents audit.new)) (device (W.contents replies.old) (W.contents replies.new)))) }
        ensures others { OthersStay conn self.old self.new }
        ensures setup { self.new.server.setup ≡ self.old.server.setup }
    {
        match self.connections.get_mut(&conn) {
            Some(connection) => {
                let (server, reply) = (&mut self.server, &mut self.reply);
                connection.feed(server, reply, moment, chunk, None, replies, audit)
            }
            None => Err(SessionFault::UnknownConnection),
        }
    }
}
