//! The way out to a client.
ghost use Rattle.std.specs.Prelude.{◌≡◌, ◌<◌, ◌≤◌, ◌↔◌, [], true, false, length, take, vec_capacity, IsTrue, IfOk, OnOk, OnErr};
ghost use Rattle.nfs_serving.specs.Outgoing.{Passes, Brings, came_bytes};
ghost use Rattle.nfs_xdr.specs.Known.{Grows};

use crate::buffer::{Buffer, Received};
use crate::traffic::Traffic;
use nfs_xdr::device::DeviceFault;
use nfs_xdr::link::{Came, Link};
use std::alloc::Global;
use std::marker::Model;

/// A link, and the replies that it has not taken yet: they are pending. Where none is, it holds no memory
/// for them.
#[derive(Drop)]
pub struct Channel<L> {
    link: L,
    pending: Buffer,
    ended: bool,
    traffic: Traffic,
}

impl<L> Model for Channel<L> {
    ghost use Rattle.nfs_serving.specs.Outgoing.{IsLetGo, Outgoing};

    ghost Value = { Outgoing L };

    ghost view = { λ o. record { link = o.link; pending = o.pending.bytes; failed = o.ended } };

    // Where nothing is pending, it holds no memory for it.
    ghost invariant = { λ o. IsLetGo o.pending };
}

impl<L: Link> Channel<L> {
    /// A link on which nothing is pending.
    pub fn new(alloc: Global, link: L) -> Channel<L>
        ensures { result ≡ record { link = link; pending = []; failed = false } }
    {
        Channel {
            link,
            pending: Buffer::new(alloc),
            ended: false,
            traffic: Traffic::none(),
        }
    }

    /// The link.
    pub fn link(&self) -> &L
        ensures { result.now ≡ self.now.link }
    {
        &self.link
    }

    /// How many bytes are pending.
    pub fn pending(&self) -> usize
        ensures { result ≡ length self.now.pending }
    {
        self.pending.bytes().len()
    }

    /// How many bytes came over the link, and how many it has taken.
    pub fn traffic(&self) -> Traffic {
        self.traffic
    }

    /// Whether nothing is pending.
    pub fn is_settled(&self) -> bool
        ensures { IsTrue result ↔ (self.now.pending ≡ []) }
    {
        self.pending.is_empty()
    }

    /// Sends what is pending, as much of it as the link takes now. Where nothing is pending any more, it
    /// holds no memory for it.
    pub fn pass_on(&mut self) -> Result<(), DeviceFault>
        ensures passes { OnOk result (Passes (L.outgoing self.old.link) self.old.pending (L.outgoing self.new.link) self.new.pending) }
        ensures incoming { L.incoming self.new.link ≡ L.incoming self.old.link }
        ensures alive { OnOk result (self.new.failed ≡ self.old.failed) }
        ensures fault { OnErr result (self.new.failed ≡ true) }
        ensures outgoing { OnErr result (L.outgoing self.new.link ≡ L.outgoing self.old.link) }
        ensures pending { OnErr result (self.new.pending ≡ self.old.pending) }
    {
        if self.pending.is_empty() && !self.ended {
            return Ok(());
        }
        let n = send_some(&mut self.link, &mut self.ended, self.pending.bytes())?;
        count(&mut self.traffic.sent, n);
        self.pending.take(n);
        self.pending.let_go();
        Ok(())
    }

    /// Sends these bytes, where nothing is pending, as much of them as the link takes now, and none where
    /// they are to be held. The others are pending then, all of them where the link is broken, in a list
    /// that has room for them, in whose stead another comes.
    #[inline(always)]
    pub fn send(&mut self, bytes: &[u8], room: &mut Vec<u8>, holds: bool) -> Result<(), DeviceFault>
        requires pending { self.old.pending ≡ [] }
        requires room { length bytes.now ≤ vec_capacity room.old }
        ensures passes { Passes (L.outgoing self.old.link) bytes.now (L.outgoing self.new.link) self.new.pending }
        ensures incoming { L.incoming self.new.link ≡ L.incoming self.old.link }
        ensures alive { OnOk result (self.new.failed ≡ self.old.failed) }
        ensures fault { OnErr result (self.new.failed ≡ true) }
        ensures holds { holds ≡ true → L.outgoing self.new.link ≡ L.outgoing self.old.link }
    {
        if holds {
            self.pending.hold(room, bytes);
            return Ok(());
        }
        match send_some(&mut self.link, &mut self.ended, bytes) {
            Ok(n) => {
                count(&mut self.traffic.sent, n);
                self.pending.hold(room, &bytes[n..]);
                Ok(())
            }
            Err(fault) => {
                self.pending.hold(room, bytes);
                Err(fault)
            }
        }
    }

    /// Receives what has come, as much as a chunk has room for and at most so many bytes.
    #[inline(always)]
    pub fn receive(&mut self, chunk: &mut Buffer, most: usize) -> Result<Received, DeviceFault>
        requires { 0 < most }
        ensures came { IfOk result (λ received. Brings (L.incoming self.old.link) received.came chunk.new.bytes (L.incoming self.new.link)) }
        ensures reports { IfOk result (λ received. L.reports self.old.link received.room received.came self.new.link) }
        ensures within { IfOk result (λ received. came_bytes received.came ≤ received.room) }
        ensures most { length chunk.new.bytes ≤ most }
        ensures outgoing { L.outgoing self.new.link ≡ L.outgoing self.old.link }
        ensures same { (self.new.pending ≡ self.old.pending) × (self.new.failed ≡ self.old.failed) }
        ensures fault { OnErr result (L.failed self.new.link ≡ true) }
        ensures incoming { OnErr result (L.incoming self.new.link ≡ L.incoming self.old.link) }
        ensures chunk { OnErr result (chunk.new.bytes ≡ []) }
    {
        let received = chunk.receive(&mut self.link, most)?;
        if let Came::Bytes(n) = received.came {
            count(&mut self.traffic.received, n);
        }
        Ok(received)
    }
}

// Counts so many bytes more.
fn count(total: &mut u64, n: usize) {
    *total = total.saturating_add(n as u64);
}

// Sends some first bytes of these, as many as the link takes now, unless it is broken.
#[inline(always)]
fn send_some<L: Link>(link: &mut L, ended: &mut bool, bytes: &[u8]) -> Result<usize, DeviceFault>
    ensures count { IfOk result (λ n. n ≤ length bytes.now) }
    ensures sent { IfOk result (λ n. Grows (L.outgoing link.old) (take n bytes.now) (L.outgoing link.new)) }
    ensures incoming { L.incoming link.new ≡ L.incoming link.old }
    ensures alive { OnOk result (ended.new ≡ ended.old) }
    ensures fault { OnErr result (ended.new ≡ true) }
    ensures outgoing { OnErr result (L.outgoing link.new ≡ L.outgoing link.old) }
{
    if *ended {
        return Err(DeviceFault);
    }
    if bytes.is_empty() {
        return Ok(0);
    }
    let sent = link.send(bytes);
    *ended = sent.is_err();
    sent
}
