//! Bytes in a list, of which the first may be gone already.
ghost use Rattle.std.specs.Prelude.{◌≡◌, ◌<◌, ◌≤◌, ◌↔◌, [], drop, length, vec_capacity, IsTrue, IfOk, OnErr, true};
ghost use Rattle.nfs_serving.specs.Outgoing.{Brings, IsLetGo, came_bytes};
ghost use Rattle.nfs_xdr.specs.Known.{Receives};

use crate::receive_size::MOST_RECEIVED;
use nfs_xdr::device::DeviceFault;
use nfs_xdr::link::{Came, Link};
use std::alloc::{AllocError, Global};
use std::marker::Model;
use std::mem;

/// Some of a list's bytes: those that have come on a link and are not taken yet, or those that are
/// pending on it.
#[derive(Drop)]
pub struct Buffer {
    bytes: Vec<u8>,
    from: usize,
    to: usize,
}

/// What has come on a link.
#[derive(Clone, Copy)]
pub struct Received {
    /// What it reported.
    pub came: Came,
    /// For how many bytes there was room.
    pub room: usize,
}

impl Model for Buffer {
    ghost use Rattle.std.specs.Prelude.{◌-◌, ◌≤◌, take, drop, vec_capacity, vec_len};
    ghost use Rattle.nfs_serving.specs.Outgoing.{Roomed};

    ghost Value = { Roomed };

    ghost view = { λ w. record { bytes = take (w.to - w.from) (drop w.from w.bytes.items); room = vec_capacity w.bytes } };

    ghost invariant = { λ w. (w.from ≤ w.to) × (w.to ≤ vec_len w.bytes) };
}

impl Buffer {
    /// No bytes, and no memory.
    pub fn new(alloc: Global) -> Buffer
        ensures bytes { result.bytes ≡ [] }
        ensures room { result.room ≡ 0 }
    {
        Buffer {
            bytes: Vec::new(alloc),
            from: 0,
            to: 0,
        }
    }

    /// The bytes.
    pub fn bytes(&self) -> &[u8]
        ensures { result.now ≡ self.now.bytes }
    {
        &self.bytes[self.from..self.to]
    }

    /// Whether there are none.
    pub fn is_empty(&self) -> bool
        ensures { IsTrue result ↔ (self.now.bytes ≡ []) }
    {
        self.from == self.to
    }

    /// Takes some first bytes away.
    pub fn take(&mut self, n: usize)
        requires { n ≤ length self.old.bytes }
        ensures bytes { self.new.bytes ≡ drop n self.old.bytes }
        ensures room { self.new.room ≡ self.old.room }
    {
        self.from += n;
    }

    /// Takes all bytes away.
    pub fn clear(&mut self)
        ensures { self.new.bytes ≡ [] }
    {
        self.from = 0;
        self.to = 0;
    }

    /// Has this room from now on, for what is received at once. Refused where there is no memory.
    pub fn borrow_room(&mut self, room: &mut Vec<u8>) -> Result<(), AllocError>
        ensures { self.new.bytes ≡ [] }
    {
        self.from = 0;
        self.to = 0;
        mem::swap(&mut self.bytes, room);
        if self.bytes.len() < MOST_RECEIVED {
            self.bytes.resize(MOST_RECEIVED, 0)?;
        }
        Ok(())
    }

    /// Holds these bytes, in a list that has room for them, and leaves its own list for it; with no
    /// bytes each keeps its list.
    pub fn hold(&mut self, room: &mut Vec<u8>, bytes: &[u8])
        requires { length bytes.now ≤ vec_capacity room.old }
        ensures bytes { self.new.bytes ≡ bytes.now }
        ensures room { bytes.now ≡ [] → self.new.room ≡ self.old.room }
    {
        self.from = 0;
        self.to = 0;
        if bytes.is_empty() {
            return;
        }
        room.clear();
        room.extend_from_slice(bytes).unwrap();
        mem::swap(&mut self.bytes, room);
        self.to = self.bytes.len();
    }

    /// Lets its list go, where there are no bytes.
    pub fn let_go(&mut self)
        ensures bytes { self.new.bytes ≡ self.old.bytes }
        ensures gone { IsLetGo self.new }
    {
        if self.is_empty() {
            self.from = 0;
            self.to = 0;
            self.bytes.clear();
            self.bytes.shrink_to_fit();
        }
    }

    /// Gives the room back, where there are no bytes, and lets a list go that stood in its place.
    pub fn give_back(&mut self, room: &mut Vec<u8>)
        ensures bytes { self.new.bytes ≡ self.old.bytes }
        ensures gone { IsLetGo self.new }
    {
        if self.is_empty() {
            self.from = 0;
            self.to = 0;
            mem::swap(&mut self.bytes, room);
            self.let_go();
        }
    }

    /// Receives what has come on a link, as much as there is room for and at most so many bytes, in
    /// place of what it has.
    pub fn receive<L: Link>(&mut self, link: &mut L, most: usize) -> Result<Received, DeviceFault>
        requires { 0 < most }
        ensures came { IfOk result (λ received. Brings (L.incoming link.old) received.came self.new.bytes (L.incoming link.new)) }
        ensures reports { IfOk result (λ received. L.reports link.old received.room received.came link.new) }
        ensures within { IfOk result (λ received. came_bytes received.came ≤ received.room) }
        ensures most { length self.new.bytes ≤ most }
        ensures outgoing { L.outgoing link.new ≡ L.outgoing link.old }
        ensures fault { OnErr result ((L.failed link.new ≡ true) × (L.incoming link.new ≡ L.incoming link.old) × (self.new.bytes ≡ [])) }
    {
        self.from = 0;
        self.to = 0;
        match receive_some(link, self.bytes.as_mut_slice(), most) {
            Ok(
                Received {
                    came: Came::Bytes(n),
                    room,
                },
            ) => {
                self.to = n;
                Ok(Received {
                    came: Came::Bytes(n),
                    room,
                })
            }
            none => none,
        }
    }
}

// Receives what has come on a link, as much as there is room for and at most so many bytes.
fn receive_some<L: Link>(
    link: &mut L,
    buffer: &mut [u8],
    most: usize,
) -> Result<Received, DeviceFault>
    ensures came { IfOk result (λ received. Receives (L.incoming link.old) buffer.new received.came (L.incoming link.new)) }
    ensures reports { IfOk result (λ received. L.reports link.old received.room received.came link.new) }
    ensures within { IfOk result (λ received. came_bytes received.came ≤ received.room) }
    ensures most { IfOk result (λ received. came_bytes received.came ≤ most) }
    ensures outgoing { L.outgoing link.new ≡ L.outgoing link.old }
    ensures fault { OnErr result ((L.failed link.new ≡ true) × (L.incoming link.new ≡ L.incoming link.old)) }
{
    let room = most.min(buffer.len());
    match link.receive(&mut buffer[..room]) {
        Ok(came) => Ok(Received { came, room }),
        Err(fault) => Err(fault),
    }
}
