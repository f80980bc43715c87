//! Addresses whose next connection has to wait.
ghost use Rattle.std.specs.Prelude.{◌≡◌, [], filter, OnOk, OnErr};
ghost use Rattle.nfs_loop.specs.Refusing.{hold_for, is_other_waiting, others_waiting, room_for_one, wait_until, with_refused};

use crate::watches::Hold;
use nfs_exports::addr::Addr;
use std::alloc::{AllocError, Global};
use std::marker::Model;

// How long the next connection from an address waits, in milliseconds.
const WAIT_MILLIS: u64 = 1_000;

// The most addresses that are remembered. Beyond them the oldest are forgotten.
const MOST_PEERS: usize = 1_024;

/// An address, and until when its connections wait.
#[derive(Clone, Copy)]
pub struct RefusedPeer {
    addr: Addr,
    until: u64,
}

/// The addresses on whose connections a denied call was refused lately, by times in milliseconds since
/// the service began. Contracts see a list, the oldest first.
#[derive(Drop)]
pub struct RefusedPeers {
    peers: Vec<RefusedPeer>,
}

impl Model for RefusedPeers {
    ghost use Rattle.std.specs.Prelude.{List};
    ghost use Rattle.nfs_loop.specs.declared.refused_peers.RefusedPeer.{RefusedPeer as Peer};

    ghost Value = { List Peer };

    ghost view = { λ p. p.peers.items };
}

impl RefusedPeers {
    /// No address.
    pub fn new(alloc: Global) -> RefusedPeers
        ensures { result ≡ [] }
    {
        RefusedPeers {
            peers: Vec::new(alloc),
        }
    }

    /// Has the next connections from an address wait, for so long from now on. Refused where there is no
    /// memory: then they don't.
    pub fn add(&mut self, addr: Addr, now: u64) -> Result<(), AllocError>
        ensures ok { OnOk result (self.new ≡ with_refused addr now self.old) }
        ensures err { OnErr result (self.new ≡ others_waiting addr now self.old) }
    {
        self.keep_others(addr, now);
        self.make_room();
        let until = now.saturating_add(WAIT_MILLIS);
        self.peers.push(RefusedPeer { addr, until })?;
        Ok(())
    }

    // Forgets an address, and those that don't have to wait any more.
    fn keep_others(&mut self, addr: Addr, now: u64)
        ensures { self.new ≡ filter (is_other_waiting addr now) self.old }
    {
        self.peers.retain(
            |peer: &RefusedPeer| -> bool
                ensures { result ≡ is_other_waiting addr now peer.now }
            { peer.until > now && peer.addr != addr },
        );
    }

    // Forgets the oldest address where there is no place for one more.
    fn make_room(&mut self)
        ensures { self.new ≡ room_for_one self.old }
    {
        if self.peers.len() >= MOST_PEERS {
            self.peers.remove(0);
        }
    }

    /// Why a new client from an address gets no turn for now, if it gets none.
    pub fn hold(&self, addr: Addr, now: u64) -> Option<Hold>
        ensures { result ≡ hold_for addr now self.now }
    {
        match self.until(addr, now) {
            Some(until) => Some(Hold::Until(until)),
            None => None,
        }
    }

    // Until when a connection from an address waits, if it has to.
    fn until(&self, addr: Addr, now: u64) -> Option<u64>
        ensures { result ≡ wait_until addr now self.now }
    {
        for peer in &self.peers {
            if peer.addr == addr && peer.until > now {
                return Some(peer.until);
            }
        }
        None
    }
}
