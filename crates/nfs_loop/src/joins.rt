//! How clients join.
ghost use Rattle.std.specs.Prelude.{◌≡◌, ◌+◌, ◌<◌, ◌^◌, [], None, IfOk, OnOk};
ghost use Rattle.std.specs.Net.Socket.{socket_ip};
ghost use Rattle.nfs_loop.specs.Stages.{BeginsToWatch, Goes, JoinsOrNot, WithoutTurns, stage};
ghost use Rattle.nfs_loop.specs.Reports.{Accounts, CameFrom, IsReported, ReportsMore, came};
ghost use Rattle.nfs_loop.specs.Watching.{AllBegin, AllStay, AreWatched};
ghost use Rattle.nfs_lines.specs.Written.{Written};
ghost use Rattle.nfs_server.specs.Connections.{IsAtStart};
ghost use Rattle.nfs_server.specs.Fits.{Held};

use crate::addresses::addr_of;
use crate::housekeeping::Waiting;
use crate::member::Member;
use crate::network::{Accepted, EVENTS, Network};
use crate::service::Service;
use log::{Log, info, warn};
use nfs_exports::addr::Addr;
use nfs_serving::client::Client;
use nfs_xdr::link::Link;
use std::alloc::{AllocError, Global};
use std::io;
use std::net::SocketAddr;
use thiserror::Error;

// Why a connection is closed at once.
#[derive(Clone, Copy, Debug, Error)]
enum Refusal {
    #[error("not an IPv4 address")]
    Address,
    #[error("out of memory")]
    Memory,
}

impl<L: Link + Drop> Service<L> {
    /// Accepts the connections that wait.
    #[inline(always)]
    pub(crate) fn accept_some<R: Log, N: Network<Stream = L>>(&mut self, rt: &R, net: &mut N)
        requires watched { AreWatched self.old.clients.0 self.old.housekeeping.watches }
        ensures goes { (server : Held) → (lines : Written) → Goes L.outgoing L.incoming
            (λ changes. WithoutTurns (N.reported net.old) changes (N.reported net.new))
            (stage server self.old.clients.0 self.old.joined lines) (stage server self.new.clients.0 self.new.joined lines) }
        ensures queue { self.new.clients.1.0 ≡ self.old.clients.1.0 }
        ensures more { ReportsMore (N.reported net.old) (N.reported net.new) }
        ensures stay { AllStay self.old.clients.0 self.old.housekeeping.watches self.new.clients.0 self.new.housekeeping.watches }
        ensures begin { AllBegin self.old.clients.0 (N.reported net.old) (N.reported net.new) self.new.clients.0 self.new.housekeeping.watches }
        ensures looked { self.new.housekeeping.looked ≡ self.old.housekeeping.looked }
        ensures limits { self.new.housekeeping.limits ≡ self.old.housekeeping.limits }
        ensures watched { AreWatched self.new.clients.0 self.new.housekeeping.watches }
    {
        let mut left = EVENTS;
        while left > 0 && self.housekeeping.waiting == Waiting::Some {
            left -= 1;
            self.accept(rt, net);
        }
    }

    // Accepts a connection, if one waits and there may be more.
    #[cold]
    fn accept<R: Log, N: Network<Stream = L>>(&mut self, rt: &R, net: &mut N)
        requires watched { AreWatched self.old.clients.0 self.old.housekeeping.watches }
        ensures goes { (server : Held) → (lines : Written) → Goes L.outgoing L.incoming
            (λ changes. WithoutTurns (N.reported net.old) changes (N.reported net.new))
            (stage server self.old.clients.0 self.old.joined lines) (stage server self.new.clients.0 self.new.joined lines) }
        ensures queue { self.new.clients.1.0 ≡ self.old.clients.1.0 }
        ensures more { ReportsMore (N.reported net.old) (N.reported net.new) }
        ensures stay { AllStay self.old.clients.0 self.old.housekeeping.watches self.new.clients.0 self.new.housekeeping.watches }
        ensures begin { AllBegin self.old.clients.0 (N.reported net.old) (N.reported net.new) self.new.clients.0 self.new.housekeeping.watches }
        ensures looked { self.new.housekeeping.looked ≡ self.old.housekeeping.looked }
        ensures limits { self.new.housekeeping.limits ≡ self.old.housekeeping.limits }
        ensures watched { AreWatched self.new.clients.0 self.new.housekeeping.watches }
    {
        if self.housekeeping.limits.connections == Some(self.joined) {
            net.close_listener();
            self.housekeeping.waiting = Waiting::None;
            return;
        }
        let key = self.clients.next_key();
        if key == usize::MAX || self.joined == u64::MAX {
            self.housekeeping.waiting = Waiting::Refused;
            return;
        }
        match net.accept(key) {
            Accepted::Connection(stream, peer) => self.admit(rt, net, key, stream, peer),
            Accepted::None => self.housekeeping.waiting = Waiting::None,
            Accepted::Gone => {}
            Accepted::Refused(error) => {
                warn_of_none(rt, &error);
                self.housekeeping.waiting = Waiting::Refused;
            }
            Accepted::Closed(peer, error) => warn_of_closed(rt, peer, &error),
        }
    }

    // Makes the other end of a connection a client.
    fn admit<R: Log, N: Network<Stream = L>>(
        &mut self,
        rt: &R,
        net: &mut N,
        key: usize,
        stream: L,
        peer: SocketAddr,
    )
        requires key { key ≡ self.old.clients.0.vacant_key }
        requires fits { key + 1 < 2 ^ 64 }
        requires joined { self.old.joined + 1 < 2 ^ 64 }
        requires watched { AreWatched self.old.clients.0 self.old.housekeeping.watches }
        ensures joins { JoinsOrNot key (socket_ip peer) self.old.clients.0 self.old.joined self.new.clients.0 self.new.joined }
        ensures queue { self.new.clients.1.0 ≡ self.old.clients.1.0 }
        ensures stay { AllStay self.old.clients.0 self.old.housekeeping.watches self.new.clients.0 self.new.housekeeping.watches }
        ensures begin { AllBegin self.old.clients.0 (N.reported net.old) (N.reported net.new) self.new.clients.0 self.new.housekeeping.watches }
        ensures reported { Accounts (N.reported net.old) [] (N.reported net.new) }
        ensures looked { self.new.housekeeping.looked ≡ self.old.housekeeping.looked }
        ensures limits { self.new.housekeeping.limits ≡ self.old.housekeeping.limits }
        ensures watched { AreWatched self.new.clients.0 self.new.housekeeping.watches }
    {
        if self.clients.len() >= self.housekeeping.limits.clients {
            warn_of_many(rt, peer, self.housekeeping.limits.clients);
            return;
        }
        match self.join(net, key, stream, peer) {
            Ok(()) => say_joined(rt, peer, self.joined),
            Err(refusal) => warn_of_refused(rt, peer, refusal),
        }
    }

    // Adds a client of this peer.
    fn join<N: Network<Stream = L>>(
        &mut self,
        net: &mut N,
        key: usize,
        stream: L,
        peer: SocketAddr,
    ) -> Result<(), Refusal>
        requires key { key ≡ self.old.clients.0.vacant_key }
        requires fits { key + 1 < 2 ^ 64 }
        requires joined { self.old.joined + 1 < 2 ^ 64 }
        requires watched { AreWatched self.old.clients.0 self.old.housekeeping.watches }
        ensures joins { JoinsOrNot key (socket_ip peer) self.old.clients.0 self.old.joined self.new.clients.0 self.new.joined }
        ensures queue { self.new.clients.1.0 ≡ self.old.clients.1.0 }
        ensures stay { AllStay self.old.clients.0 self.old.housekeeping.watches self.new.clients.0 self.new.housekeeping.watches }
        ensures begin { AllBegin self.old.clients.0 (N.reported net.old) (N.reported net.new) self.new.clients.0 self.new.housekeeping.watches }
        ensures reported { Accounts (N.reported net.old) [] (N.reported net.new) }
        ensures watch { OnOk result (BeginsToWatch key (socket_ip peer) self.old.housekeeping.refused_peers
            (N.reported net.old) (N.reported net.new) self.new.housekeeping.watches) }
        ensures looked { self.new.housekeeping.looked ≡ self.old.housekeeping.looked }
        ensures limits { self.new.housekeeping.limits ≡ self.old.housekeeping.limits }
        ensures watched { AreWatched self.new.clients.0 self.new.housekeeping.watches }
    {
        let Some(addr) = addr_of(peer) else {
            return Err(Refusal::Address);
        };
        if self.housekeeping.watches.make_room(key).is_err() {
            return Err(Refusal::Memory);
        }
        let Ok(client) = place(self.alloc, addr, stream) else {
            return Err(Refusal::Memory);
        };
        let millis = net.millis();
        let number = self.joined + 1;
        let member = Member {
            client,
            number,
            peer,
            addr,
            since: millis / 1_000,
        };
        match self.clients.add(member) {
            Ok(()) => {
                self.joined = number;
                self.housekeeping.watch(key, addr, millis);
                Ok(())
            }
            Err(_) => Err(Refusal::Memory),
        }
    }
}

// A new client at an address, in a place of its own. Refused where there is no memory.
fn place<L: Link + Drop>(alloc: Global, addr: Addr, stream: L) -> Result<Box<Client<L>>, AllocError>
    ensures start { IfOk result (λ client. IsAtStart addr client.value.connection) }
    ensures chunk { IfOk result (λ client. client.value.chunk ≡ []) }
    ensures end { IfOk result (λ client. client.value.end ≡ None) }
{
    Ok(Box::new(alloc, Client::new(alloc, addr, stream))?)
}

fn warn_of_none<R: Log>(rt: &R, error: &io::Error) {
    warn!(rt; "no connection can be accepted: {error}");
}

fn warn_of_closed<R: Log>(rt: &R, peer: SocketAddr, error: &io::Error) {
    warn!(rt; "{peer}: closed: {error}");
}

fn warn_of_many<R: Log>(rt: &R, peer: SocketAddr, clients: usize) {
    warn!(rt; "{peer}: closed: there are already {clients} clients");
}

fn warn_of_refused<R: Log>(rt: &R, peer: SocketAddr, refusal: Refusal) {
    warn!(rt; "{peer}: closed: {refusal}");
}

fn say_joined<R: Log>(rt: &R, peer: SocketAddr, number: u64) {
    info!(rt; "{peer}: connection {number}");
}
