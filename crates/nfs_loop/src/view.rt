//! A service, as it is seen between two rounds.

use crate::attendant::Standing;
use crate::member::Member;
use crate::turn_times::TurnTimes;
use crate::watches::Watches;
use nfs_lines::denials::Denials;
use nfs_queue::clients::Clients;
use nfs_server::journal_out::JournalFigures;
use nfs_serving::traffic::Traffic;
use nfs_xdr::link::Link;
use std::net::SocketAddr;

/// A service, as it is seen between two rounds.
#[derive(Clone, Copy)]
pub struct ServiceView<'a, L: Drop> {
    /// How it stands.
    pub standing: Standing,
    /// How many of its calls came in the last minute, or since it began, where that is less.
    pub calls_in_minute: u64,
    /// How many seconds these are.
    pub minute: u64,
    /// How many bytes came and went on connections that have ended.
    pub ended_traffic: Traffic,
    /// How long turns took.
    pub turn_times: TurnTimes,
    /// The calls that were denied.
    pub denials: &'a Denials,
    /// How many lines were dropped, or counted in place of being written.
    pub dropped: u64,
    /// What its journal says of itself, if it has one.
    pub journal: Option<JournalFigures>,
    pub(crate) clients: &'a Clients<Member<L>>,
    pub(crate) watches: &'a Watches,
}

/// A client, as it is seen between two rounds.
#[derive(Clone, Copy)]
pub struct ClientView {
    /// Where it comes from.
    pub peer: SocketAddr,
    /// The number of its connection, from 1.
    pub number: u64,
    /// For how many seconds it has been connected.
    pub connected: u64,
    /// For how many seconds nothing was heard of it.
    pub idle: u64,
    /// How many of its records were answered.
    pub calls: u64,
    /// How many bytes came from it and went to it.
    pub traffic: Traffic,
    /// How many bytes of replies are pending.
    pub pending: usize,
}

impl<L: Link + Drop> ServiceView<'_, L> {
    /// Above the keys of all clients.
    pub fn keys(&self) -> usize {
        self.clients.keys()
    }

    /// The client of a key, if it has one.
    pub fn client(&self, key: usize) -> Option<ClientView> {
        let member = self.clients.get(key)?;
        let now = self.standing.seconds;
        Some(ClientView {
            peer: member.peer,
            number: member.number,
            connected: now.saturating_sub(member.since),
            idle: now.saturating_sub(self.watches.heard(key)),
            calls: member.client.calls(),
            traffic: member.client.traffic(),
            pending: member.client.pending(),
        })
    }

    /// How many bytes came and went since the service began.
    pub fn traffic(&self) -> Traffic {
        let mut all = self.ended_traffic;
        for key in 0..self.keys() {
            if let Some(member) = self.clients.get(key) {
                all = all.with(member.client.traffic());
            }
        }
        all
    }

    /// How many bytes of replies are pending.
    pub fn pending(&self) -> u64 {
        let mut all = 0u64;
        for key in 0..self.keys() {
            if let Some(member) = self.clients.get(key) {
                all = all.saturating_add(member.client.pending() as u64);
            }
        }
        all
    }
}
