//! A member of a service.

use nfs_exports::addr::Addr;
use nfs_serving::client::Client;
use std::net::SocketAddr;

/// A client, its connection and where it comes from.
#[derive(Drop)]
pub struct Member<L> {
    /// The client, in its own place, since members move at each turn.
    pub client: Box<Client<L>>,
    /// The number of its connection, from 1.
    pub number: u64,
    /// Its peer.
    pub peer: SocketAddr,
    /// The peer's address, as exports see it.
    pub addr: Addr,
    /// When it joined, in seconds since the service began.
    pub since: u64,
}
