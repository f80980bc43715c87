//! The addresses of peers.
ghost use Rattle.std.specs.Net.Socket.{socket_ip};
ghost use Rattle.nfs_loop.specs.Peers.{IsAddrOf};

use nfs_exports::addr::Addr;
use std::net::{IpAddr, SocketAddr};

/// The address of a peer: one of IPv4, or one that is mapped into IPv6.
pub fn addr_of(peer: SocketAddr) -> Option<Addr>
    ensures { IsAddrOf (socket_ip peer) result }
{
    let ip = match peer.ip() {
        IpAddr::V4(ip) => ip,
        IpAddr::V6(ip) => ip.to_ipv4_mapped()?,
    };
    Some(Addr(u32::from_be_bytes(ip.octets())))
}
