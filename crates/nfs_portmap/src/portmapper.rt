//! The portmapper of this machine.

use crate::call::{CALL_BYTES, Change, Mapping, write_call};
use crate::fault::PortmapFault;
use crate::reply::{ReplyFault, read_reply};
use nfs_xdr::output::Output;
use std::alloc::Global;
use std::io::{self, ErrorKind};
use std::net::{Ipv4Addr, Net, SocketAddrV4, UdpSocket};
use std::time::Duration;

// Where it is asked.
const PORT: u16 = 111;

// From which ports it takes changes; the ones below these are those of other services.
const FIRST_SOURCE: u16 = 600;

const LAST_SOURCE: u16 = 1_023;

// How often a call is sent, and how many datagrams are read for each; how long each is waited for.
const TRIES: u32 = 3;

const DATAGRAMS: u32 = 16;

const PATIENCE_SECONDS: u64 = 1;

// The longest datagram that is read; a reply is shorter.
const MAX_REPLY_BYTES: usize = 512;

/// A socket to the portmapper of this machine.
#[derive(Drop)]
pub struct Portmapper {
    alloc: Global,
    socket: UdpSocket,
    xid: u32,
}

impl Portmapper {
    /// A socket that a portmapper takes changes from. `NoPort` where the system gives no port below 1024;
    /// `NoAnswer` where it gives no way to the portmapper.
    pub fn reach<R: Net>(rt: &R, alloc: Global) -> Result<Portmapper, PortmapFault> {
        let socket = match bind_low(rt) {
            Ok(socket) => socket,
            Err(error) => return Err(PortmapFault::NoPort(error)),
        };
        match connect(&socket) {
            Ok(()) => Ok(Portmapper {
                alloc,
                socket,
                xid: 1,
            }),
            Err(error) => Err(PortmapFault::NoAnswer(error)),
        }
    }

    /// Has a mapping changed. `NoAnswer` where nothing answers within three seconds, or not as it should; `Refused`,
    /// `Memory`.
    pub fn change(&mut self, change: Change, mapping: Mapping) -> Result<(), PortmapFault> {
        self.xid = self.xid.wrapping_add(1);
        let mut out = match Output::new(self.alloc, CALL_BYTES) {
            Ok(out) => out,
            Err(_) => return Err(PortmapFault::Memory),
        };
        write_call(&mut out, self.xid, change, mapping);
        match self.ask(out.bytes()) {
            Ok(true) => Ok(()),
            Ok(false) => Err(PortmapFault::Refused(mapping.program)),
            Err(error) => Err(PortmapFault::NoAnswer(error)),
        }
    }

    // The answer to a call, which is sent again where none comes.
    fn ask(&self, call: &[u8]) -> io::Result<bool> {
        for _ in 1..TRIES {
            self.socket.send(call)?;
            match self.answer() {
                Err(error) if is_waiting(&error) => {}
                answer => return answer,
            }
        }
        self.socket.send(call)?;
        self.answer()
    }

    // The next answer to the last call.
    fn answer(&self) -> io::Result<bool> {
        let mut datagram = [0; MAX_REPLY_BYTES];
        for _ in 0..DATAGRAMS {
            let len = self.socket.recv(&mut datagram)?;
            match read_reply(&datagram[..len], self.xid) {
                Ok(done) => return Ok(done),
                Err(ReplyFault::OtherCall) => {}
                Err(_) => return Err(io::Error::from(ErrorKind::InvalidData)),
            }
        }
        Err(io::Error::from(ErrorKind::InvalidData))
    }
}

// A socket at a port below 1024. The error of the last port that was tried.
fn bind_low<R: Net>(rt: &R) -> io::Result<UdpSocket> {
    for port in FIRST_SOURCE..LAST_SOURCE {
        match UdpSocket::bind(rt, SocketAddrV4::new(Ipv4Addr::LOCALHOST, port)) {
            Err(error) if error.kind() == ErrorKind::AddrInUse => {}
            bound => return bound,
        }
    }
    UdpSocket::bind(rt, SocketAddrV4::new(Ipv4Addr::LOCALHOST, LAST_SOURCE))
}

fn connect(socket: &UdpSocket) -> io::Result<()> {
    socket.connect(SocketAddrV4::new(Ipv4Addr::LOCALHOST, PORT))?;
    socket.set_read_timeout(Some(Duration::from_secs(PATIENCE_SECONDS)))
}

// Whether nothing has come so far.
fn is_waiting(error: &io::Error) -> bool {
    matches!(error.kind(), ErrorKind::WouldBlock | ErrorKind::TimedOut)
}
