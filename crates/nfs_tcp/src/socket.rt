//! Sockets that never wait.
ghost use Rattle.std.specs.Prelude.{◌≡◌, None, false, IfOk};

use crate::unwaiting::{receive, send};
use mio::net::TcpStream;
use nfs_xdr::device::DeviceFault;
use nfs_xdr::link::{Came, Link};
use std::io::{self, ErrorKind};

/// A link over a socket, of whose bytes nothing is known.
#[derive(Drop)]
pub struct Socket {
    stream: TcpStream,
    failed: bool,
    reset: bool,
}

impl Socket {
    /// A link over this stream. A reply goes out at once, without the delay that gathers small ones.
    pub fn new(stream: TcpStream) -> io::Result<Socket>
        ensures { IfOk result (λ socket. socket.failed ≡ false) }
    {
        stream.set_nodelay(true)?;
        Ok(Socket {
            stream,
            failed: false,
            reset: false,
        })
    }

    /// Whether its peer has reset the connection, in place of ending its side.
    pub fn was_reset(&self) -> bool
        ensures { result ≡ self.now.reset }
    {
        self.reset
    }
}

impl Link for Socket {
    ghost outgoing = { λ s. None };

    ghost incoming = { λ s. None };

    ghost failed = { λ s. s.failed };

    ghost reports = { λ _ _ _ _. Unit {0} };

    #[inline(always)]
    fn send(&mut self, bytes: &[u8]) -> Result<usize, DeviceFault> {
        match send(&mut self.stream, bytes) {
            Ok(n) => Ok(n),
            Err(fault) => {
                self.failed = true;
                Err(fault)
            }
        }
    }

    #[inline(always)]
    fn receive(&mut self, buffer: &mut [u8]) -> Result<Came, DeviceFault> {
        match receive(&mut self.stream, buffer) {
            Ok(came) => Ok(came),
            Err(kind) => {
                self.failed = true;
                self.reset = kind == ErrorKind::ConnectionReset;
                Err(DeviceFault)
            }
        }
    }
}
