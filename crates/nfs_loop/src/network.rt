//! What reports to a service: a network and a clock.
ghost use Rattle.std.specs.Prelude.{◌≡◌, ◌+◌, ◌<◌, ◌^◌, ℕ, List, Option};
ghost use Rattle.std.specs.Net.Socket.{socket_ip};
ghost use Rattle.nfs_loop.specs.Reports.{Report, at, since, IsReported};
ghost use Rattle.nfs_loop.specs.Reporting.{ReportsReady, ReportsAccepted};

use nfs_attrs::moment::Moment;
use nfs_xdr::link::Link;
use std::io;
use std::net::SocketAddr;
use std::time::Duration;

/// How many events are taken at once.
pub const EVENTS: u32 = 1_024;

/// What a network reports.
#[derive(Clone, Copy)]
pub enum Ready {
    /// Connections may wait to be accepted.
    Listener,
    /// The client of a key may have sent something, take more, or have ended its side.
    Client {
        /// The key.
        key: usize,
        /// Whether its peer is known to have ended its side.
        is_closing: bool,
    },
}

/// What became of the next connection.
#[derive(Drop)]
pub enum Accepted<S> {
    /// It was accepted, from this peer.
    Connection(S, SocketAddr),
    /// None waits.
    None,
    /// It is gone. Another may wait.
    Gone,
    /// It can't be accepted for now.
    Refused(io::Error),
    /// It was accepted from this peer, and closed, since nothing can be heard of it.
    Closed(SocketAddr, io::Error),
}

/// A network and a clock. Any answer is one that may come.
pub trait Network {
    /// The stream of a connection.
    type Stream: Link;

    /// What was reported, the newest first, where that is known.
    ghost reported: { Self → Option (List Report) };

    /// Waits until something is ready, for so long at most.
    fn wait(&mut self, timeout: Option<Duration>) -> io::Result<()>
        ensures { reported self.new ≡ reported self.old };

    /// Something that is ready and was not handed out yet.
    fn ready(&mut self) -> Option<Ready>
        ensures { ReportsReady (reported self.old) result (reported self.new) };

    /// The next connection. What is reported of it from now on has this key.
    fn accept(&mut self, key: usize) -> Accepted<Self::Stream>
        requires { key + 1 < 2 ^ 64 }
        ensures { ReportsAccepted (reported self.old) key result (reported self.new) };

    /// Accepts no more connections.
    fn close_listener(&mut self)
        ensures { reported self.new ≡ reported self.old };

    /// Accepts connections again, where it had been told to accept none. The error of the system, with which it
    /// accepts none.
    fn open_listener(&mut self) -> io::Result<()>
        ensures { reported self.new ≡ reported self.old };

    /// Whether its peer has reset this stream's connection, in place of ending its side.
    fn was_reset(&self, stream: &Self::Stream) -> bool;

    /// The moment of now.
    fn now(&mut self) -> Moment
        ensures { IsReported (reported self.old) (at result) (reported self.new) };

    /// How many milliseconds the service had run when the clock was read last: at the end of a wait, or since.
    fn millis(&mut self) -> u64
        ensures { IsReported (reported self.old) (since result) (reported self.new) };

    /// Reads the clock: how many microseconds have passed since it was read last. They are only measured.
    fn read_clock(&mut self) -> u64
        ensures { reported self.new ≡ reported self.old };
}
