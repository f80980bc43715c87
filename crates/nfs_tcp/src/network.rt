//! The network of the system.
ghost use Rattle.std.specs.Prelude.{◌+◌, ◌<◌, ◌^◌, None};

use crate::clock::SystemClock;
use crate::keys::{LISTENER, key_of, token_of};
use crate::service_fault::ServiceFault;
use crate::socket::Socket;
use log::Log;
use mio::net::{TcpListener, TcpStream};
use mio::{Events, Interest, Poll, Registry};
use nfs_attrs::moment::Moment;
use nfs_loop::network::{Accepted, EVENTS, Network, Ready};
use nfs_server::moments::Moments;
use std::alloc::Global;
use std::io::{self, ErrorKind};
use std::net::{Net, SocketAddr};
use std::time::{Clock, Duration};

/// Listeners, the streams of their connections, and the clock, by the system, of which nothing is known.
#[derive(Drop)]
pub struct TcpNetwork<'a, R> {
    rt: &'a R,
    alloc: Global,
    clock: SystemClock<'a, R>,
    // In microseconds, as the monotonic clock counts them.
    began: u64,
    // How many microseconds after that the clock was read last.
    micros: u64,
    poll: Poll,
    events: Events,
    // How many of the events were handed out.
    handed_out: usize,
    // The next connection is that of the first one that has any.
    listeners: Vec<TcpListener>,
    // Where they listen.
    addresses: Vec<SocketAddr>,
}

impl<'a, R: Net + Clock + Log> TcpNetwork<'a, R> {
    /// The network of these listeners.
    pub fn new(
        rt: &'a R,
        alloc: Global,
        mut listeners: Vec<TcpListener>,
    ) -> Result<TcpNetwork<'a, R>, ServiceFault> {
        let poll = Poll::new(rt)?;
        let addresses = addresses_of(alloc, listeners.as_slice())?;
        for listener in &mut listeners {
            poll.registry()
                .register(listener, LISTENER, Interest::READABLE)?;
        }
        Ok(TcpNetwork {
            rt,
            alloc,
            clock: SystemClock::new(rt),
            began: micros_of(rt.monotonic()?),
            micros: 0,
            poll,
            events: Events::with_capacity(alloc, EVENTS as usize)?,
            handed_out: 0,
            listeners,
            addresses,
        })
    }

    /// Where whatever else is registered has to wake the service.
    pub fn registry(&self) -> io::Result<Registry> {
        self.poll.registry().try_clone()
    }

    // The next connection of a listener.
    fn accept_at(&self, listener: &TcpListener, key: usize) -> Accepted<Socket>
        requires { key + 1 < 2 ^ 64 }
    {
        match listener.accept() {
            Ok((stream, peer)) => match self.register(stream, key) {
                Ok(socket) => Accepted::Connection(socket, peer),
                Err(error) => Accepted::Closed(peer, error),
            },
            Err(error) => match error.kind() {
                ErrorKind::WouldBlock => Accepted::None,
                ErrorKind::ConnectionAborted | ErrorKind::Interrupted => Accepted::Gone,
                _ => Accepted::Refused(error),
            },
        }
    }

    // Has what is reported of a stream have a token of this key.
    fn register(&self, mut stream: TcpStream, key: usize) -> io::Result<Socket>
        requires { key + 1 < 2 ^ 64 }
    {
        let interest = Interest::READABLE | Interest::WRITABLE;
        self.poll
            .registry()
            .register(&mut stream, token_of(key), interest)?;
        Socket::new(stream)
    }
}

impl<R: Net + Clock + Log> Network for TcpNetwork<'_, R> {
    type Stream = Socket;

    ghost reported = { λ n. None };

    #[inline(always)]
    fn wait(&mut self, timeout: Option<Duration>) -> io::Result<()> {
        let waited = self.poll.poll(&mut self.events, timeout);
        self.handed_out = 0;
        self.read_clock();
        match waited {
            Err(error) if error.kind() != ErrorKind::Interrupted => Err(error),
            _ => Ok(()),
        }
    }

    fn ready(&mut self) -> Option<Ready> {
        let event = *self.events.iter().as_slice().get(self.handed_out)?;
        self.handed_out += 1;
        Some(match key_of(event.token()) {
            None => Ready::Listener,
            Some(key) => Ready::Client {
                key,
                is_closing: event.is_read_closed() || event.is_error(),
            },
        })
    }

    fn accept(&mut self, key: usize) -> Accepted<Socket> {
        for place in 0..self.listeners.len() {
            match self.accept_at(&self.listeners[place], key) {
                Accepted::None => {}
                accepted => {
                    self.listeners.rotate_left(place + 1);
                    return accepted;
                }
            }
        }
        Accepted::None
    }

    fn close_listener(&mut self) {
        self.listeners.clear();
    }

    fn open_listener(&mut self) -> io::Result<()> {
        let mut listeners = Vec::with_capacity(self.alloc, self.addresses.len())?;
        for address in &self.addresses {
            let mut listener = TcpListener::bind(self.rt, *address)?;
            self.poll
                .registry()
                .register(&mut listener, LISTENER, Interest::READABLE)?;
            listeners.push(listener)?;
        }
        self.listeners = listeners;
        Ok(())
    }

    fn was_reset(&self, stream: &Socket) -> bool {
        stream.was_reset()
    }

    fn now(&mut self) -> Moment {
        self.clock.now()
    }

    fn millis(&mut self) -> u64 {
        self.micros / 1_000
    }

    #[inline(always)]
    fn read_clock(&mut self) -> u64 {
        let before = self.micros;
        if let Ok(time) = self.rt.monotonic() {
            self.micros = micros_of(time).saturating_sub(self.began);
        }
        self.micros.saturating_sub(before)
    }
}

// So much time in microseconds.
fn micros_of(time: Duration) -> u64 {
    time.as_secs()
        .saturating_mul(1_000_000)
        .saturating_add(u64::from(time.subsec_micros()))
}

// Where these listen.
fn addresses_of(alloc: Global, listeners: &[TcpListener]) -> io::Result<Vec<SocketAddr>> {
    let mut addresses = Vec::with_capacity(alloc, listeners.len())?;
    for listener in listeners {
        addresses.push(listener.local_addr()?)?;
    }
    Ok(addresses)
}
