//! The connections of a socket, each of which is answered once.

use crate::visit::{Form, Visit};
use mio::event::Source;
use mio::net::{TcpListener, TcpStream, UnixListener, UnixStream};
use mio::{Interest, Registry};
use nfs_tcp::keys::WAKING;
use std::alloc::{AllocError, Global};
use std::io::{self, Read, Write};

// How many connections there may be at once.
const MOST_VISITS: usize = 8;

// How many connections are accepted in a round.
const MOST_ACCEPTED: usize = 64;

/// What accepts connections, and never waits.
pub(crate) trait Accepts: Source {
    /// A connection.
    type Stream;

    /// The next connection. `WouldBlock` where none waits.
    fn accept_next(&self) -> io::Result<Self::Stream>;
}

impl Accepts for UnixListener {
    type Stream = UnixStream;

    fn accept_next(&self) -> io::Result<UnixStream> {
        let (stream, _) = self.accept()?;
        Ok(stream)
    }
}

impl Accepts for TcpListener {
    type Stream = TcpStream;

    fn accept_next(&self) -> io::Result<TcpStream> {
        let (stream, _) = self.accept()?;
        Ok(stream)
    }
}

/// The connections of a socket, each of which is answered once. Nothing here waits.
#[derive(Drop)]
pub(crate) struct Visits<S: Drop> {
    alloc: Global,
    registry: Registry,
    form: Form,
    visits: Vec<Visit<S>>,
}

impl<S: Read + Write + Source + Drop> Visits<S> {
    /// None. The service is woken, by way of the registry, when there is something to do.
    pub(crate) fn new(
        alloc: Global,
        registry: Registry,
        form: Form,
    ) -> Result<Visits<S>, AllocError> {
        Ok(Visits {
            alloc,
            registry,
            form,
            visits: Vec::with_capacity(alloc, MOST_VISITS)?,
        })
    }

    /// Has the service be woken when connections wait.
    pub(crate) fn listen<A: Accepts<Stream = S>>(&self, listener: &mut A) -> io::Result<()> {
        self.registry.register(listener, WAKING, Interest::READABLE)
    }

    /// The connections.
    pub(crate) fn as_mut_slice(&mut self) -> &mut [Visit<S>] {
        self.visits.as_mut_slice()
    }

    /// Accepts those that wait. Where there are more than in a round, the next round is woken.
    pub(crate) fn accept<A: Accepts<Stream = S>>(&mut self, listener: &mut A) {
        for _ in 0..MOST_ACCEPTED {
            let Ok(stream) = listener.accept_next() else {
                return;
            };
            self.admit(stream);
        }
        let _ = self
            .registry
            .reregister(listener, WAKING, Interest::READABLE);
    }

    /// Lets those go that are over.
    pub(crate) fn sweep(&mut self) {
        self.visits
            .retain(|visit: &Visit<S>| -> bool { !visit.is_over() });
    }

    // Takes on a connection; closes it where there are too many, or the system or the memory refuses it.
    fn admit(&mut self, mut stream: S) {
        let interest = Interest::READABLE | Interest::WRITABLE;
        if self.visits.len() >= MOST_VISITS
            || self
                .registry
                .register(&mut stream, WAKING, interest)
                .is_err()
        {
            return;
        }
        let _ = self.visits.push(Visit::new(self.alloc, stream, self.form));
    }
}
