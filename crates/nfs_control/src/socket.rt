//! The socket by which a service is asked and stopped.
ghost use Rattle.nfs_loop.specs.Attending.{MayReload};

use crate::answering::Answering;
use crate::visit::{Form, Heard, Visit};
use crate::visits::Visits;
use crate::words::WordFault;
use mio::Registry;
use mio::net::{UnixListener, UnixStream};
use nfs_loop::view::ServiceView;
use nfs_saving::copies::CopySaver;
use nfs_server::server::Server;
use nfs_xdr::link::Link;
use std::alloc::Global;
use std::fs::{self, Permissions};
use std::io::{self, ErrorKind};
use std::net::Net;
use std::os::unix::fs::{FileTypeExt, PermissionsExt};
use std::random::RandomSource;
use std::rt::Files;

// As many connections may wait as the system allows, at most.
const MOST_WAITING: usize = 65_536;

// The mode of the socket: only its owner may connect.
const MODE: u32 = 0o600;

/// What is known of a service before it begins.
#[derive(Drop)]
pub struct About<'a> {
    /// The name of the description that it serves; `None` where it serves directories.
    pub description: Option<&'a str>,
    /// Whether it has a journal, which belongs to that description and its exports.
    pub has_journal: bool,
    /// The first lines of its status.
    pub first_lines: String,
}

/// A Unix socket at which a service is asked and stopped. Nothing here waits.
#[derive(Drop)]
pub struct ControlSocket<'a, R> {
    rt: &'a R,
    alloc: Global,
    path: &'a str,
    about: About<'a>,
    listener: UnixListener,
    visits: Visits<UnixStream>,
}

impl<'a, R: Files + Net> ControlSocket<'a, R> {
    /// Makes the socket at a path, for its owner alone. The service is woken, by way of the registry, when there is
    /// something to do. A socket that nobody listens at any more is replaced.
    ///
    /// `AddrInUse` where a service listens there, `AlreadyExists` where something else has the path, and else the
    /// error of the system. Nothing is left at the path then but what stood there.
    pub fn bind(
        rt: &'a R,
        alloc: Global,
        path: &'a str,
        about: About<'a>,
        registry: Registry,
    ) -> io::Result<ControlSocket<'a, R>> {
        let visits = Visits::new(alloc, registry, Form::Line)?;
        let mut listener = listen(rt, path)?;
        if let Err(error) = protect(rt, path, &mut listener, &visits) {
            let _ = fs::remove_file(rt, path);
            return Err(error);
        }
        Ok(ControlSocket {
            rt,
            alloc,
            path,
            about,
            listener,
            visits,
        })
    }

    /// Tells this line to whoever asked for the end of the service, which goes on.
    pub fn go_on(&mut self, line: &[u8]) {
        for visit in self.visits.as_mut_slice() {
            visit.let_go(line);
        }
        self.visits.sweep();
    }

    /// Takes the socket away, and closes its connections. Where the service ended with a fault, whoever asked for its
    /// end is told so.
    pub fn remove(mut self, has_fault: bool) {
        if has_fault {
            for visit in self.visits.as_mut_slice() {
                visit.add(b"error: the service ended with a fault; see its messages\n");
            }
        }
        let _ = fs::remove_file(self.rt, self.path);
    }
}

impl<R: Files + Input + Net> ControlSocket<'_, R> {
    /// Accepts, reads, answers and writes as far as it goes without waiting, and closes what has ended. A save is
    /// done before its answer. Of the server nothing changes but its exports. Whether the service was asked to end; who
    /// asked that is kept open until the socket is removed.
    pub fn attend<L: Link + Drop, Q: Files + RandomSource>(
        &mut self,
        server: &mut Server,
        view: &ServiceView<'_, L>,
        copies: &mut CopySaver<'_, Q>,
    ) -> bool
        ensures { MayReload server.old server.new }
    {
        self.visits.accept(&mut self.listener);
        let mut answering = Answering {
            rt: self.rt,
            alloc: self.alloc,
            view,
            copies,
            about: &self.about,
        };
        let mut stops = false;
        for visit in self.visits.as_mut_slice() {
            stops |= attend_visit(visit, &mut answering, server);
        }
        self.visits.sweep();
        stops
    }
}

// Reads, answers and writes as far as it goes. Whether the service is to end.
fn attend_visit<L: Link + Drop, R: Files + Input, Q: Files + RandomSource>(
    visit: &mut Visit<UnixStream>,
    answering: &mut Answering<'_, '_, '_, '_, '_, '_, '_, L, R, Q>,
    server: &mut Server,
) -> bool
    ensures { MayReload server.old server.new }
{
    let answer = match visit.hear() {
        Heard::Part => {
            visit.tell();
            return false;
        }
        Heard::All => answering.answer(server, visit.line()),
        Heard::TooLong => answering.fault(WordFault::TooLong),
    };
    let Ok(answer) = answer else {
        visit.close();
        return false;
    };
    visit.answer(answer.text, answer.stops);
    visit.tell();
    answer.stops
}

// A listener at a path, also where a socket stands there at which nobody listens.
fn listen<R: Files + Net>(rt: &R, path: &str) -> io::Result<UnixListener> {
    match UnixListener::bind(rt, path) {
        Err(error) if error.kind() == ErrorKind::AddrInUse => {}
        listener => return listener,
    }
    if !fs::symlink_metadata(rt, path)?.file_type().is_socket() {
        return Err(io::Error::new(ErrorKind::AlreadyExists, "it is not a socket"));
    }
    match UnixStream::connect(rt, path) {
        Err(error) if error.kind() == ErrorKind::ConnectionRefused => {}
        Err(error) if error.kind() != ErrorKind::WouldBlock => return Err(error),
        _ => return Err(io::Error::new(ErrorKind::AddrInUse, "a service listens there")),
    }
    fs::remove_file(rt, path)?;
    UnixListener::bind(rt, path)
}

// Has only the owner reach the socket, and the listener reported. Who came before that is sent away.
fn protect<R: Files>(
    rt: &R,
    path: &str,
    listener: &mut UnixListener,
    visits: &Visits<UnixStream>,
) -> io::Result<()> {
    fs::set_permissions(rt, path, Permissions::from_mode(MODE))?;
    for _ in 0..MOST_WAITING {
        if listener.accept().is_err() {
            break;
        }
    }
    visits.listen(listener)
}
