//! What a service does between two rounds: copies of its tree, and answers to who controls it or gets its metrics.
ghost use Rattle.std.specs.Prelude.{◌≡◌, IsErr};
ghost use Rattle.nfs_loop.specs.Attending.{MayReload};

use crate::metrics_socket::MetricsSocket;
use crate::socket::ControlSocket;
use crate::unsaved::reason;
use crate::watch::Watch;
use log::{Log, warn};
use nfs_loop::attendant::Attendant;
use nfs_loop::view::ServiceView;
use nfs_saving::copies::CopySaver;
use nfs_server::server::Server;
use nfs_source::fault::Fault;
use nfs_xdr::link::Link;
use std::alloc::Global;
use std::net::Net;
use std::random::RandomSource;
use std::rt::Files;
use std::time::Clock;

/// What saves the tree of a service; the sockets by which it is controlled and gives its metrics, and what watches its
/// description, if there are any.
#[derive(Drop)]
pub struct Attending<'a, 'b, Q, R> {
    copies: CopySaver<'a, Q>,
    control: Option<ControlSocket<'b, R>>,
    metrics: Option<MetricsSocket<'b, R>>,
    watch: Option<Watch<'b, R>>,
    log: &'a Q,
    alloc: Global,
    // Whether the tree is saved for the end of the service.
    is_finished: bool,
}

impl<'a, 'b, Q, R: Files + Net> Attending<'a, 'b, Q, R> {
    /// With what saves the tree, the sockets, and what watches the description. It logs what that does.
    pub fn new(
        alloc: Global,
        copies: CopySaver<'a, Q>,
        control: Option<ControlSocket<'b, R>>,
        metrics: Option<MetricsSocket<'b, R>>,
        watch: Option<Watch<'b, R>>,
        log: &'a Q,
    ) -> Attending<'a, 'b, Q, R> {
        Attending {
            copies,
            control,
            metrics,
            watch,
            log,
            alloc,
            is_finished: false,
        }
    }

    /// Takes the control socket away, and closes its connections: whoever asked for the end of the service sees that it has
    /// ended, and whether with a fault.
    pub fn end(self, has_fault: bool) {
        let Attending { control, .. } = self;
        if let Some(socket) = control {
            socket.remove(has_fault);
        }
    }
}

impl<Q, R> Attending<'_, '_, Q, R> {
    /// Whether the tree is saved already for the end of the service, which was told to end.
    pub fn is_finished(&self) -> bool
        ensures { result ≡ self.now.is_finished }
    {
        self.is_finished
    }
}

impl<Q: Files + RandomSource + Log, R> Attending<'_, '_, Q, R> {
    /// Saves the tree to the file that was named by whoever ended the service, if one was. The fault with which the
    /// service ended, or else that of the saving; where there are both, that of the saving is logged.
    pub fn save_last(&self, server: &Server, served: Result<(), Fault>) -> Result<(), Fault>
        ensures { IsErr served → IsErr result }
    {
        match (served, self.copies.save_last(server)) {
            (Ok(()), saved) => saved,
            (Err(fault), Ok(())) => Err(fault),
            (Err(fault), Err(unsaved)) => {
                warn!(self.log; "{unsaved}");
                Err(fault)
            }
        }
    }
}

impl<Q: Log, R: Files + Net> Attending<'_, '_, Q, R> {
    // Tells whoever asked for the end of the service that it goes on, since its tree can't be saved.
    fn go_on(&mut self, fault: &Fault) {
        warn!(self.log; "{fault}; the service goes on");
        let Some(socket) = &mut self.control else {
            return;
        };
        match reason(self.alloc, fault, "; the service goes on") {
            Ok(line) => socket.go_on(line.as_bytes()),
            Err(_) => socket.go_on(b"error: out of memory; the service goes on\n"),
        }
    }
}

impl<Q: Log, R: Files + Input + Net> Attending<'_, '_, Q, R> {
    // Puts the exports of the description in force, where it is watched and has changed.
    fn look_at_description(&mut self, server: &mut Server)
        ensures { MayReload server.old server.new }
    {
        if let Some(watch) = &mut self.watch {
            watch.attend(self.log, server);
        }
    }
}

impl<Q: Files + RandomSource + Clock + Log, R: Files + Input + Net> Attendant
    for Attending<'_, '_, Q, R> {
    ghost may_end = { λ a. a.is_finished };

    fn save(&mut self, server: &Server) {
        self.copies.save(server);
    }

    fn finish(&mut self, server: &Server) -> bool {
        match self.copies.save_to_end(server) {
            Ok(()) => self.is_finished = true,
            Err(fault) => {
                self.is_finished = false;
                self.go_on(&fault);
            }
        }
        self.is_finished
    }

    fn attend<L: Link + Drop>(&mut self, server: &mut Server, view: &ServiceView<'_, L>) -> bool {
        self.look_at_description(server);
        if let Some(socket) = &mut self.metrics {
            socket.attend(server, view);
        }
        match &mut self.control {
            Some(socket) => socket.attend(server, view, &mut self.copies),
            None => false,
        }
    }
}
