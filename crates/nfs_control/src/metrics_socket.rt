//! The socket at which a service gives its metrics.

use crate::http::{Request, metrics_response, read_request, refusal};
use crate::metrics::metrics_of;
use crate::visit::{Form, Heard, Visit};
use crate::visits::Visits;
use mio::Registry;
use mio::net::{TcpListener, TcpStream};
use nfs_loop::view::ServiceView;
use nfs_server::server::Server;
use nfs_xdr::link::Link;
use std::alloc::{AllocError, Global};
use std::io;
use std::rt::Files;

/// A TCP socket at which a service gives its metrics by HTTP/1.1, and nothing else. Nothing here waits.
#[derive(Drop)]
pub struct MetricsSocket<'a, R> {
    rt: &'a R,
    alloc: Global,
    listener: TcpListener,
    visits: Visits<TcpStream>,
}

impl<'a, R: Files> MetricsSocket<'a, R> {
    /// That of this listener. The service is woken, by way of the registry, when there is something to do. The error of
    /// the system.
    pub fn new(
        rt: &'a R,
        alloc: Global,
        mut listener: TcpListener,
        registry: Registry,
    ) -> io::Result<MetricsSocket<'a, R>> {
        let visits = Visits::new(alloc, registry, Form::Head)?;
        visits.listen(&mut listener)?;
        Ok(MetricsSocket {
            rt,
            alloc,
            listener,
            visits,
        })
    }

    /// Accepts, reads, answers and writes as far as it goes without waiting, and closes what has ended.
    pub fn attend<L: Link + Drop>(&mut self, server: &Server, view: &ServiceView<'_, L>) {
        self.visits.accept(&mut self.listener);
        for visit in self.visits.as_mut_slice() {
            match visit.hear() {
                Heard::Part => {}
                Heard::All => answer(self.rt, self.alloc, visit, server, view),
                Heard::TooLong => respond(visit, refusal(self.alloc, Request::TooLong)),
            }
            visit.tell();
        }
        self.visits.sweep();
    }
}

// Answers the request that was heard.
fn answer<L: Link + Drop, R: Files>(
    rt: &R,
    alloc: Global,
    visit: &mut Visit<TcpStream>,
    server: &Server,
    view: &ServiceView<'_, L>,
) {
    let response = match read_request(visit.line()) {
        Some(Request::Metrics) => metrics_by_http(rt, alloc, server, view),
        Some(request) => refusal(alloc, request),
        None => refusal(alloc, Request::Malformed),
    };
    respond(visit, response);
}

fn metrics_by_http<L: Link + Drop, R: Files>(
    rt: &R,
    alloc: Global,
    server: &Server,
    view: &ServiceView<'_, L>,
) -> Result<Vec<u8>, AllocError> {
    let metrics = metrics_of(rt, alloc, server, view)?;
    metrics_response(alloc, metrics.as_slice())
}

// Has a response written. Where there is no memory for it, the connection is closed.
fn respond(visit: &mut Visit<TcpStream>, response: Result<Vec<u8>, AllocError>) {
    match response {
        Ok(response) => visit.answer(response, false),
        Err(_) => visit.close(),
    }
}
