//! The sockets at which a service listens.
ghost use Rattle.std.specs.Prelude.{◌≡◌};
ghost use Rattle.nfs_listening.specs.Opening.{IsReportedAt};

use crate::addresses::most_open;
use crate::registration::Registration;
use log::Log;
use mio::net::TcpListener;
use nfs_command_line::serve::Serve;
use nfs_command_line::words::VERSION;
use nfs_lines::line_out::LineOut;
use nfs_lines::lines::Lines;
use nfs_server::moments::Moments;
use nfs_source::diagnostic::Diagnostic;
use nfs_source::fault::Fault;
use nfs_tcp::clock::SystemClock;
use nfs_tcp::network::TcpNetwork;
use nfs_tcp::service_fault::ServiceFault;
use std::alloc::{AllocError, Global};
use std::mem::replace;
use std::net::{IpAddr, Net, SocketAddr};
use std::time::Clock;

/// The sockets at which a service listens, for calls and for those who ask for its metrics.
#[derive(Drop)]
pub struct Listening {
    alloc: Global,
    // The one that faults of the network name.
    address: SocketAddr,
    // Those that are listened at.
    locals: Vec<SocketAddr>,
    // Until the network has them.
    listeners: Vec<TcpListener>,
    // Where the metrics are, until the service has their listener.
    metrics: Option<TcpListener>,
    metrics_local: Option<SocketAddr>,
}

impl Listening {
    /// Listens at these addresses, with the port of the words, or where that is 0 with the one that the system
    /// chooses for the first; and for metrics where the words ask for that. A fault names the address at which
    /// it can't listen.
    pub fn at<R: Net>(
        rt: &R,
        alloc: Global,
        addresses: &[IpAddr],
        words: Serve<'_, '_>,
    ) -> Result<Listening, Diagnostic> {
        let listeners = listen_at_all(rt, alloc, addresses, words.port())?;
        let address = SocketAddr::new(most_open(addresses), words.port());
        let locals = locals_of(alloc, listeners.as_slice(), address)?;
        let metrics = listen_for_metrics(rt, alloc, words)?;
        Ok(Listening {
            alloc,
            address,
            locals,
            listeners,
            metrics_local: metrics
                .as_ref()
                .and_then(|listener| listener.local_addr().ok()),
            metrics,
        })
    }

    /// The address that faults of the network name.
    pub fn address(&self) -> SocketAddr
        ensures { result ≡ self.now.address }
    {
        self.address
    }

    /// The network of the listeners, which it has from now on. `Network` where the system refuses it, `Memory`
    /// where there is none.
    pub fn network<'r, R: Net + Clock + Log>(
        &mut self,
        rt: &'r R,
    ) -> Result<TcpNetwork<'r, R>, Fault> {
        let listeners = replace(&mut self.listeners, Vec::new(self.alloc));
        match TcpNetwork::new(rt, self.alloc, listeners) {
            Ok(net) => Ok(net),
            Err(fault) => Err(fault_of(self.address, fault)),
        }
    }

    /// The listener for metrics, if the words ask for one; once it was taken, none.
    pub fn take_metrics(&mut self) -> Option<TcpListener> {
        self.metrics.take()
    }

    /// Registers the port of the first address with the portmapper, if there is one. `Unregistered` where that fails.
    pub fn register<R: Net>(&self, rt: &R) -> Result<Option<Registration>, Fault> {
        let Some(local) = self.locals.first() else {
            return Ok(None);
        };
        match Registration::at(rt, self.alloc, local.port()) {
            Ok(registration) => Ok(Some(registration)),
            Err(fault) => Err(Fault::Unregistered(fault)),
        }
    }

    /// Writes a line for each address that it listens on, and one for the metrics. Refused without memory.
    pub fn announce<R: Clock + Log, A: LineOut, C: LineOut>(
        &self,
        rt: &R,
        lines: &mut Lines<'_, A, C>,
    ) -> Result<(), AllocError> {
        for local in &self.locals {
            say(rt, self.alloc, "listening", *local, lines)?;
        }
        match self.metrics_local {
            Some(local) => say(rt, self.alloc, "metrics", local, lines),
            None => Ok(()),
        }
    }

    /// The first lines of the status of a service: its version, and the addresses that it listens on. Refused without
    /// memory.
    pub fn first_lines(&self) -> Result<String, AllocError> {
        let mut lines = format!(in self.alloc; "version {VERSION}\n")?;
        for local in &self.locals {
            lines.push_str(format!(in self.alloc; "address {local}\n")?.as_str())?;
        }
        Ok(lines)
    }
}

// The addresses of listeners, of which faults name one.
fn locals_of(
    alloc: Global,
    listeners: &[TcpListener],
    address: SocketAddr,
) -> Result<Vec<SocketAddr>, Fault> {
    let mut locals = Vec::new(alloc);
    for listener in listeners {
        match listener.local_addr() {
            Ok(local) => locals.push(local).map_err(AllocError::from)?,
            Err(error) => return Err(Fault::Network { address, error }),
        }
    }
    Ok(locals)
}

// Listens at addresses with this port, or where it is 0 with the one that the system chooses for the first.
fn listen_at_all<R: Net>(
    rt: &R,
    alloc: Global,
    addresses: &[IpAddr],
    port: u16,
) -> Result<Vec<TcpListener>, Diagnostic> {
    let mut listeners = Vec::new(alloc);
    let mut port = port;
    for ip in addresses {
        let address = SocketAddr::new(*ip, port);
        let listener = listen_at(rt, alloc, address)?;
        port = port_of(&listener, address)?;
        if let Err(error) = listeners.push(listener) {
            return Err(AllocError::from(error).into());
        }
    }
    Ok(listeners)
}

// Listens where metrics are asked for, if they are.
fn listen_for_metrics<R: Net>(
    rt: &R,
    alloc: Global,
    words: Serve<'_, '_>,
) -> Result<Option<TcpListener>, Diagnostic> {
    match words
        .metrics()
        .and_then(|text| text.parse::<SocketAddr>().ok())
    {
        Some(address) => Ok(Some(listen_at(rt, alloc, address)?)),
        None => Ok(None),
    }
}

// Listens at an address.
fn listen_at<R: Net>(
    rt: &R,
    alloc: Global,
    address: SocketAddr,
) -> Result<TcpListener, Diagnostic> {
    match TcpListener::bind(rt, address) {
        Ok(listener) => Ok(listener),
        Err(error) => Err(Diagnostic::of_listening(alloc, address, error)),
    }
}

// The port that is listened at.
fn port_of(listener: &TcpListener, address: SocketAddr) -> Result<u16, Fault> {
    match listener.local_addr() {
        Ok(local) => Ok(local.port()),
        Err(error) => Err(Fault::Network { address, error }),
    }
}

// Says an address after a word.
fn say<R: Clock + Log, A: LineOut, C: LineOut>(
    rt: &R,
    alloc: Global,
    word: &str,
    local: SocketAddr,
    lines: &mut Lines<'_, A, C>,
) -> Result<(), AllocError> {
    let line = format!(in alloc; "{word} {local}\n")?;
    let mut clock = SystemClock::new(rt);
    lines.report(clock.now(), line.as_bytes());
    Ok(())
}

/// A fault of a service at this address, as it is reported.
pub fn fault_of(address: SocketAddr, fault: ServiceFault) -> Fault
    ensures { IsReportedAt address fault result }
{
    match fault {
        ServiceFault::Network(error) => Fault::Network { address, error },
        ServiceFault::Write => Fault::Write,
        ServiceFault::Memory => Fault::Memory(AllocError),
    }
}
