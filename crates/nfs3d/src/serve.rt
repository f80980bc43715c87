//! Serving over TCP.

use log::sink::Console;
use log::{Level, Log, Logged};
use mio::net::TcpListener;
use nfs_command_line::serve::Serve;
use nfs_control::attending::Attending;
use nfs_control::metrics_socket::MetricsSocket;
use nfs_control::socket::{About, ControlSocket};
use nfs_control::watch::Watch;
use nfs_journal::file_journal::FileJournal;
use nfs_lines::line_out::LineOut;
use nfs_lines::lines::Lines;
use nfs_listening::addresses::{addresses_of, has_metrics_address, most_open};
use nfs_listening::line_files::{audit_file, output, wording_of};
use nfs_listening::listening::{Listening, fault_of};
use nfs_listening::registration::Registration;
use nfs_loop::attendant::Attendant;
use nfs_loop::limits::Limits;
use nfs_loop::network::Network;
use nfs_loop::service::{Service, begin_notes};
use nfs_loop::serving_fault::ServingFault;
use nfs_named::named::{description_name, is_same_file};
use nfs_recovery::lending::{ServerUse, lend_life};
use nfs_saving::copies::Copies;
use nfs_saving::saved_file::cannot_write;
use nfs_server::server::Server;
use nfs_source::diagnostic::Diagnostic;
use nfs_source::fault::Fault;
use nfs_source::journal_fault::JournalFault;
use nfs_tcp::network::TcpNetwork;
use nfs_xdr::link::Link;
use std::alloc::Global;
use std::fs::File;
use std::io;
use std::net::Net;
use std::process::ExitCode;
use std::random::RandomSource;
use std::rt::Files;
use std::time::Clock;

/// Serves a description or a directory: prints the addresses that it listens on, and serves clients until as
/// many connections have ended as there may be. The tree that they leave is saved where the words ask for
/// it, also where a fault ends the service once it has begun. The status is 2 where a word is faulty. It listens before the
/// description is read, or a journal begun: clients that come meanwhile wait.
pub(crate) fn serve_tree<R>(
    rt: &R,
    alloc: Global,
    words: Serve<'_, '_>,
) -> Result<ExitCode, Diagnostic>
where
    R: Files<File = File> + Input + Print + Eprint + Net + Clock + RandomSource + AllocGlobal,
{
    let Some(addresses) = addresses_of(rt, alloc, words)? else {
        return Ok(ExitCode::from(2));
    };
    if !has_metrics_address(rt, words) {
        return Ok(ExitCode::from(2));
    }
    let listening = Listening::at(rt, alloc, addresses.as_slice(), words)?;
    let description = description_name(rt, alloc, words.trees())?;
    let served = Served::new(alloc, listening, words, description);
    if !has_files(rt, &served, words) {
        return Ok(ExitCode::from(2));
    }
    let copies = Copies::of(rt, alloc, words.save(), words.key())?;
    let mut service = Serving {
        rt,
        words,
        copies: &copies,
        served,
    };
    lend_life(
        rt,
        alloc,
        words,
        most_open(addresses.as_slice()),
        &mut service,
    )
}

// Whether the description that is served is one that can be watched, and not where the tree is saved beside its journal, if
// the words ask for these; it is reported where it isn't.
fn has_files<R: Files + Eprint>(rt: &R, served: &Served<'_>, words: Serve<'_, '_>) -> bool {
    if words.is_watched() && !served.has_file() {
        let _ = eprintln!(rt; "error: --watch takes one description, in a file");
        return false;
    }
    match words.save() {
        Some(name) if served.is_of_journal(rt, name) => {
            let _ = eprintln!(rt;
                "error: --save would replace the description that the journal belongs to: save to another file"
            );
            false
        }
        _ => true,
    }
}

// A service that listens, until it has a server.
#[derive(Drop)]
struct Serving<'a, 'w, R> {
    rt: &'a R,
    words: Serve<'a, 'w>,
    copies: &'a Copies<'a>,
    served: Served<'a>,
}

impl<R> ServerUse<R> for Serving<'_, '_, R>
where
    R: Files<File = File> + Input + Print + Eprint + Net + Clock + RandomSource,
{
    // Serves, and then saves the tree where the words ask for it.
    fn run(
        &mut self,
        server: &mut Server,
        journal: Option<FileJournal<'_, R, File>>,
    ) -> Result<ExitCode, Diagnostic> {
        let (rt, alloc, wording) = (self.rt, self.served.alloc, wording_of(self.words));
        let out = output(rt, alloc)?;
        match self.words.audit() {
            Some(name) => {
                let audit = audit_file(rt, alloc, name)?;
                self.run_with(
                    server,
                    journal,
                    Lines::new(alloc, wording, audit, Some(out)),
                )
            }
            None => self.run_with(server, journal, Lines::alone(alloc, wording, out)),
        }
    }
}

impl<R> Serving<'_, '_, R>
where
    R: Files<File = File> + Input + Eprint + Net + Clock + RandomSource,
{
    // Serves with these lines, which are let go then, and then saves.
    fn run_with<A: LineOut + Drop, C: LineOut + Drop>(
        &mut self,
        server: &mut Server,
        journal: Option<FileJournal<'_, R, File>>,
        lines: Lines<'_, A, C>,
    ) -> Result<ExitCode, Diagnostic> {
        let mut lines = lines;
        let mut journal = journal;
        let logged = Logged::new(self.rt, self.served.level, Console(self.rt));
        self.serve_logged(&logged, server, &mut journal, &mut lines)
    }

    // Serves, logging so, and then saves. The portmapper knows of the service as long as it lasts; where it can't be told,
    // nothing is served or saved. Who has the service stopped is answered to the end when the tree is saved.
    fn serve_logged<L, A, C>(
        &mut self,
        logged: &L,
        server: &mut Server,
        journal: &mut Option<FileJournal<'_, R, File>>,
        lines: &mut Lines<'_, A, C>,
    ) -> Result<ExitCode, Diagnostic>
    where
        L: Files + Net + Clock + RandomSource + Log,
        A: LineOut,
        C: LineOut,
    {
        let (rt, copies, alloc) = (self.rt, self.copies, self.served.alloc);
        let mut net = self.served.listening.network(logged)?;
        let metrics = self.served.metrics(rt, &net)?;
        let control = self.served.control(rt, &net)?;
        if control.is_some() {
            lines.denied.keep_denials();
        }
        let saver = copies.saver(logged, alloc);
        let watch = self.served.watch(rt);
        let mut attending = Attending::new(alloc, saver, control, metrics, watch, logged);
        let registration = match self.served.register(rt) {
            Ok(registration) => registration,
            Err(fault) => {
                attending.end(true);
                return Err(fault.into());
            }
        };
        let done = self
            .served
            .run(logged, server, journal, &mut net, lines, &mut attending);
        if let Some(registration) = registration {
            registration.remove(rt);
        }
        let saved = save_last(rt, alloc, server, &attending, copies, done);
        attending.end(saved.is_err());
        saved?;
        Ok(ExitCode::SUCCESS)
    }
}

// Saves the tree of a service that has ended so, unless that was done before it ended.
fn save_last<R, L, C>(
    rt: &R,
    alloc: Global,
    server: &Server,
    attending: &Attending<'_, '_, L, C>,
    copies: &Copies<'_>,
    served: Result<(), Fault>,
) -> Result<(), Diagnostic>
where
    R: Files + RandomSource + Eprint,
    L: Files + RandomSource + Log,
{
    if attending.is_finished() {
        return match served {
            Ok(()) => Ok(()),
            Err(fault) => Err(fault.into()),
        };
    }
    let served = attending.save_last(server, served);
    copies.save_last(rt, alloc, server, served)
}

// What is served, where it is listened, and how much is taken on.
#[derive(Drop)]
struct Served<'a> {
    alloc: Global,
    listening: Listening,
    limits: Limits,
    level: Level,
    is_registered: bool,
    control: Option<&'a str>,
    is_watched: bool,
    // The name of the description that is served, if it is one.
    description: Option<&'a str>,
    // The name of the journal, if there is one.
    journal: Option<&'a str>,
}

impl<'a> Served<'a> {
    // What the words ask for, over these sockets, of a description of this name, if it is one.
    fn new(
        alloc: Global,
        listening: Listening,
        words: Serve<'a, '_>,
        description: Option<&'a str>,
    ) -> Served<'a> {
        let limits = Limits {
            connections: words.connections(),
            clients: words.clients(),
            idle: words.idle(),
            save_every: words.save_every(),
            is_watched: words.is_watched(),
        };
        let level = if words.is_verbose() {
            Level::Info
        } else {
            Level::Warn
        };
        Served {
            alloc,
            listening,
            limits,
            level,
            is_registered: words.is_registered(),
            control: words.control(),
            is_watched: words.is_watched(),
            description,
            journal: words.journal(),
        }
    }

    // The socket by which the service is controlled, where the words ask for one.
    fn control<'r, R, L>(
        &self,
        rt: &'r R,
        net: &TcpNetwork<'_, L>,
    ) -> Result<Option<ControlSocket<'r, R>>, Fault>
    where
        'a: 'r,
        R: Files + Net,
        L: Net + Clock + Log,
    {
        let Some(path) = self.control else {
            return Ok(None);
        };
        let about = About {
            description: self.description,
            has_journal: self.journal.is_some(),
            first_lines: self.listening.first_lines()?,
        };
        match bind(rt, self.alloc, path, about, net) {
            Ok(socket) => Ok(Some(socket)),
            Err(error) => match path.to_string(self.alloc) {
                Ok(name) => Err(Fault::CannotWrite { name, error }),
                Err(error) => Err(Fault::Memory(error)),
            },
        }
    }

    // The socket at which the service gives its metrics, where the words ask for one.
    fn metrics<'r, R: Files + Net, L: Net + Clock + Log>(
        &mut self,
        rt: &'r R,
        net: &TcpNetwork<'_, L>,
    ) -> Result<Option<MetricsSocket<'r, R>>, Fault> {
        let Some(listener) = self.listening.take_metrics() else {
            return Ok(None);
        };
        match metrics_at(rt, self.alloc, listener, net) {
            Ok(socket) => Ok(Some(socket)),
            Err(error) => Err(Fault::Network {
                address: self.listening.address(),
                error,
            }),
        }
    }

    // Whether a description is served that is in a file.
    fn has_file(&self) -> bool {
        match self.description {
            Some(name) => name != "-",
            None => false,
        }
    }

    // Whether this is the file of the description to which the journal belongs.
    fn is_of_journal<R: Files>(&self, rt: &R, name: &str) -> bool {
        match self.description {
            Some(description) => self.journal.is_some() && is_same_file(rt, name, description),
            None => false,
        }
    }

    // What watches the description, where the words ask for that.
    fn watch<'r, R: Files + Input>(&self, rt: &'r R) -> Option<Watch<'r, R>>
    where
        'a: 'r,
    {
        match self.description {
            Some(name) if self.is_watched => Some(Watch::new(rt, self.alloc, name)),
            _ => None,
        }
    }

    // Tells the portmapper, where the words ask for it.
    fn register<R: Net>(&self, rt: &R) -> Result<Option<Registration>, Fault> {
        if !self.is_registered {
            return Ok(None);
        }
        self.listening.register(rt)
    }

    // Says where it is listened, and serves the clients of the network.
    fn run<R, Q, N, L, A, C, T>(
        &self,
        rt: &R,
        server: &mut Server,
        journal: &mut Option<FileJournal<'_, Q, File>>,
        net: &mut N,
        lines: &mut Lines<'_, A, C>,
        attendant: &mut T,
    ) -> Result<(), Fault>
    where
        R: Clock + Log,
        Q: Clock,
        N: Network<Stream = L>,
        L: Link + Drop,
        A: LineOut,
        C: LineOut,
        T: Attendant,
    {
        self.listening.announce(rt, lines)?;
        let mut service = Service::new(self.alloc, self.limits)?;
        if let Err(error) = begin_notes(self.alloc, server, journal) {
            return Err(Fault::Memory(error));
        }
        match service.serve(rt, server, net, lines, attendant, journal) {
            Ok(()) if lines.lost_some() => Err(Fault::Write),
            Ok(()) => Ok(()),
            Err(ServingFault::Network(error)) => Err(fault_of(
                self.listening.address(),
                error.into(),
            )),
            Err(ServingFault::Journal(_)) => Err(self.journal_fault(journal)),
        }
    }

    // Why what was answered doesn't come to last in the journal.
    fn journal_fault<Q>(&self, journal: &mut Option<FileJournal<'_, Q, File>>) -> Fault {
        let name = self.journal.unwrap_or("the journal");
        match journal.as_mut().and_then(FileJournal::take_error) {
            Some(error) => cannot_write(self.alloc, name, error),
            None => Fault::of_journal(self.alloc, name, JournalFault::Lost),
        }
    }
}

// The socket at a path by which a service of this network is controlled.
fn bind<'r, R: Files + Net, L: Net + Clock + Log>(
    rt: &'r R,
    alloc: Global,
    path: &'r str,
    about: About<'r>,
    net: &TcpNetwork<'_, L>,
) -> io::Result<ControlSocket<'r, R>> {
    ControlSocket::bind(rt, alloc, path, about, net.registry()?)
}

// The socket at which a service of this network gives its metrics.
fn metrics_at<'r, R: Files, L: Net + Clock + Log>(
    rt: &'r R,
    alloc: Global,
    listener: TcpListener,
    net: &TcpNetwork<'_, L>,
) -> io::Result<MetricsSocket<'r, R>> {
    MetricsSocket::new(rt, alloc, listener, net.registry()?)
}
