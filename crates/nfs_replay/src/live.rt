//! A script, played against a server over a network, as a client's calls.

use crate::connection::{Connection, Exchange, SeekFault, Sought, short_handle};
use crate::fault::RunFault;
use crate::hexadecimal::push_bytes;
use crate::line_fault::LineFault;
use crate::printing::Printer;
use crate::script::{Order, Sending, has_again, order_of};
use crate::sent::{SentRecord, SentRecords};
use nfs_args::procedure::MountProcedure;
use nfs_ask::ask::Ask;
use nfs_ask::fault::fault_of;
use nfs_ask::script_fault::{LineCause, ScriptFault};
use nfs_client::caller::Caller;
use nfs_client::fault::{CallFault, Part};
use nfs_client::request::Request;
use nfs_exports::addr::Addr;
use nfs_text::lines::Lines;
use nfs_text::words::Words;
use nfs_xdr::device::ByteOut;
use nfs_xdr::output::Output;
use std::alloc::{AllocError, Global};
use std::io::{self, Read, Write};

/// What reaches a server.
pub trait Dialer {
    /// A connection to it. Where nothing comes for long, a read ends with `WouldBlock` or `TimedOut`.
    type Stream: Read + Write + Drop;

    /// A new connection. The error of the network.
    fn dial(&self) -> io::Result<Self::Stream>;

    /// Reports that no reply came to the call of this line of the script.
    fn report_silence(&self, line: u64);
}

/// Why a script isn't played to its end.
#[derive(Drop)]
pub enum LiveFault {
    /// What would end a run of it too.
    Script(ScriptFault),
    /// The network fails.
    Network(io::Error),
}

// Why a line isn't played.
#[derive(Drop)]
enum Stop {
    Line(LineFault),
    Network(io::Error),
}

impl Stop {
    // With the number of the line, before which so many stand.
    fn at(self, before: u64) -> LiveFault {
        match self {
            Stop::Line(fault) => LiveFault::Script(fault.at(before)),
            Stop::Network(error) => LiveFault::Network(error),
        }
    }
}

impl From<LineFault> for Stop {
    fn from(fault: LineFault) -> Stop {
        Stop::Line(fault)
    }
}

impl From<RunFault> for Stop {
    fn from(fault: RunFault) -> Stop {
        Stop::Line(LineFault::OfRun(fault))
    }
}

impl From<AllocError> for Stop {
    fn from(_error: AllocError) -> Stop {
        Stop::Line(LineFault::OfRun(RunFault::Memory))
    }
}

impl From<io::Error> for Stop {
    fn from(error: io::Error) -> Stop {
        if error.kind() == io::ErrorKind::OutOfMemory {
            Stop::Line(LineFault::OfRun(RunFault::Memory))
        } else {
            Stop::Network(error)
        }
    }
}

/// Sends what each line of a script says to a server, on a connection for each address of the lines, and prints the
/// reply to it, and where that is asked for what it says in words. The server sees the address of this machine, and its
/// own clock. The files of an `ask` line are looked for as a client does: by EXPORT, MNT and LOOKUP, as the line's user;
/// where one of these fails, its reply is printed, and the line is done. A call to which no reply comes prints nothing,
/// and the dialer reports it.
///
/// `Script` as a run of the script has it, and with `NotLive` at an `attach`, `detach`, `feed` or `show` line, which is
/// for a server of one's own; a word of bytes may name no file. `Network` where the network fails.
pub fn play<D: Dialer, W: ByteOut>(
    alloc: Global,
    dialer: &D,
    script: &[u8],
    is_decoded: bool,
    out: &mut W,
) -> Result<(), LiveFault> {
    let mut player = Player {
        alloc,
        dialer,
        connections: Vec::new(alloc),
        printer: Printer::new(alloc),
        is_decoded,
    };
    let mut sent = SentRecords::new(alloc, has_again(script));
    let mut before: u64 = 0;
    let mut lines = Lines::new(script);
    while let Some(line) = lines.next() {
        if let Err(stop) = player.line(line, before, &mut sent, out) {
            return Err(stop.at(before));
        }
        before = before.saturating_add(1);
    }
    Ok(())
}

// What plays a script.
#[derive(Drop)]
struct Player<'d, D: Dialer> {
    alloc: Global,
    dialer: &'d D,
    // With the addresses for which they are.
    connections: Vec<(Addr, Connection<D::Stream>)>,
    printer: Printer,
    is_decoded: bool,
}

impl<D: Dialer> Player<'_, D> {
    // Plays a line, before which so many stand.
    fn line<W: ByteOut>(
        &mut self,
        line: &[u8],
        before: u64,
        sent: &mut SentRecords,
        out: &mut W,
    ) -> Result<(), Stop> {
        let Some(order) = order_of(line) else {
            return Err(LineFault::OfLine(LineCause::BadLine).into());
        };
        match order {
            Order::Nothing => Ok(sent.keep(&None)?),
            Order::Send(sending) => self.send(sending, before, sent, out),
            Order::Attach { .. } | Order::Detach { .. } | Order::Feed { .. } | Order::Show => {
                Err(LineFault::OfLine(LineCause::NotLive).into())
            }
        }
    }

    // Sends what a line says, and prints the reply.
    fn send<W: ByteOut>(
        &mut self,
        sending: Sending<'_>,
        before: u64,
        sent: &mut SentRecords,
        out: &mut W,
    ) -> Result<(), Stop> {
        let alloc = self.alloc;
        let (addr, moment, exchange) = match sending {
            Sending::Call {
                addr,
                moment,
                bytes,
            } => {
                let call = bytes_of(alloc, bytes)?;
                (addr, moment, self.connection(addr)?.exchange(call)?)
            }
            Sending::Ask {
                addr,
                moment,
                words,
            } => (addr, moment, self.ask(addr, words, before)?),
            Sending::Again { line, moment, addr } => {
                let record = sent.again(line, moment, addr)?;
                let SentRecord {
                    addr,
                    moment,
                    bytes,
                } = record;
                (addr, moment, self.connection(addr)?.exchange(bytes)?)
            }
        };
        let Exchange { call, reply } = exchange;
        match reply {
            Some(reply) => self.print(call.as_slice(), reply.as_slice(), out)?,
            None => self.dialer.report_silence(before.saturating_add(1)),
        }
        Ok(sent.keep(&Some(SentRecord {
            addr,
            moment,
            bytes: call,
        }))?)
    }

    // Asks what words ask for, before whose line so many stand. What was sent last, and the reply to it.
    fn ask(&mut self, addr: Addr, words: Words<'_>, before: u64) -> Result<Exchange, Stop> {
        let alloc = self.alloc;
        let ask = match Ask::read(words) {
            Ok(ask) => ask,
            Err(fault) => return Err(LineFault::of_ask(fault).into()),
        };
        let xid = u32::try_from(before.saturating_add(1)).unwrap_or(u32::MAX);
        let caller = Caller {
            alloc,
            xid: ask.xid.unwrap_or(xid),
            cred: &ask.cred,
        };
        let connection = self.connection(addr)?;
        match call_of(connection, caller, &ask) {
            Ok(Sought::Found(call)) => {
                let mut bytes = Vec::new(alloc);
                bytes.extend_from_slice(call.bytes())?;
                Ok(connection.exchange(bytes)?)
            }
            Ok(Sought::Failed(exchange)) => Ok(exchange),
            Err(SeekFault::Call(fault)) => {
                Err(LineFault::of_ask(fault_of(fault, ask.xid.is_some())).into())
            }
            Err(SeekFault::Network(error)) => Err(error.into()),
        }
    }

    // The connection for an address.
    fn connection(&mut self, addr: Addr) -> Result<&mut Connection<D::Stream>, Stop> {
        let place = match self.connections.iter().position(|(one, _)| *one == addr) {
            Some(place) => place,
            None => {
                let connection = Connection::new(self.alloc, self.dialer.dial()?);
                self.connections
                    .push((addr, connection))
                    .map_err(AllocError::from)?;
                self.connections.len().saturating_sub(1)
            }
        };
        match self.connections.get_mut(place) {
            Some((_, connection)) => Ok(connection),
            None => Err(Stop::Line(LineFault::OfRun(RunFault::Memory))),
        }
    }

    // Prints a reply, and what it says to its call where that is asked for.
    fn print<W: ByteOut>(
        &mut self,
        call: &[u8],
        reply: &[u8],
        out: &mut W,
    ) -> Result<(), RunFault> {
        self.printer.bytes(out, "reply ", reply)?;
        if self.is_decoded {
            self.printer.words(out, call, reply)?;
        }
        Ok(())
    }
}

// The record of a call, once the files that it is on are found.
fn call_of<S: Read + Write + Drop>(
    connection: &mut Connection<S>,
    caller: Caller<'_>,
    ask: &Ask<'_>,
) -> Result<Sought<Output>, SeekFault> {
    let (cred, path) = (&ask.cred, ask.path);
    match ask.request {
        Request::File(request) => match connection.file(cred, path, Part::Path)? {
            Sought::Found(file) => {
                Ok(Sought::Found(caller.file(short_handle(file.as_slice()), request)?))
            }
            Sought::Failed(exchange) => Ok(Sought::Failed(exchange)),
        },
        Request::Name(request) => match connection.place(cred, path, Part::Path)? {
            Sought::Found(place) => {
                Ok(Sought::Found(caller.name(place.lent(Part::Path)?, request)?))
            }
            Sought::Failed(exchange) => Ok(Sought::Failed(exchange)),
        },
        Request::Rename(to) => rename(connection, caller, ask, to),
        Request::Link(name) => link(connection, caller, ask, name),
        Request::Mount => Ok(Sought::Found(caller.volume(MountProcedure::Mount, path)?)),
        Request::Unmount => Ok(Sought::Found(caller.volume(MountProcedure::Unmount, path)?)),
    }
}

// A RENAME to a path.
fn rename<S: Read + Write + Drop>(
    connection: &mut Connection<S>,
    caller: Caller<'_>,
    ask: &Ask<'_>,
    to: &[u8],
) -> Result<Sought<Output>, SeekFault> {
    let from = match connection.place(&ask.cred, ask.path, Part::Path)? {
        Sought::Found(place) => place,
        Sought::Failed(exchange) => return Ok(Sought::Failed(exchange)),
    };
    match connection.place(&ask.cred, to, Part::AfterPath)? {
        Sought::Found(to) => {
            let (from, to) = (from.lent(Part::Path)?, to.lent(Part::AfterPath)?);
            Ok(Sought::Found(caller.rename(from, to)?))
        }
        Sought::Failed(exchange) => Ok(Sought::Failed(exchange)),
    }
}

// A LINK under a path.
fn link<S: Read + Write + Drop>(
    connection: &mut Connection<S>,
    caller: Caller<'_>,
    ask: &Ask<'_>,
    name: &[u8],
) -> Result<Sought<Output>, SeekFault> {
    let file = match connection.file(&ask.cred, ask.path, Part::Path)? {
        Sought::Found(file) => file,
        Sought::Failed(exchange) => return Ok(Sought::Failed(exchange)),
    };
    match connection.place(&ask.cred, name, Part::AfterPath)? {
        Sought::Found(to) => {
            let to = to.lent(Part::AfterPath)?;
            Ok(Sought::Found(caller.link(short_handle(file.as_slice()), to)?))
        }
        Sought::Failed(exchange) => Ok(Sought::Failed(exchange)),
    }
}

// The bytes that words say in hexadecimal digits. A handle by the number of its file is known to a server alone.
fn bytes_of(alloc: Global, words: Words<'_>) -> Result<Vec<u8>, LineFault> {
    let mut bytes = Vec::new(alloc);
    let mut left = words;
    while let Some(word) = left.next() {
        if word.first() == Some(&b'@') {
            return Err(LineFault::OfLine(LineCause::NoHandle));
        }
        push_bytes(alloc, &mut bytes, word)?;
    }
    Ok(bytes)
}
