//! `nfs3d replay --port`: a script, played against a running server.

use nfs_command_line::invocation::Replay;
use nfs_replay::live::{Dialer, LiveFault, play};
use nfs_source::diagnostic::Diagnostic;
use nfs_source::fault::Fault;
use nfs_source::output::fault_of;
use nfs_source::source::Source;
use nfs_xdr::device::Device;
use std::alloc::{AllocError, Global};
use std::io::{self, BufWriter, Write};
use std::net::{IpAddr, Ipv4Addr, Net, SocketAddr, TcpStream};
use std::process::ExitCode;
use std::rt::Files;
use std::time::Duration;

// For how many seconds a reply is waited for.
const PATIENCE: u64 = 10;

// How much output is written at once.
const RUN_BYTES: usize = 65_536;

// A server at an address, and the name of the script that is played against it.
#[derive(Drop)]
struct ServerAt<'a, R> {
    rt: &'a R,
    address: SocketAddr,
    script: &'a str,
}

impl<R: Eprint + Net<Stream = TcpStream>> Dialer for ServerAt<'_, R> {
    type Stream = TcpStream;

    fn dial(&self) -> io::Result<TcpStream> {
        let stream = TcpStream::connect(self.rt, self.address)?;
        stream.set_nodelay(true)?;
        stream.set_read_timeout(Some(Duration::from_secs(PATIENCE)))?;
        Ok(stream)
    }

    fn report_silence(&self, line: u64) {
        let script = self.script;
        let _ = eprintln!(self.rt; "warning: {script}:{line}: no reply within {PATIENCE} seconds");
    }
}

/// Plays a script against the server at this port, and prints the replies, and a warning on standard error for each line
/// to which none comes within 10 seconds. `CannotRead` and `TooLong` where the script
/// can't be read, `Script` with its first faulty line, `Network` where the server can't be reached or doesn't answer as
/// one, `Write` and `Closed` where the output fails, `Memory`.
pub fn replay_live<R: Files + Input + Print + Eprint + Net<Stream = TcpStream>>(
    rt: &R,
    alloc: Global,
    words: Replay<'_, '_>,
    port: u16,
) -> Result<ExitCode, Diagnostic> {
    let script = Source::read(rt, alloc, words.lone_script())?;
    let host = words.host().parse::<IpAddr>();
    let host = host.unwrap_or(IpAddr::V4(Ipv4Addr::LOCALHOST));
    let server = ServerAt {
        rt,
        address: SocketAddr::new(host, port),
        script: words.lone_script(),
    };
    let Ok(lines) = BufWriter::with_capacity(alloc, RUN_BYTES, io::writer(rt)) else {
        return Err(AllocError.into());
    };
    let mut out = Device::new(lines);
    let is_decoded = words.is_decoded();
    let played = play(alloc, &server, script.text.as_slice(), is_decoded, &mut out);
    if let Err(error) = out.into_inner().flush() {
        return Err(fault_of(error).into());
    }
    match played {
        Ok(()) => Ok(ExitCode::SUCCESS),
        Err(LiveFault::Script(fault)) => Err(Diagnostic::of_script(alloc, fault, &script)),
        Err(LiveFault::Network(error)) => Err(Fault::Network {
            address: server.address,
            error,
        }
        .into()),
    }
}
