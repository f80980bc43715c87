//! A call that a server sends to itself.
use crate::clock::SystemClock;
use crate::service_fault::ServiceFault;
use hex::encode;
use log::Log;
use nfs_exports::addr::Addr;
use nfs_loop::addresses::addr_of;
use nfs_server::serve_fault::ServeFault;
use nfs_server::server::Server;
use nfs_server::stream::serve_stream;
use nfs_xdr::device::{ByteOut, Device, write_all};
use std::alloc::Global;
use std::io::{self, ErrorKind, Read, Write};
use std::net::{Net, Shutdown, TcpListener, TcpStream};
use std::time::Clock;

// NULL of NFS as a record of one fragment: its mark, then xid 42, a call, RPC version 2, program
// 100003, version 3, procedure 0, no credential and no verifier (RFC 5531, section 9).
const NULL_CALL: [u8; 44] = [
    0x80, 0, 0, 0x28, 0, 0, 0, 42, 0, 0, 0, 0, 0, 0, 0, 2, 0, 1, 0x86, 0xa3, 0, 0, 0, 3, 0, 0, 0,
    0, 0, 0, 0, 0, 0, 0, 0, 0, 0, 0, 0, 0, 0, 0, 0, 0,
];

// The most reads of that call.
const TURNS: u32 = 100;

/// Connects to a listener of its own, on a port that the system chooses, sends NULL, and writes the
/// reply with its record mark as a line of hexadecimal digits.
///
/// `Memory` where there is none, `Write` where the line can't be written; `Network` where the network
/// fails, on either side of the connection.
pub fn self_call<R, W>(
    rt: &R,
    alloc: Global,
    server: &mut Server,
    out: &mut W,
) -> Result<(), ServiceFault>
where
    R: Net<Listener = TcpListener, Stream = TcpStream> + Clock + Log,
    W: ByteOut,
{
    let listener = TcpListener::bind(rt, "127.0.0.1:0")?;
    let client = TcpStream::connect(rt, listener.local_addr()?)?;
    (&client).write_all(&NULL_CALL)?;
    client.shutdown(Shutdown::Write)?;
    serve_next(rt, alloc, server, &listener)?;
    let mut reply = Vec::new(alloc);
    (&client).read_to_end(&mut reply)?;
    let mut line = encode(alloc, reply.as_slice())?;
    line.push('\n')?;
    match write_all(out, line.as_bytes()) {
        Ok(()) => Ok(()),
        Err(_) => Err(ServiceFault::Write),
    }
}

// Serves the next connection until it ends.
fn serve_next<R: Clock + Log>(
    rt: &R,
    alloc: Global,
    server: &mut Server,
    listener: &TcpListener,
) -> Result<(), ServiceFault> {
    let (stream, peer) = listener.accept()?;
    stream.set_nodelay(true)?;
    let addr = addr_of(peer).unwrap_or(Addr(0));
    let mut reader = Device::new(&stream);
    let mut writer = Device::new(&stream);
    let mut audit = Device::new(io::sink());
    let mut clock = SystemClock::new(rt);
    match serve_stream(
        alloc,
        server,
        addr,
        &mut reader,
        &mut writer,
        &mut audit,
        &mut clock,
        TURNS,
    ) {
        Ok(_) => Ok(()),
        Err(ServeFault::Memory) => Err(ServiceFault::Memory),
        Err(_) => Err(io::Error::from(ErrorKind::ConnectionAborted).into()),
    }
}
