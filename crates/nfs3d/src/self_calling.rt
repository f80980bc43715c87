//! A call that a server sends to itself.

use log::Log;
use nfs_journal::file_journal::FileJournal;
use nfs_listening::listening::fault_of;
use nfs_recovery::lending::{ServerUse, lend_tree};
use nfs_server::server::Server;
use nfs_source::diagnostic::Diagnostic;
use nfs_source::fault::Fault;
use nfs_tcp::self_call::self_call;
use nfs_xdr::device::Device;
use std::alloc::Global;
use std::fs::File;
use std::io;
use std::net::{Ipv4Addr, Net, SocketAddr, SocketAddrV4, TcpListener, TcpStream};
use std::process::ExitCode;
use std::rt::Files;
use std::time::Clock;

/// Serves NULL of a description over a connection of its own, and prints the reply.
pub(crate) fn call_self<R>(rt: &R, alloc: Global, name: &str) -> Result<ExitCode, Diagnostic>
where
    R: Files
        + Input
        + Print
        + Eprint
        + Net<Listener = TcpListener, Stream = TcpStream>
        + Clock
        + Log,
{
    let mut own_call = OwnCall { rt, alloc };
    lend_tree(rt, alloc, name, &mut own_call)
}

// A call that a server sends to itself.
#[derive(Drop)]
struct OwnCall<'a, R> {
    rt: &'a R,
    alloc: Global,
}

impl<R> ServerUse<R> for OwnCall<'_, R>
where
    R: Print + Net<Listener = TcpListener, Stream = TcpStream> + Clock + Log,
{
    fn run(
        &mut self,
        server: &mut Server,
        _journal: Option<FileJournal<'_, R, File>>,
    ) -> Result<ExitCode, Diagnostic> {
        call_server(self.rt, self.alloc, server)?;
        Ok(ExitCode::SUCCESS)
    }
}

// Serves NULL over a connection of its own, and prints the reply.
fn call_server<R>(rt: &R, alloc: Global, server: &mut Server) -> Result<(), Fault>
where
    R: Print + Net<Listener = TcpListener, Stream = TcpStream> + Clock + Log,
{
    match self_call(rt, alloc, server, &mut Device::new(io::writer(rt))) {
        Ok(()) => Ok(()),
        Err(fault) => {
            let address = SocketAddr::V4(SocketAddrV4::new(Ipv4Addr::LOCALHOST, 0));
            Err(fault_of(address, fault))
        }
    }
}
