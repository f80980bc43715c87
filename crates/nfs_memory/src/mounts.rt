//! Each growth of the mount list refused in turn.
use crate::ROUNDS;
use crate::calls::{SUCCESS, is_refused};
use crate::described::server;
use crate::tree::snapshot_of;
use ballast::Ballast;
use nfs_args::program::MOUNT_PROGRAM;
use nfs_attrs::moment::Moment;
use nfs_exports::addr::Addr;
use nfs_server::event::Event;
use nfs_server::reply_buf::ReplyBuf;
use nfs_server::server::Server;
use std::alloc::{AllocError, Global};
use std::test::Fail;

// MNT of the volume, and DUMP, with the number 42 and without a credential.
const MNT: &[u8] = b"\0\0\0\x2a\0\0\0\0\0\0\0\x02\0\x01\x86\xa5\0\0\0\x03\0\0\0\x01\
    \0\0\0\0\0\0\0\0\0\0\0\0\0\0\0\0\0\0\0\x02/a\0\0";

const DUMP: &[u8] = b"\0\0\0\x2a\0\0\0\0\0\0\0\x02\0\x01\x86\xa5\0\0\0\x03\0\0\0\x02\
    \0\0\0\0\0\0\0\0\0\0\0\0\0\0\0\0";

// What stands before the list in a reply to DUMP.
const DUMPED: &[u8] = b"\0\0\0\x2a\0\0\0\x01\0\0\0\0\0\0\0\0\0\0\0\0\0\0\0\0";

// How many bytes of a DUMP are those of a client whose address has 8 letters.
const CLIENT_BYTES: usize = 24;

const HOST: Addr = Addr(0x0a00_0001);

fn event(addr: Addr, bytes: &[u8]) -> Event<'_> {
    Event {
        addr,
        moment: Moment {
            seconds: 100,
            nanos: 0,
        },
        bytes,
    }
}

// A server of whose volume so many other hosts are clients.
fn server_of(alloc: Global, reply: &mut ReplyBuf, clients: u8) -> Result<Server, AllocError> {
    let mut server = server(alloc)?;
    for client in 0..clients {
        let addr = Addr(0x0a00_0080 | u32::from(client));
        server.handle(event(addr, MNT), reply);
    }
    Ok(server)
}

// The mount list, as DUMP reports it.
fn dumped(alloc: Global, server: &mut Server, reply: &mut ReplyBuf) -> Result<Vec<u8>, AllocError> {
    server.handle(event(HOST, DUMP), reply);
    let mut list = Vec::new(alloc);
    list.extend_from_slice(reply.bytes())?;
    Ok(list)
}

// Whether the mount list is reported by so many bytes, and these first.
fn reports(server: &mut Server, reply: &mut ReplyBuf, len: usize, first: &[u8]) -> bool {
    server.handle(event(HOST, DUMP), reply);
    reply.bytes().len() == len && reply.bytes().starts_with(first)
}

// How often MNT beside so many clients was refused until there was memory; none where it was refused
// and had changed the tree or the list, or was denied, or the client isn't there in the end.
fn refusals(alloc: Global, clients: u8) -> Result<Option<u32>, AllocError> {
    let mut reply = ReplyBuf::new(alloc)?;
    let mut server = server_of(alloc, &mut reply, clients)?;
    let list = dumped(alloc, &mut server, &mut reply)?;
    refusals_of(alloc, &mut server, &mut reply, list.as_slice())
}

// The same of a server that is lent, with its list.
fn refusals_of(
    alloc: Global,
    server: &mut Server,
    reply: &mut ReplyBuf,
    list: &[u8],
) -> Result<Option<u32>, AllocError> {
    let before = snapshot_of(server.tree());
    let mut ballast = Ballast::new(alloc)?;
    for refused in 0..ROUNDS {
        server.handle(event(HOST, MNT), reply);
        if !is_refused(server, reply, HOST, MOUNT_PROGRAM, 1) {
            let done = reply.bytes().starts_with(SUCCESS) && server.last_audit().is_none();
            let longer = reports(server, reply, list.len() + CLIENT_BYTES, DUMPED);
            return Ok((done && longer).then_some(refused));
        }
        let same = reports(server, reply, list.len(), list);
        if !same || snapshot_of(server.tree()) != before || !ballast.lighten() {
            break;
        }
    }
    Ok(None)
}

// Whether MNT was refused, and then done, beside no other client; and done beside each number of them
// below this one, of which it was refused beside one at least.
fn clients_are_refused_first(alloc: Global, most: u8) -> Result<bool, AllocError> {
    let mut later = false;
    for clients in 1..most {
        match refusals(alloc, clients)? {
            Some(refused) => later = later || refused > 0,
            None => return Ok(false),
        }
    }
    Ok(later && refusals(alloc, 0)?.is_some_and(|count| count > 0))
}

#[test]
fn refused_clients_are_not_on_the_list(rt: HostRuntime) -> Result<(), Fail> {
    assert!(rt; clients_are_refused_first(rt.alloc(), 16)?);
    Ok(())
}
