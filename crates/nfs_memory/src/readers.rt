//! Calls that take no memory, where there is none.
use crate::calls::{CREDENTIAL, DIRECTORY, FILE};
use crate::described::server;
use ballast::Ballast;
use nfs_args::program::{MOUNT_PROGRAM as MOUNT, NFS_PROGRAM as NFS};
use nfs_attrs::moment::Moment;
use nfs_exports::addr::Addr;
use nfs_server::event::Event;
use nfs_server::reply_buf::ReplyBuf;
use nfs_server::server::Server;
use std::alloc::{AllocError, Global};
use std::test::Fail;

// From where calls are granted, and from where they are denied.
const ADDRESSES: [Addr; 2] = [Addr(0x0a00_0001), Addr(0x0a00_0301)];

const LINK: &[u8] = b"\0\0\0\x18NFS3\x01\x02\x03\x04\x05\x06\x07\x08\0\0\0\x03\0\0\0\0\0\0\0\x04";

const NAME: &[u8] = b"\0\0\0\x01x\0\0\0";

const PATH: &[u8] = b"\0\0\0\x02/a\0\0";

// From the first byte on, at most 100.
const RANGE: &[u8] = b"\0\0\0\0\0\0\0\0\0\0\0\x64";

// From the first entry on: cookie, verifier and how many bytes, once or twice.
const PAGE: &[u8] = b"\0\0\0\0\0\0\0\0\0\0\0\0\0\0\0\0\0\0\x04\0\0\0\x04\0";

// The accept_stat of a reply where there is no memory.
const SYSTEM_ERR: &[u8] = b"\0\0\0\x05";

// NULL, GETATTR, LOOKUP, ACCESS, READLINK, READ, MKNOD, READDIR, READDIRPLUS, FSSTAT, FSINFO, PATHCONF and
// COMMIT; NULL, MNT of a pair that is on the list, DUMP, EXPORT, UMNT and UMNTALL.
const CALLS: [(u32, u32, [&[u8]; 2]); 19] = [
    (NFS, 0, [b"", b""]),
    (NFS, 1, [FILE, b""]),
    (NFS, 3, [DIRECTORY, NAME]),
    (NFS, 4, [FILE, b"\0\0\0\x3f"]),
    (NFS, 5, [LINK, b""]),
    (NFS, 6, [FILE, RANGE]),
    (NFS, 11, [DIRECTORY, b"\0\0\0\x01p\0\0\0\0\0\0\x01"]),
    (NFS, 16, [DIRECTORY, PAGE]),
    (NFS, 17, [DIRECTORY, PAGE]),
    (NFS, 18, [DIRECTORY, b""]),
    (NFS, 19, [DIRECTORY, b""]),
    (NFS, 20, [DIRECTORY, b""]),
    (NFS, 21, [FILE, RANGE]),
    (MOUNT, 0, [b"", b""]),
    (MOUNT, 1, [PATH, b""]),
    (MOUNT, 2, [b"", b""]),
    (MOUNT, 5, [b"", b""]),
    (MOUNT, 3, [PATH, b""]),
    (MOUNT, 4, [b"", b""]),
];

// The call of a number with some arguments, by user 1.
fn record(
    alloc: Global,
    program: u32,
    procedure: u32,
    args: &[&[u8]; 2],
) -> Result<Vec<u8>, AllocError> {
    let mut record = Vec::new(alloc);
    record.extend_from_slice(b"\0\0\0\x2a\0\0\0\0\0\0\0\x02")?;
    record.extend_from_slice(&program.to_be_bytes())?;
    record.extend_from_slice(b"\0\0\0\x03")?;
    record.extend_from_slice(&procedure.to_be_bytes())?;
    record.extend_from_slice(CREDENTIAL)?;
    record.extend_from_slice(args[0])?;
    record.extend_from_slice(args[1])?;
    Ok(record)
}

// Whether a call is answered, and by the same bytes where there is no memory as where there is some.
fn is_answered_alike(
    alloc: Global,
    server: &mut Server,
    reply: &mut ReplyBuf,
    event: Event<'_>,
) -> Result<bool, AllocError> {
    server.handle(event, reply);
    let first = reply.bytes().to_vec(alloc)?;
    let _ballast = Ballast::new(alloc)?;
    server.handle(event, reply);
    let is_refused = reply.bytes().get(20..24) == Some(SYSTEM_ERR);
    Ok(!first.is_empty() && !is_refused && reply.bytes() == first.as_slice())
}

// Whether each of some calls from an address is answered where there is no memory as where there is.
fn are_alike(
    alloc: Global,
    addr: Addr,
    calls: &[(u32, u32, [&[u8]; 2])],
) -> Result<bool, AllocError> {
    let mut reply = ReplyBuf::new(alloc)?;
    let mut server = server(alloc)?;
    are_answered_alike(alloc, &mut server, &mut reply, addr, calls)
}

// The same of a server that is lent, to which the calls come in turn.
fn are_answered_alike(
    alloc: Global,
    server: &mut Server,
    reply: &mut ReplyBuf,
    addr: Addr,
    calls: &[(u32, u32, [&[u8]; 2])],
) -> Result<bool, AllocError> {
    for (program, procedure, args) in calls {
        let record = record(alloc, *program, *procedure, args)?;
        let event = Event {
            addr,
            moment: Moment {
                seconds: 100,
                nanos: 0,
            },
            bytes: record.as_slice(),
        };
        if !is_answered_alike(alloc, server, reply, event)? {
            return Ok(false);
        }
    }
    Ok(true)
}

#[test]
fn granted_calls_that_read_take_no_memory(rt: HostRuntime) -> Result<(), Fail> {
    assert!(rt; are_alike(rt.alloc(), ADDRESSES[0], &CALLS)?);
    Ok(())
}

#[test]
fn denied_calls_that_read_take_no_memory(rt: HostRuntime) -> Result<(), Fail> {
    assert!(rt; are_alike(rt.alloc(), ADDRESSES[1], &CALLS)?);
    Ok(())
}
