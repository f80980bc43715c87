//! Each growth of a call that changes the tree refused in turn.
use crate::ROUNDS;
use crate::described::server;
use crate::tree::snapshot_of;
use ballast::Ballast;
use nfs_args::program::NFS_PROGRAM;
use nfs_attrs::moment::Moment;
use nfs_exports::addr::Addr;
use nfs_server::audit_line::{AuditLine, DenialReason};
use nfs_server::event::Event;
use nfs_server::reply_buf::ReplyBuf;
use nfs_server::server::Server;
use std::alloc::{AllocError, Global};
use std::test::Fail;

// A call of user 1 with the number 42, but for its procedure and its arguments.
const HEAD: &[u8] = b"\0\0\0\x2a\0\0\0\0\0\0\0\x02\0\x01\x86\xa3\0\0\0\x03";

pub(crate) const CREDENTIAL: &[u8] =
    b"\0\0\0\x01\0\0\0\x14\0\0\0\0\0\0\0\0\0\0\0\x01\0\0\0\x01\0\0\0\0\0\0\0\0\0\0\0\0";

// Its reply where there is no memory.
const SYSTEM_ERR: &[u8] = b"\0\0\0\x2a\0\0\0\x01\0\0\0\0\0\0\0\0\0\0\0\0\0\0\0\x05";

// What stands between that and a status, of a call that is done.
pub(crate) const SUCCESS: &[u8] = b"\0\0\0\x2a\0\0\0\x01\0\0\0\0\0\0\0\0\0\0\0\0\0\0\0\0\0\0\0\0";

pub(crate) const DIRECTORY: &[u8] =
    b"\0\0\0\x18NFS3\x01\x02\x03\x04\x05\x06\x07\x08\0\0\0\x01\0\0\0\0\0\0\0\x02";

pub(crate) const FILE: &[u8] =
    b"\0\0\0\x18NFS3\x01\x02\x03\x04\x05\x06\x07\x08\0\0\0\x02\0\0\0\0\0\0\0\x03";

// A name that is too long for its row, so that it takes memory of its own.
const NEW_NAME: &[u8] = b"\0\0\0\x24a name that takes more than 30 bytes";

pub(crate) const NO_SETTINGS: &[u8] = b"\0\0\0\0\0\0\0\0\0\0\0\0\0\0\0\0\0\0\0\0\0\0\0\0";

const SIZE_OF_1000: &[u8] =
    b"\0\0\0\0\0\0\0\0\0\0\0\0\0\0\0\x01\0\0\0\0\0\0\x03\xe8\0\0\0\0\0\0\0\0";

const MODE_OF_0700: &[u8] = b"\0\0\0\x01\0\0\x01\xc0\0\0\0\0\0\0\0\0\0\0\0\0\0\0\0\0\0\0\0\0";

// Procedures that may take memory, for the tree or for a place among the cached replies, each with its
// arguments in parts: SETATTR of a mode and of a size, WRITE after the end, CREATE, MKDIR, SYMLINK,
// REMOVE, RMDIR, RENAME and LINK.
const CALLS: [(u32, [&[u8]; 4]); 10] = [
    (2, [FILE, MODE_OF_0700, b"\0\0\0\0", b""]),
    (2, [FILE, SIZE_OF_1000, b"\0\0\0\0", b""]),
    (
        7,
        [
            FILE,
            b"\0\0\0\0\0\0\0\x64\0\0\0\x03\0\0\0\x02",
            b"\0\0\0\x03end\0",
            b"",
        ],
    ),
    (8, [DIRECTORY, NEW_NAME, b"\0\0\0\x01", SIZE_OF_1000]),
    (9, [DIRECTORY, NEW_NAME, NO_SETTINGS, b""]),
    (10, [DIRECTORY, NEW_NAME, NO_SETTINGS, b"\0\0\0\x02to\0\0"]),
    (12, [DIRECTORY, b"\0\0\0\x01l\0\0\0", b"", b""]),
    (13, [DIRECTORY, b"\0\0\0\x01e\0\0\0", b"", b""]),
    (14, [DIRECTORY, b"\0\0\0\x01x\0\0\0", DIRECTORY, NEW_NAME]),
    (15, [FILE, DIRECTORY, NEW_NAME, b""]),
];

pub(crate) fn record(
    alloc: Global,
    procedure: u32,
    args: &[&[u8]; 4],
) -> Result<Vec<u8>, AllocError> {
    let mut record = Vec::new(alloc);
    record.extend_from_slice(HEAD)?;
    record.extend_from_slice(&procedure.to_be_bytes())?;
    record.extend_from_slice(CREDENTIAL)?;
    for part in args {
        record.extend_from_slice(part)?;
    }
    Ok(record)
}

// Whether the last call was refused for want of memory, in its reply and its line.
pub(crate) fn is_refused(
    server: &Server,
    reply: &ReplyBuf,
    addr: Addr,
    program: u32,
    procedure: u32,
) -> bool {
    let line = AuditLine {
        addr,
        xid: 42,
        program,
        procedure,
        reason: DenialReason::Memory,
    };
    reply.bytes() == SYSTEM_ERR && server.last_audit() == Some(line)
}

// Whether a call that was done is answered by the same bytes where there is no memory at all.
fn is_answered_again(
    alloc: Global,
    server: &mut Server,
    event: Event<'_>,
    reply: &mut ReplyBuf,
) -> Result<bool, AllocError> {
    let first = reply.bytes().to_vec(alloc)?;
    let _ballast = Ballast::new(alloc)?;
    server.handle(event, reply);
    Ok(first.starts_with(SUCCESS) && reply.bytes() == first.as_slice())
}

// How often the call was refused until there was memory; none where it was refused and had changed
// what is seen, was denied, or was answered otherwise when it was repeated without memory.
fn refusals(alloc: Global, procedure: u32, args: &[&[u8]; 4]) -> Result<Option<u32>, AllocError> {
    let mut reply = ReplyBuf::new(alloc)?;
    let record = record(alloc, procedure, args)?;
    let event = Event {
        addr: Addr(0x0a00_0001),
        moment: Moment {
            seconds: 100,
            nanos: 0,
        },
        bytes: record.as_slice(),
    };
    let mut server = server(alloc)?;
    refusals_of(alloc, &mut server, event, procedure, &mut reply)
}

// The same of a server that is lent, to which the call comes.
fn refusals_of(
    alloc: Global,
    server: &mut Server,
    event: Event<'_>,
    procedure: u32,
    reply: &mut ReplyBuf,
) -> Result<Option<u32>, AllocError> {
    let Some(refused) = refused_first(alloc, server, event, procedure, reply)? else {
        return Ok(None);
    };
    let again = is_answered_again(alloc, server, event, reply)?;
    Ok(again.then_some(refused))
}

// How often the call was refused, which changed nothing that is seen, until it wasn't.
fn refused_first(
    alloc: Global,
    server: &mut Server,
    event: Event<'_>,
    procedure: u32,
    reply: &mut ReplyBuf,
) -> Result<Option<u32>, AllocError> {
    let before = snapshot_of(server.tree());
    let mut ballast = Ballast::new(alloc)?;
    for refused in 0..ROUNDS {
        server.handle(event, reply);
        if !is_refused(server, reply, event.addr, NFS_PROGRAM, procedure) {
            return Ok(Some(refused));
        }
        if snapshot_of(server.tree()) != before || !ballast.lighten() {
            break;
        }
    }
    Ok(None)
}

// Whether each call of the table was refused at least once, and then done.
fn all_are_refused_first(alloc: Global, calls: &[(u32, [&[u8]; 4])]) -> Result<bool, AllocError> {
    for (procedure, args) in calls {
        if !refusals(alloc, *procedure, args)?.is_some_and(|count| count > 0) {
            return Ok(false);
        }
    }
    Ok(true)
}

#[test]
fn refused_calls_leave_the_tree(rt: HostRuntime) -> Result<(), Fail> {
    assert!(rt; all_are_refused_first(rt.alloc(), &CALLS)?);
    Ok(())
}
