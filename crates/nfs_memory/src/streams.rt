//! Framers and connections without memory for a record.
use crate::ROUNDS;
use crate::described::server;
use ballast::Ballast;
use nfs_attrs::moment::Moment;
use nfs_exports::addr::Addr;
use nfs_rpc::framer::{Fed, FrameFault, Framer};
use nfs_server::connection::MAX_RECORD_BYTES;
use nfs_server::session_fault::SessionFault;
use nfs_server::sessions::Sessions;
use nfs_xdr::device::Device;
use std::alloc::{AllocError, Global};
use std::test::Fail;

// The header of a record of 4,096 bytes, and the first of them.
const BEGUN: [u8; 5] = [0x80, 0, 0x10, 0, b'a'];

const NOW: Moment = Moment {
    seconds: 100,
    nanos: 0,
};

// What a new framer answers to the beginning of a record, and then to no bytes.
fn framed(alloc: Global) -> (Result<Fed, FrameFault>, Result<Fed, FrameFault>) {
    let mut framer = Framer::new(alloc, MAX_RECORD_BYTES);
    let first = framer.feed(&BEGUN);
    (first, framer.feed(b""))
}

// How often a framer failed, for good, until there was memory for the record.
fn framers(alloc: Global) -> Result<Option<u32>, AllocError> {
    let mut ballast = Ballast::new(alloc)?;
    for refused in 0..ROUNDS {
        match framed(alloc) {
            (Ok(fed), Ok(_)) if fed.used == BEGUN.len() => return Ok(Some(refused)),
            (Err(FrameFault::Memory), Err(FrameFault::Failed)) => {}
            _ => return Ok(None),
        }
        if !ballast.lighten() {
            break;
        }
    }
    Ok(None)
}

#[test]
fn a_framer_without_memory_fails_for_good(rt: HostRuntime) -> Result<(), Fail> {
    let refused = framers(rt.alloc())?;
    assert!(rt; refused.is_some_and(|count| count > 0));
    Ok(())
}

// The header of the longest record that a connection takes, and the first of its bytes.
const LONGEST: [u8; 5] = [0x80, 0x04, 0, 0, b'a'];

const PEER: Addr = Addr(0x0a00_0001);

fn feed(alloc: Global, sessions: &mut Sessions, chunk: &[u8]) -> Result<u64, SessionFault> {
    let mut replies = Device::new(Vec::new(alloc));
    let mut audit = Device::new(Vec::new(alloc));
    sessions.feed(1, NOW, chunk, &mut replies, &mut audit)
}

// What became of a new connection at the beginning of a record.
#[derive(Clone, Copy)]
enum Outcome {
    NotAttached,
    Ended,
    Fed,
}

// Attaches a connection and begins a record on it; it is taken away again.
fn attached(alloc: Global, sessions: &mut Sessions) -> Option<Outcome> {
    if let Err(fault) = sessions.attach(1, PEER) {
        let is_absent = sessions.detach(1) == Err(SessionFault::UnknownConnection);
        return (fault == SessionFault::Memory && is_absent).then_some(Outcome::NotAttached);
    }
    let first = feed(alloc, sessions, &LONGEST);
    let then = feed(alloc, sessions, b"");
    sessions.detach(1).ok()?;
    match (first, then) {
        (Ok(0), Ok(0)) => Some(Outcome::Fed),
        (Err(SessionFault::Memory), Err(SessionFault::Ended)) => Some(Outcome::Ended),
        _ => None,
    }
}

// Whether it was first refused to attach a connection, then the connection ended, and then there
// was memory for both.
fn connections(alloc: Global) -> Result<bool, AllocError> {
    let server = server(alloc)?;
    let mut sessions = Sessions::new(alloc, server)?;
    let mut ballast = Ballast::new(alloc)?;
    Ok(both_wanted(alloc, &mut sessions, &mut ballast))
}

// The same of connections that are lent.
fn both_wanted(alloc: Global, sessions: &mut Sessions, ballast: &mut Ballast) -> bool {
    let mut refused = false;
    let mut ended = false;
    for _ in 0..ROUNDS {
        match attached(alloc, sessions) {
            Some(Outcome::NotAttached) if !ended => refused = true,
            Some(Outcome::Ended) => ended = true,
            Some(Outcome::Fed) => return refused && ended,
            _ => return false,
        }
        if !ballast.lighten() {
            break;
        }
    }
    false
}

#[test]
fn a_connection_without_memory_is_refused_or_ends(rt: HostRuntime) -> Result<(), Fail> {
    assert!(rt; connections(rt.alloc())?);
    Ok(())
}
