//! Streams and clients over devices and links that fail, and without memory.
ghost use Rattle.std.specs.Prelude.{◌<◌};

use crate::ROUNDS;
use crate::described::server;
use ballast::Ballast;
use nfs_attrs::moment::Moment;
use nfs_exports::addr::Addr;
use nfs_server::moments::Moments;
use nfs_server::serve_fault::ServeFault;
use nfs_server::server::Server;
use nfs_server::stream::{Served, serve_stream};
use nfs_serving::client::Client;
use nfs_serving::turn::{End, Turn};
use nfs_serving::turn_buffers::TurnBuffers;
use nfs_xdr::device::Device;
use rows::stutter::Stutter;
use rows::stutter_link::StutterLink;
use std::alloc::{AllocError, Global};
use std::test::Fail;

// An address that no pattern covers.
const STRANGER: Addr = Addr(0x0a00_0301);

const NOW: Moment = Moment {
    seconds: 100,
    nanos: 0,
};

// NULL with the number 42, GETATTR of file 1 with 43, NULL with 44, and two bytes of a header.
const STREAM: &[u8] =
    b"\x80\0\0\x28\0\0\0\x2a\0\0\0\0\0\0\0\x02\0\x01\x86\xa3\0\0\0\x03\0\0\0\0\0\0\0\0\0\0\0\0\0\0\0\0\0\0\0\0\
    \x80\0\0\x58\0\0\0\x2b\0\0\0\0\0\0\0\x02\0\x01\x86\xa3\0\0\0\x03\0\0\0\x01\
    \0\0\0\x01\0\0\0\x14\0\0\0\0\0\0\0\0\0\0\0\x01\0\0\0\x01\0\0\0\0\0\0\0\0\0\0\0\0\
    \0\0\0\x18NFS3\x01\x02\x03\x04\x05\x06\x07\x08\0\0\0\0\0\0\0\0\0\0\0\x01\
    \x80\0\0\x28\0\0\0\x2c\0\0\0\0\0\0\0\x02\0\x01\x86\xa3\0\0\0\x03\0\0\0\0\0\0\0\0\0\0\0\0\0\0\0\0\0\0\0\0\
    \x80\0";

// Success, status 13, which is NFS3ERR_ACCES, and success.
const REPLIES: &[u8] = b"\x80\0\0\x18\0\0\0\x2a\0\0\0\x01\0\0\0\0\0\0\0\0\0\0\0\0\0\0\0\0\
    \x80\0\0\x1c\0\0\0\x2b\0\0\0\x01\0\0\0\0\0\0\0\0\0\0\0\0\0\0\0\0\0\0\0\x0d\
    \x80\0\0\x18\0\0\0\x2c\0\0\0\x01\0\0\0\0\0\0\0\0\0\0\0\0\0\0\0\0";

const LINE: &[u8] = b"deny addr=10.0.3.1 xid=43 prog=100003 proc=1 uid=- rule=export status=13\n";

// A clock that stands still.
#[derive(Drop)]
struct Still;

impl Moments for Still {
    ghost reports = { λ old moment new. Unit {0} };

    fn now(&mut self) -> Moment {
        NOW
    }
}

// Which device fails.
#[derive(Clone, Copy, PartialEq, Eq)]
enum Failing {
    Reader,
    Writer,
    Audit,
}

impl Failing {
    // The call at which a device fails, where this one fails at its `k`-th.
    fn call(self, device: Failing, k: u32) -> u64
        ensures { 0 < result }
    {
        if self == device && k > 0 {
            u64::from(k)
        } else {
            u64::MAX
        }
    }

    fn fault(self) -> ServeFault {
        match self {
            Failing::Reader => ServeFault::ReadFault,
            Failing::Writer => ServeFault::WriteFault,
            Failing::Audit => ServeFault::AuditFault,
        }
    }
}

// Serves the stream by devices that pass on 5 bytes a call, one of which fails at its `k`-th call.
// Whether the fault came, and the replies and lines broke off there; none where that isn't so.
fn breaks(alloc: Global, server: &mut Server, failing: Failing, k: u32) -> Option<bool> {
    let mut reader = Stutter::new(Device::new(STREAM), 5, failing.call(Failing::Reader, k));
    let mut writer = Stutter::new(
        Device::new(Vec::new(alloc)),
        5,
        failing.call(Failing::Writer, k),
    );
    let mut audit = Stutter::new(
        Device::new(Vec::new(alloc)),
        5,
        failing.call(Failing::Audit, k),
    );
    let done = serve_stream(
        alloc,
        server,
        STRANGER,
        &mut reader,
        &mut writer,
        &mut audit,
        &mut Still,
        1_000,
    );
    let replies = writer.into_inner().into_inner();
    let lines = audit.into_inner().into_inner();
    is_lawful(failing, done, replies.as_slice(), lines.as_slice())
}

// Whether a fault came that is due; none where what was written isn't what it has to be.
fn is_lawful(
    failing: Failing,
    done: Result<Served, ServeFault>,
    replies: &[u8],
    lines: &[u8],
) -> Option<bool> {
    match done {
        Ok(served) => {
            let is_whole = served == Served { calls: 3, rest: 2 }
                && replies == REPLIES
                && lines == LINE;
            is_whole.then_some(false)
        }
        Err(fault) => {
            let is_part = REPLIES.starts_with(replies) && LINE.starts_with(lines);
            (is_part && fault == failing.fault()).then_some(true)
        }
    }
}

// At how many calls the device failed, one after another, until the stream was served whole.
fn broken_streams(alloc: Global, failing: Failing) -> Result<Option<u32>, AllocError> {
    let mut server = server(alloc)?;
    Ok(broken_before(alloc, &mut server, failing))
}

// The same of a server that is lent.
fn broken_before(alloc: Global, server: &mut Server, failing: Failing) -> Option<u32> {
    for k in 1..1_000 {
        match breaks(alloc, server, failing, k) {
            Some(true) => {}
            Some(false) => return Some(k - 1),
            None => return None,
        }
    }
    None
}

// 182 bytes by fives, and the end.
#[test]
fn a_stream_breaks_off_where_it_cannot_be_read(rt: HostRuntime) -> Result<(), Fail> {
    let broken = broken_streams(rt.alloc(), Failing::Reader)?;
    assert!(rt; broken == Some(38));
    Ok(())
}

// 28 bytes, 32 and 28, each reply by fives.
#[test]
fn a_stream_breaks_off_where_its_replies_cannot_be_written(rt: HostRuntime) -> Result<(), Fail> {
    let broken = broken_streams(rt.alloc(), Failing::Writer)?;
    assert!(rt; broken == Some(19));
    Ok(())
}

// 73 bytes by fives.
#[test]
fn a_stream_breaks_off_where_its_lines_cannot_be_written(rt: HostRuntime) -> Result<(), Fail> {
    let broken = broken_streams(rt.alloc(), Failing::Audit)?;
    assert!(rt; broken == Some(15));
    Ok(())
}

// A client whose link passes on 7 bytes at every second call, and fails at its `k`-th call.
fn client(alloc: Global, k: u32) -> Client<StutterLink<'static>> {
    Client::new(
        alloc,
        STRANGER,
        StutterLink::new(alloc, STREAM, 7, u64::from(k).max(1)),
    )
}

// Gives two clients turns one after the other, until both have ended. How they ended.
fn take_turns(
    server: &mut Server,
    room: &mut TurnBuffers,
    first: &mut Client<StutterLink<'_>>,
    second: &mut Client<StutterLink<'_>>,
) -> Option<(End, End)> {
    let mut audit = Device::new(std::io::sink());
    for _ in 0..1_000 {
        let one = first.turn(server, room, NOW, &mut audit, false);
        let other = second.turn(server, room, NOW, &mut audit, false);
        if let (Turn::Ended(one), Turn::Ended(other)) = (one, other) {
            return Some((one, other));
        }
    }
    None
}

// Whether the first client, whose link fails at its `k`-th call, was sent a first part of its replies,
// and the second all of them. None where that isn't so.
fn fails(alloc: Global, server: &mut Server, room: &mut TurnBuffers, k: u32) -> Option<bool> {
    let mut first = client(alloc, k);
    let mut second = client(alloc, u32::MAX);
    let ends = take_turns(server, room, &mut first, &mut second);
    if second.link().sent() != REPLIES || !REPLIES.starts_with(first.link().sent()) {
        return None;
    }
    let is_whole = first.link().sent() == REPLIES;
    match ends {
        Some((End::Closed, End::Closed)) if is_whole => Some(false),
        Some((End::Fault(ServeFault::ReadFault | ServeFault::WriteFault), End::Closed)) => Some(
            true,
        ),
        _ => None,
    }
}

// At how many calls the link failed, one after another, until both clients were served whole.
fn failed_links(alloc: Global) -> Result<Option<u32>, AllocError> {
    let mut room = TurnBuffers::new(alloc)?;
    let mut server = server(alloc)?;
    Ok(failed_before(alloc, &mut server, &mut room))
}

// The same of a server that is lent.
fn failed_before(alloc: Global, server: &mut Server, room: &mut TurnBuffers) -> Option<u32> {
    for k in 1..1_000 {
        match fails(alloc, server, room, k) {
            Some(true) => {}
            Some(false) => return Some(k - 1),
            None => return None,
        }
    }
    None
}

#[test]
fn a_link_that_fails_ends_its_client_alone(rt: HostRuntime) -> Result<(), Fail> {
    let failed = failed_links(rt.alloc())?;
    assert!(rt; failed.is_some_and(|count| count > 50));
    Ok(())
}

// What became of a new client without memory: it ended, or it got all its replies. None where it was
// sent something else.
fn meets(alloc: Global, server: &mut Server, room: &mut TurnBuffers) -> Option<bool> {
    let mut client = client(alloc, u32::MAX);
    let mut audit = Device::new(std::io::sink());
    for _ in 0..1_000 {
        if let Turn::Ended(end) = client.turn(server, room, NOW, &mut audit, false) {
            let sent = client.link().sent();
            return match end {
                End::Closed => (sent == REPLIES).then_some(true),
                End::Fault(_) => REPLIES.starts_with(sent).then_some(false),
            };
        }
    }
    None
}

// How many clients ended without memory, until one got all its replies.
fn poor_clients(alloc: Global) -> Result<Option<u32>, AllocError> {
    let mut room = TurnBuffers::new(alloc)?;
    let mut server = server(alloc)?;
    poor_turns(alloc, &mut server, &mut room)
}

// The same of a server that is lent.
fn poor_turns(
    alloc: Global,
    server: &mut Server,
    room: &mut TurnBuffers,
) -> Result<Option<u32>, AllocError> {
    let mut ballast = Ballast::new(alloc)?;
    for refused in 0..ROUNDS {
        match meets(alloc, server, room) {
            Some(true) => return Ok(Some(refused)),
            Some(false) if ballast.lighten() => {}
            _ => return Ok(None),
        }
    }
    Ok(None)
}

#[test]
fn a_client_without_memory_ends_and_the_server_goes_on(rt: HostRuntime) -> Result<(), Fail> {
    let refused = poor_clients(rt.alloc())?;
    assert!(rt; refused.is_some_and(|count| count > 0));
    Ok(())
}

// How often a stream was refused for want of memory, until it was served.
fn poor_streams(alloc: Global) -> Result<Option<u32>, AllocError> {
    let mut server = server(alloc)?;
    let mut ballast = Ballast::new(alloc)?;
    Ok(poor_before(alloc, &mut server, &mut ballast))
}

// The same of a server that is lent.
fn poor_before(alloc: Global, server: &mut Server, ballast: &mut Ballast) -> Option<u32> {
    for refused in 0..ROUNDS {
        match served(alloc, server) {
            Ok(served) => return (served.calls == 3).then_some(refused),
            Err(ServeFault::Memory) if ballast.lighten() => {}
            Err(_) => return None,
        }
    }
    None
}

// Serves the stream by devices that don't fail.
fn served(alloc: Global, server: &mut Server) -> Result<Served, ServeFault> {
    serve_stream(
        alloc,
        server,
        STRANGER,
        &mut Device::new(STREAM),
        &mut Device::new(std::io::sink()),
        &mut Device::new(std::io::sink()),
        &mut Still,
        1_000,
    )
}

#[test]
fn a_stream_without_memory_is_refused(rt: HostRuntime) -> Result<(), Fail> {
    let refused = poor_streams(rt.alloc())?;
    assert!(rt; refused.is_some_and(|count| count > 0));
    Ok(())
}
