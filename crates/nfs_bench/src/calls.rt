//! Calls through the server: of NULL, that read, that change the tree, and one that is denied.

use crate::records::{TARGET, Target, first_of, number, second_of, served};
use nfs_attrs::moment::Moment;
use nfs_exports::addr::Addr;
use nfs_server::event::{Event, Handled};
use nfs_server::reply_buf::ReplyBuf;
use nfs_server::server::Server;
use nfs_text::line::Line;
use std::alloc::Global;
use std::io;
use std::rt::Clock;
use std::time::Instant;

// From where most calls come, and from where none is granted.
const GRANTED: Addr = Addr(0x0a00_0001);

const DENIED: Addr = Addr(0x0a00_0301);

/// The measures, in the order in which they are taken.
pub(crate) const MEASURES: [&str; 15] = [
    "null",
    "getattr",
    "lookup-x",
    "read-4096",
    "read-65536",
    "read-131072",
    "access",
    "setattr",
    "setattr-again",
    "create-remove",
    "rename",
    "write-4096",
    "write-65536",
    "write-131072",
    "denied",
];

/// Does each round of calls three times, and prints how many were answered and denied, and the bytes
/// of their replies.
pub(crate) fn fixed<R: Print + AllocGlobal>(rt: &R) -> io::Result<()> {
    for name in &MEASURES {
        let counted = few(rt.alloc(), name)?;
        println!(rt;
            "{name} {} {} {}",
            counted.answered, counted.denied, counted.bytes
        )?;
    }
    Ok(())
}

// What three rounds come to.
fn few(alloc: Global, name: &str) -> io::Result<Counted> {
    let mut asked = asked_for(alloc, name)?;
    let mut counted = Counted::default();
    for xid in 0..3 {
        asked.round(xid, &mut counted);
    }
    Ok(counted)
}

/// Prints the nanoseconds of a round of calls.
pub(crate) fn measure<R: Clock + Print + AllocGlobal>(rt: &R, name: &str) -> io::Result<()> {
    let rounds = if name.ends_with("65536") || name.ends_with("131072") {
        100_000
    } else {
        1_000_000
    };
    let least = least(rt, name, rounds)?;
    println!(rt; "{name} {}.{}", least / 10, least % 10)
}

// The example's server and the calls of a round.
fn asked_for(alloc: Global, name: &str) -> io::Result<Asked> {
    let mut asked = Asked::new(alloc, served(alloc)?)?;
    match asked.set(alloc, &TARGET, name) {
        Ok(()) => Ok(asked),
        Err(error) => Err(error),
    }
}

// The nanoseconds of a round, in tenths, the least of five runs.
fn least<R: Clock + AllocGlobal>(rt: &R, name: &str, rounds: u32) -> io::Result<u128> {
    let mut asked = asked_for(rt.alloc(), name)?;
    least_of(rt, &mut asked, rounds)
}

fn least_of<R: Clock>(rt: &R, asked: &mut Asked, rounds: u32) -> io::Result<u128> {
    let mut least = u128::MAX;
    for _ in 0..5u8 {
        least = least.min(asked.time(rt, rounds)?);
    }
    Ok(least)
}

/// What the calls of some rounds came to.
#[derive(Clone, Copy, Default)]
pub(crate) struct Counted {
    pub(crate) answered: u64,
    pub(crate) denied: u64,
    pub(crate) bytes: u64,
}

/// A server and the calls of a round.
#[derive(Drop)]
pub(crate) struct Asked {
    pub(crate) server: Server,
    reply: ReplyBuf,
    line: Line,
    addr: Addr,
    is_retransmitted: bool,
    pub(crate) first: Vec<u8>,
    pub(crate) second: Option<Vec<u8>>,
}

impl Asked {
    /// A server and no calls.
    pub(crate) fn new(alloc: Global, server: Server) -> io::Result<Asked> {
        let reply = ReplyBuf::new(alloc)?;
        Ok(Asked {
            server,
            reply,
            line: Line::new(),
            addr: GRANTED,
            is_retransmitted: false,
            first: Vec::new(alloc),
            second: None,
        })
    }

    /// Sets the calls of a round.
    pub(crate) fn set(&mut self, alloc: Global, target: &Target, name: &str) -> io::Result<()> {
        self.addr = if name == "denied" { DENIED } else { GRANTED };
        self.is_retransmitted = name == "setattr-again";
        self.first = first_of(alloc, self.server.tree(), target, name)?;
        self.second = second_of(alloc, self.server.tree(), target, name)?;
        Ok(())
    }

    /// The calls of a round, each of a number of its own, as a client gives them, unless they are
    /// repeated.
    pub(crate) fn round(&mut self, round: u32, counted: &mut Counted) {
        let xid = if self.is_retransmitted {
            0
        } else {
            round.wrapping_mul(2)
        };
        number(self.first.as_mut_slice(), xid);
        answer(
            &mut self.server,
            &mut self.reply,
            &mut self.line,
            self.addr,
            self.first.as_slice(),
            counted,
        );
        if let Some(second) = &mut self.second {
            number(second.as_mut_slice(), xid.wrapping_add(1));
            answer(
                &mut self.server,
                &mut self.reply,
                &mut self.line,
                self.addr,
                second.as_slice(),
                counted,
            );
        }
    }

    // The nanoseconds of a round, in tenths.
    fn time<R: Clock>(&mut self, rt: &R, rounds: u32) -> io::Result<u128> {
        let mut counted = Counted::default();
        let start = Instant::now(rt)?;
        for xid in 0..rounds {
            self.round(xid, &mut counted);
        }
        let time = start.elapsed(rt)?.as_nanos();
        Ok(time.saturating_mul(10) / u128::from(rounds.max(1)))
    }
}

// Does a call, and puts its audit line together, if it has one.
fn answer(
    server: &mut Server,
    reply: &mut ReplyBuf,
    line: &mut Line,
    addr: Addr,
    record: &[u8],
    counted: &mut Counted,
) {
    let event = Event {
        addr,
        moment: Moment {
            seconds: 100,
            nanos: 0,
        },
        bytes: record,
    };
    if server.handle(event, reply) == Handled::Answered {
        counted.answered = counted.answered.saturating_add(1);
        counted.bytes = counted.bytes.saturating_add(reply.bytes().len() as u64);
    }
    if let Some(denied) = server.last_audit() {
        denied.put(line);
        counted.denied = counted.denied.saturating_add(1);
    }
}
