//! Cached replies alone: a record that is looked for in vain, the place that it takes, and its reply.

use crate::records::number;
use nfs_exports::addr::Addr;
use nfs_reply_cache::reply_cache::{MAX_KEPT_BYTES, ReplyCache};
use std::alloc::Global;
use std::io;
use std::rt::Clock;
use std::time::Instant;

const ADDR: Addr = Addr(0x0a00_0001);

// The reply to a SETATTR.
const REPLY: [u8; 144] = [1; 144];

/// Keeps a few replies, and prints how many of the records were found again.
pub(crate) fn fixed<R: Print + AllocGlobal>(rt: &R) -> io::Result<()> {
    let mut kept = ReplyCache::new(rt.alloc(), 2)?;
    let mut found = 0u64;
    for xid in [1u8, 2, 1, 3, 2, 1] {
        if once(&mut kept, &[xid; 8]) {
            found = found.saturating_add(1);
        }
    }
    println!(rt; "kept {found} again")
}

/// Prints the nanoseconds of a new record of so many bytes, in tenths, the least of five runs.
pub(crate) fn measure<R: Clock + Print + AllocGlobal>(rt: &R, len: usize) -> io::Result<()> {
    let mut kept = ReplyCache::new(rt.alloc(), 128)?;
    let mut record = record_of(rt.alloc(), len)?;
    let least = least(rt, &mut kept, record.as_mut_slice())?;
    println!(rt; "kept-{len} {}.{}", least / 10, least % 10)
}

fn least<R: Clock>(rt: &R, kept: &mut ReplyCache, record: &mut [u8]) -> io::Result<u128> {
    let rounds = if record.len() < 65_536 {
        1_000_000
    } else {
        50_000
    };
    let mut least = u128::MAX;
    for _ in 0..5u8 {
        least = least.min(time(rt, kept, record, rounds)?);
    }
    Ok(least)
}

fn record_of(alloc: Global, len: usize) -> io::Result<Vec<u8>> {
    let mut record = Vec::new(alloc);
    record.resize(len, 7)?;
    Ok(record)
}

// The nanoseconds of a record, in tenths.
fn time<R: Clock>(
    rt: &R,
    kept: &mut ReplyCache,
    record: &mut [u8],
    rounds: u32,
) -> io::Result<u128> {
    let start = Instant::now(rt)?;
    for xid in 0..rounds {
        number(record, xid);
        once(kept, record);
    }
    let time = start.elapsed(rt)?.as_nanos();
    Ok(time.saturating_mul(10) / u128::from(rounds.max(1)))
}

// Whether the record's reply was kept; else it is kept now.
fn once(kept: &mut ReplyCache, record: &[u8]) -> bool {
    if kept.find(ADDR, record) {
        return true;
    }
    if let Ok(place) = kept.prepare(ADDR, record) {
        kept.keep(place, &REPLY[..REPLY.len().min(MAX_KEPT_BYTES)]);
    }
    false
}
