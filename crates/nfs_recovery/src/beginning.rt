//! The life of a server, which begins when it starts.

use nfs_lives::opening::open_server;
use nfs_server::server::Server;
use nfs_source::description::Life;
use nfs_source::fault::Fault;
use std::alloc::Global;
use std::time::{Clock, SystemTime, UNIX_EPOCH};

// 2020 began so many microseconds after 1970. A clock that stands before it was never set.
const SET_MICROS: u64 = 1_577_836_800_000_000;

/// A server whose life begins: its handles have the key of the life, and files that clients make have
/// numbers that no earlier life has reached. The faults of `next_number`, and `Memory`.
pub(crate) fn begin<R: Clock + Eprint>(
    rt: &R,
    alloc: Global,
    life: Life,
    cache: usize,
) -> Result<Server, Fault> {
    let next = next_number(rt)?;
    let Life { loaded, key } = life;
    Ok(open_server(alloc, loaded, key, next, cache.clamp(1, 1024))?)
}

/// The least number of files that clients make in a life that begins now: the microseconds since 1970. A clock that was
/// never set is warned of. `NoTime` where there is no clock.
pub(crate) fn next_number<R: Clock + Eprint>(rt: &R) -> Result<u64, Fault> {
    let Some(micros) = micros_now(rt) else {
        return Err(Fault::NoTime);
    };
    if micros < SET_MICROS {
        let _ = eprintln!(rt;
            "nfs3d: warning: the system's clock was never set: handles of files that clients made before a restart may name other files; set the clock before the server starts"
        );
    }
    Ok(micros)
}

// The microseconds since 1970.
fn micros_now<R: Clock>(rt: &R) -> Option<u64> {
    let Ok(now) = SystemTime::now(rt) else {
        return None;
    };
    match now.duration_since(UNIX_EPOCH) {
        Ok(since) => u64::try_from(since.as_micros()).ok(),
        Err(_) => None,
    }
}
