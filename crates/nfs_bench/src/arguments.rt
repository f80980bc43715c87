//! The arguments of procedures, read.

use nfs_args::args::NfsArgs;
use nfs_args::mount_args::{MountArgs, read_mount};
use nfs_args::procedure::{MountProcedure, Procedure};
use nfs_args::unreadable::Unreadable;
use nfs_xdr::input::Input;
use std::alloc::Global;
use std::io;
use std::rt::Clock;
use std::time::Instant;

// A handle, a name of two bytes, settings of all attributes, a guard, and how a file is made where
// its name isn't there.
const HANDLE: [u8; 28] = [
    0, 0, 0, 24, b'N', b'F', b'S', b'3', 1, 2, 3, 4, 5, 6, 7, 8, 0, 0, 0, 0, 0, 0, 0, 0, 0, 0, 0, 9,
];

const NAME: [u8; 8] = [0, 0, 0, 2, b'a', b'b', 0, 0];

const SETTINGS: [u8; 52] = [
    0, 0, 0, 1, 0, 0, 1, 0xa4, 0, 0, 0, 1, 0, 0, 3, 0xe8, 0, 0, 0, 1, 0, 0, 0, 100, 0, 0, 0, 1, 0,
    0, 0, 0, 0, 0, 16, 0, 0, 0, 0, 1, 0, 0, 0, 2, 0, 0, 0, 100, 0, 0, 0, 5,
];

const GUARD: [u8; 12] = [0, 0, 0, 1, 0, 0, 0, 7, 0, 0, 0, 8];

const GUARDED: [u8; 4] = [0, 0, 0, 1];

// A path of six bytes; the offset and count of a READ; those of a WRITE of 4 KiB that has to be safe,
// with the length of its bytes; and the cookie, verifier and counts of a READDIRPLUS.
const PATH: [u8; 12] = [0, 0, 0, 6, b'/', b'x', b'/', b'y', b'/', b'z', 0, 0];

const RANGE: [u8; 12] = [0, 0, 0, 0, 0, 0, 0, 0, 0, 0, 16, 0];

const WRITTEN: [u8; 20] = [0, 0, 0, 0, 0, 0, 0, 0, 0, 0, 16, 0, 0, 0, 0, 2, 0, 0, 16, 0];

const ENTRIES: [u8; 24] = [
    0, 0, 0, 0, 0, 0, 0, 3, 1, 2, 3, 4, 5, 6, 7, 8, 0, 0, 2, 0, 0, 0, 32, 0,
];

// What is measured.
const MEASURED: [&str; 10] = [
    "getattr",
    "setattr",
    "lookup",
    "read",
    "write",
    "create",
    "symlink",
    "rename",
    "readdirplus",
    "mnt",
];

const ROUNDS: u32 = 100_000;

/// Reads a few arguments of each procedure, and prints how many could be read.
pub(crate) fn fixed<R: Print + AllocGlobal>(rt: &R) -> io::Result<()> {
    let mut read = 0u32;
    for name in &MEASURED {
        let mut record = record(rt.alloc(), name)?;
        read = read.saturating_add(count(name, record.as_mut_slice(), 3));
    }
    println!(rt; "read the arguments of {read} calls")
}

/// Prints the nanoseconds in which the arguments of a procedure are read, for each procedure.
pub(crate) fn measure<R: Clock + Print + AllocGlobal>(rt: &R) -> io::Result<()> {
    for name in &MEASURED {
        let least = least_of(rt, name)?;
        println!(rt; "args-{name} {}.{}", least / 10, least % 10)?;
    }
    Ok(())
}

fn least_of<R: Clock + AllocGlobal>(rt: &R, name: &str) -> io::Result<u128> {
    let mut record = record(rt.alloc(), name)?;
    least(rt, name, record.as_mut_slice())
}

// The nanoseconds of one reading, in tenths, the least of a hundred runs, which are short, so that
// what else runs disturbs few.
fn least<R: Clock>(rt: &R, name: &str, record: &mut [u8]) -> io::Result<u128> {
    let mut least = u128::MAX;
    for _ in 0..100u8 {
        let start = Instant::now(rt)?;
        let _ = count(name, record, ROUNDS);
        let time = start.elapsed(rt)?.as_nanos();
        least = least.min(time / u128::from(ROUNDS / 10));
    }
    Ok(least)
}

// A record of the number of a procedure and its arguments.
fn record(alloc: Global, name: &str) -> io::Result<Vec<u8>> {
    match name {
        "getattr" => made(alloc, 1, &[&HANDLE]),
        "setattr" => made(alloc, 2, &[&HANDLE, &SETTINGS, &GUARD]),
        "lookup" => made(alloc, 3, &[&HANDLE, &NAME]),
        "read" => made(alloc, 6, &[&HANDLE, &RANGE]),
        "write" => made(alloc, 7, &[&HANDLE, &WRITTEN, &[7; 4096]]),
        "create" => made(alloc, 8, &[&HANDLE, &NAME, &GUARDED, &SETTINGS]),
        "symlink" => made(alloc, 10, &[&HANDLE, &NAME, &SETTINGS, &PATH]),
        "rename" => made(alloc, 14, &[&HANDLE, &NAME, &HANDLE, &NAME]),
        "readdirplus" => made(alloc, 17, &[&HANDLE, &ENTRIES]),
        _ => made(alloc, 1, &[&PATH]),
    }
}

fn made(alloc: Global, procedure: u32, parts: &[&[u8]]) -> io::Result<Vec<u8>> {
    let mut record = Vec::new(alloc);
    record.extend_from_slice(&procedure.to_be_bytes())?;
    for part in parts {
        record.extend_from_slice(part)?;
    }
    Ok(record)
}

// Reads the arguments so many times, and counts those that could be read.
fn count(name: &str, record: &mut [u8], rounds: u32) -> u32 {
    match name {
        "mnt" => count_mount(record, rounds),
        _ => count_nfs(record, rounds),
    }
}

fn count_nfs(record: &mut [u8], rounds: u32) -> u32 {
    let mut read = 0u32;
    for round in 0..rounds {
        mark(record, round);
        let mut args = NfsArgs::Null;
        if is_nfs(record, &mut args) {
            read = read.saturating_add(1);
        }
    }
    read
}

fn count_mount(record: &mut [u8], rounds: u32) -> u32 {
    let mut read = 0u32;
    for round in 0..rounds {
        mark(record, round);
        if args_of_mount(record).is_ok() {
            read = read.saturating_add(1);
        }
    }
    read
}

// Gives the first opaque data another first byte, so that no two records that follow are the same.
fn mark(record: &mut [u8], round: u32) {
    if let Some(byte) = record.get_mut(8) {
        *byte = round.to_be_bytes()[3];
    }
}

// Reads the arguments of NFS after the number of their procedure, and answers whether they are
// there. Not inlined, since what isn't looked at would not be read then.
#[inline(never)]
fn is_nfs<'a>(record: &'a [u8], args: &mut NfsArgs<'a>) -> bool {
    let mut input = Input::new(record);
    match input.u32().ok().and_then(Procedure::of) {
        Some(procedure) => args.read(procedure, input).is_ok(),
        None => false,
    }
}

// The same of MOUNT.
#[inline(never)]
fn args_of_mount(record: &[u8]) -> Result<MountArgs<'_>, Unreadable> {
    let mut input = Input::new(record);
    match input.u32().ok().and_then(MountProcedure::of) {
        Some(procedure) => read_mount(procedure, input),
        None => Err(Unreadable),
    }
}
