//! Calls that name many files, in an order that wanders.

use crate::calls::{Asked, Counted};
use crate::records::{Target, served_many};
use crate::tree::letters;
use nfs_inodes::tree::Tree;
use std::alloc::Global;
use std::io;
use std::rt::Clock;
use std::time::Instant;

/// The measures of trees of many files.
pub(crate) const OF_FILES: [&str; 5] = ["getattr", "lookup-x", "read-4096", "access", "setattr"];

/// The measures of a directory of many names.
pub(crate) const OF_NAMES: [&str; 4] = ["lookup-x", "create-remove", "remove-create", "rename"];

/// The measures of one name of a directory.
pub(crate) const OF_ONE_NAME: [&str; 3] = ["lookup-x", "remove-create", "rename"];

// The first directory, its first file, and the file's name.
const FIRST: Target = Target {
    dir: 2,
    file: 3,
    name: [0, 0, 0, 4, b'A', b'A', b'A', b'A'],
};

// How far apart are two files that are named one after the other: a prime, so that none is skipped.
const STRIDE: u64 = 618_041;

// Where a call has its handle, the bytes of its name, and those of the name that it gives.
const HANDLE_AT: usize = 64;

const NAME_AT: usize = 92;

const NEW_NAME_AT: usize = 128;

/// So many directories of so many files.
#[derive(Clone, Copy)]
pub(crate) struct Size {
    pub(crate) dirs: u32,
    pub(crate) files: u32,
}

// What a round is aimed at: a file or a directory, and a name.
#[derive(Clone, Copy)]
struct Place {
    handle: [u8; 24],
    name: [u8; 4],
}

// Where a place's name stands in the calls of a round, if anywhere.
#[derive(Clone, Copy)]
struct Spots {
    first: Option<usize>,
    second: Option<usize>,
}

/// Does each round of calls over a few files, and prints how many were answered, and the bytes of
/// their replies.
pub(crate) fn fixed<R: Print + AllocGlobal>(rt: &R) -> io::Result<()> {
    few(rt, Size { dirs: 2, files: 5 }, &OF_FILES)?;
    few(rt, Size { dirs: 1, files: 10 }, &OF_NAMES)
}

fn few<R: Print + AllocGlobal>(rt: &R, size: Size, names: &[&str]) -> io::Result<()> {
    let mut asked = asked_in(rt.alloc(), size)?;
    few_of(rt, &mut asked, size, names)
}

fn few_of<R: Print + AllocGlobal>(
    rt: &R,
    asked: &mut Asked,
    size: Size,
    names: &[&str],
) -> io::Result<()> {
    for name in names {
        let counted = pass_once(rt.alloc(), asked, size, name)?;
        println!(rt; "wandering {name} {} {}", counted.answered, counted.bytes)?;
    }
    Ok(())
}

// What a round at each place comes to.
fn pass_once(alloc: Global, asked: &mut Asked, size: Size, name: &str) -> io::Result<Counted> {
    let places = set(alloc, asked, size, name)?;
    let mut counted = Counted::default();
    pass(asked, spots_of(name), places.as_slice(), 0, &mut counted);
    Ok(counted)
}

// A server of a tree of a size.
fn asked_in(alloc: Global, size: Size) -> io::Result<Asked> {
    Asked::new(alloc, served_many(alloc, size.dirs, size.files)?)
}

/// Prints the nanoseconds of each round of calls in a tree of a size, in tenths, the least of five
/// runs over each of its files or names in turn.
pub(crate) fn measure_each<R: Clock + Print + AllocGlobal>(
    rt: &R,
    size: Size,
    names: &[&str],
) -> io::Result<()> {
    measure(rt, size, names, None)
}

/// The same, of one file or name again and again.
pub(crate) fn measure_one<R: Clock + Print + AllocGlobal>(
    rt: &R,
    size: Size,
    names: &[&str],
) -> io::Result<()> {
    measure(rt, size, names, Some(1))
}

// Of so many of them, or of each.
fn measure<R: Clock + Print + AllocGlobal>(
    rt: &R,
    size: Size,
    names: &[&str],
    most: Option<usize>,
) -> io::Result<()> {
    let mut asked = asked_in(rt.alloc(), size)?;
    measure_of(rt, &mut asked, size, names, most)
}

fn measure_of<R: Clock + Print + AllocGlobal>(
    rt: &R,
    asked: &mut Asked,
    size: Size,
    names: &[&str],
    most: Option<usize>,
) -> io::Result<()> {
    for name in names {
        let least = least_at(rt, asked, size, name, most)?;
        println!(rt; "{name} {}.{}", least / 10, least % 10)?;
    }
    Ok(())
}

// The nanoseconds of a round of this name, in tenths, at the first of its places or at all.
fn least_at<R: Clock + AllocGlobal>(
    rt: &R,
    asked: &mut Asked,
    size: Size,
    name: &str,
    most: Option<usize>,
) -> io::Result<u128> {
    let mut places = set(rt.alloc(), asked, size, name)?;
    if let Some(most) = most {
        places.truncate(most);
    }
    least(rt, asked, spots_of(name), places.as_slice())
}

// The nanoseconds of a round, in tenths, the least of five runs.
fn least<R: Clock>(rt: &R, asked: &mut Asked, spots: Spots, places: &[Place]) -> io::Result<u128> {
    let mut least = u128::MAX;
    for _ in 0..5u8 {
        least = least.min(time(rt, asked, spots, places)?);
    }
    Ok(least)
}

// The nanoseconds of a round, in tenths, of a million of them.
fn time<R: Clock>(rt: &R, asked: &mut Asked, spots: Spots, places: &[Place]) -> io::Result<u128> {
    let mut counted = Counted::default();
    let mut rounds = 0u32;
    let start = Instant::now(rt)?;
    for _ in 0..1_000_000 / places.len().max(1) {
        rounds = pass(asked, spots, places, rounds, &mut counted);
    }
    let time = start.elapsed(rt)?.as_nanos();
    Ok(time.saturating_mul(10) / u128::from(rounds.max(1)))
}

// A round at each place, numbered on: the number of the next one.
fn pass(
    asked: &mut Asked,
    spots: Spots,
    places: &[Place],
    first: u32,
    counted: &mut Counted,
) -> u32 {
    let mut round = first;
    for place in places {
        aim(asked.first.as_mut_slice(), place, spots.first);
        if let Some(second) = &mut asked.second {
            aim(second.as_mut_slice(), place, spots.second);
        }
        asked.round(round, counted);
        round = round.saturating_add(1);
    }
    round
}

// Makes a call name a place.
fn aim(record: &mut [u8], place: &Place, spot: Option<usize>) {
    put(record, HANDLE_AT, &place.handle);
    if let Some(at) = spot {
        put(record, at, &place.name);
    }
}

fn put(record: &mut [u8], at: usize, bytes: &[u8]) {
    let end = at.saturating_add(bytes.len());
    if end <= record.len() && at <= end && end - at == bytes.len() {
        record[at..end].copy_from_slice(bytes);
    }
}

fn spots_of(name: &str) -> Spots {
    let at = |first: Option<usize>, second: Option<usize>| Spots { first, second };
    match name {
        "lookup-x" => at(Some(NAME_AT), None),
        "remove-create" => at(Some(NAME_AT), Some(NAME_AT)),
        "rename" => at(Some(NAME_AT), Some(NEW_NAME_AT)),
        _ => at(None, None),
    }
}

// Sets the calls of a round, and answers its places in the order that wanders.
fn set(alloc: Global, asked: &mut Asked, size: Size, name: &str) -> io::Result<Vec<Place>> {
    asked.set(alloc, &FIRST, name)?;
    let is_of_dir = OF_NAMES.contains(&name);
    places(alloc, asked.server.tree(), size, is_of_dir)
}

fn places(alloc: Global, tree: &Tree, size: Size, is_of_dir: bool) -> io::Result<Vec<Place>> {
    let files = u64::from(size.files.max(1));
    let count = u64::from(size.dirs).saturating_mul(files).max(1);
    let mut places = Vec::new(alloc);
    for step in 0..count {
        let index = step.saturating_mul(STRIDE) % count;
        let file = index % files;
        let dir = (index / files)
            .saturating_mul(files.saturating_add(1))
            .saturating_add(2);
        let number = if is_of_dir {
            dir
        } else {
            dir.saturating_add(file).saturating_add(1)
        };
        if let Some(handle) = tree.handle_of(number) {
            let name = letters((file % 1_048_576) as u32);
            places.push(Place { handle, name })?;
        }
    }
    Ok(places)
}
