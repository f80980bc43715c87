//! Pages of directories.

use crate::changes::unlink;
use crate::tree::{ROOT, fill, grown, letters};
use nfs_args::limits::MAX_PAGE_BYTES;
use nfs_dirs::answer::WrittenPage;
use nfs_dirs::limits::{PAGE_HEAD_BYTES, entry_bytes, plus_bytes};
use nfs_dirs::readdir::page;
use nfs_dirs::readdirplus::page_plus;
use nfs_handles::number::{Hint, Number};
use nfs_inodes::tree::Tree;
use nfs_inodes::volumes::Totals;
use nfs_xdr::output::Output;
use std::alloc::Global;
use std::io;
use std::rt::Clock;
use std::time::Instant;

// The first directory below the root.
const DIR: Number = Number(2, Hint::NONE);

// The bytes of a page of which a whole directory is read.
const COUNT: u32 = 8_192;

const ROUNDS: u32 = 20_000;

// How many entries a page of READDIRPLUS has.
const SHOWN: usize = 200;

/// Prints how many entries a page of each kind has, and how many are read of a directory by pages.
pub(crate) fn fixed<R: Print + AllocGlobal>(rt: &R) -> io::Result<()> {
    let tree = directory(rt.alloc(), 1_000)?;
    let mut out = Output::new(rt.alloc(), MAX_PAGE_BYTES)?;
    let entries = plain(&tree, DIR, 0, u32::MAX, &mut out).map_or(
        0,
        |page: WrittenPage| page.given,
    );
    let shown = plus(&tree, &mut out).map_or(0, |page: WrittenPage| page.given);
    let read = whole(&tree, &mut out);
    println!(rt; "pages of {entries} and of {shown} entries, {read} read by pages")
}

/// Prints the nanoseconds of a page of READDIR of a thousand files, and of one of READDIRPLUS of two
/// hundred entries, in tenths, the least of five runs.
pub(crate) fn measure<R: Clock + Print + AllocGlobal>(rt: &R) -> io::Result<()> {
    let tree = directory(rt.alloc(), 1_000)?;
    let mut out = Output::new(rt.alloc(), MAX_PAGE_BYTES)?;
    measure_in(rt, &tree, &mut out)
}

fn measure_in<R: Clock + Print>(rt: &R, tree: &Tree, out: &mut Output) -> io::Result<()> {
    let (mut entries, mut shown) = (u128::MAX, u128::MAX);
    for _ in 0..5u8 {
        let start = Instant::now(rt)?;
        for _ in 0..ROUNDS {
            let _ = plain(tree, DIR, 0, u32::MAX, out);
        }
        entries = entries.min(start.elapsed(rt)?.as_nanos() / u128::from(ROUNDS / 10));
        let start = Instant::now(rt)?;
        for _ in 0..ROUNDS {
            let _ = plus(tree, out);
        }
        shown = shown.min(start.elapsed(rt)?.as_nanos() / u128::from(ROUNDS / 10));
    }
    println!(rt; "page-1000 {}.{}", entries / 10, entries % 10)?;
    println!(rt; "page-plus-200 {}.{}", shown / 10, shown % 10)
}

/// Prints the nanoseconds of an entry of a directory of so many files that is read by pages of 8 KiB,
/// in tenths, the least of five runs.
pub(crate) fn measure_whole<R: Clock + Print + AllocGlobal>(rt: &R, files: u32) -> io::Result<()> {
    let tree = directory(rt.alloc(), files)?;
    let mut out = Output::new(rt.alloc(), MAX_PAGE_BYTES)?;
    time_whole(rt, &tree, &mut out, 1_000_000 / files.max(1))
}

fn time_whole<R: Clock + Print>(
    rt: &R,
    tree: &Tree,
    out: &mut Output,
    rounds: u32,
) -> io::Result<()> {
    let mut least = u128::MAX;
    for _ in 0..5u8 {
        let mut read = 0u64;
        let start = Instant::now(rt)?;
        for _ in 0..rounds {
            read = read.saturating_add(whole(tree, out));
        }
        let time = start.elapsed(rt)?.as_nanos().saturating_mul(10);
        least = least.min(time / u128::from(read.max(1)));
    }
    println!(rt; "entry {}.{}", least / 10, least % 10)
}

/// Removes two directories by pages, and prints how many files they had.
pub(crate) fn fixed_removal<R: Print + AllocGlobal>(rt: &R) -> io::Result<()> {
    let mut tree = grown(rt.alloc(), 0)?;
    let mut out = Output::new(rt.alloc(), MAX_PAGE_BYTES)?;
    remove_twice(rt, &mut tree, &mut out)
}

fn remove_twice<R: Print>(rt: &R, tree: &mut Tree, out: &mut Output) -> io::Result<()> {
    let mut removed = 0u32;
    for _ in 0..2u8 {
        let dir = fill(tree, 0, 1_000, 0, &[])?;
        removed = removed.saturating_add(remove(tree, dir, out));
        unlink(tree, ROOT, &letters(0));
    }
    let left = tree.totals(0).map_or(0, |totals: Totals| totals.files);
    println!(rt; "removed {removed} files by pages, {left} left")
}

/// Prints the nanoseconds for each file of a directory of so many that is removed in the order of its
/// pages, in tenths, the least of five runs.
pub(crate) fn measure_removal<R: Clock + Print + AllocGlobal>(
    rt: &R,
    files: u32,
) -> io::Result<()> {
    let mut tree = grown(rt.alloc(), 0)?;
    let mut out = Output::new(rt.alloc(), MAX_PAGE_BYTES)?;
    least_removal(rt, &mut tree, files, &mut out)
}

fn least_removal<R: Clock + Print>(
    rt: &R,
    tree: &mut Tree,
    files: u32,
    out: &mut Output,
) -> io::Result<()> {
    let mut least = u128::MAX;
    for _ in 0..5u8 {
        least = least.min(time_removal(rt, tree, files, out)?);
    }
    println!(rt; "removed {}.{}", least / 10, least % 10)
}

// The nanoseconds for each file of directories of so many, in tenths; they are filled meanwhile, which
// is not counted.
fn time_removal<R: Clock>(
    rt: &R,
    tree: &mut Tree,
    files: u32,
    out: &mut Output,
) -> io::Result<u128> {
    let mut time = 0u128;
    let mut removed = 0u32;
    for _ in 0..100_000 / files.max(1) {
        let dir = fill(tree, 0, files, 0, &[])?;
        let start = Instant::now(rt)?;
        removed = removed.saturating_add(remove(tree, dir, out));
        time = time.saturating_add(start.elapsed(rt)?.as_nanos());
        unlink(tree, ROOT, &letters(0));
    }
    Ok(time.saturating_mul(10) / u128::from(removed.max(1)))
}

// Reads a directory by pages, and removes the files of each page: how many there were.
fn remove(tree: &mut Tree, dir: Number, out: &mut Output) -> u32 {
    let mut listed = 0u32;
    for _ in 0..ROUNDS {
        match plain(tree, dir, u64::from(listed), COUNT, out) {
            Some(page) => {
                let until = listed.saturating_add((page.given % 65_536) as u32);
                remove_listed(tree, dir, listed, until);
                listed = until;
                if page.eof {
                    break;
                }
            }
            None => break,
        }
    }
    listed.saturating_sub(2)
}

// Removes what is listed after the first so many entries, up to so many; the first two are no files.
fn remove_listed(tree: &mut Tree, dir: Number, from: u32, until: u32) {
    for place in from.max(2)..until {
        unlink(tree, dir, &letters(place.saturating_sub(2)));
    }
}

// A volume with one directory of so many files.
fn directory(alloc: Global, files: u32) -> io::Result<Tree> {
    let mut tree = grown(alloc, 0)?;
    fill(&mut tree, 0, files, 0, &[])?;
    Ok(tree)
}

// A page of READDIR after a cookie.
fn plain(
    tree: &Tree,
    dir: Number,
    cookie: u64,
    count: u32,
    out: &mut Output,
) -> Option<WrittenPage> {
    let dir = tree.view(dir)?;
    out.clear();
    if out.room() < MAX_PAGE_BYTES {
        return None;
    }
    page(tree, &dir, cookie, count, out).ok()
}

// A page of READDIRPLUS from the first entry on.
fn plus(tree: &Tree, out: &mut Output) -> Option<WrittenPage> {
    let dir = tree.view(DIR)?;
    out.clear();
    if out.room() < MAX_PAGE_BYTES {
        return None;
    }
    let bytes = PAGE_HEAD_BYTES + SHOWN * (entry_bytes(b"aaaa") + plus_bytes(true));
    page_plus(tree, &dir, 0, u32::MAX, bytes as u32, true, out).ok()
}

// The whole directory by pages: how many entries they have.
fn whole(tree: &Tree, out: &mut Output) -> u64 {
    let mut cookie = 0u64;
    for _ in 0..ROUNDS {
        match plain(tree, DIR, cookie, COUNT, out) {
            Some(page) => {
                cookie = cookie.saturating_add(page.given as u64);
                if page.eof {
                    break;
                }
            }
            None => break,
        }
    }
    cookie
}
