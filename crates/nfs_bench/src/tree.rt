//! The tree: what is read of small and of large ones, and bytes that are written.

use nfs_attrs::moment::Moment;
use nfs_conditions::bytes::may_write;
use nfs_content::pages::Pages;
use nfs_handles::number::{Hint, Number};
use nfs_inodes::limits::Limits;
use nfs_inodes::new_file::{NewContent, NewFile};
use nfs_inodes::tree::Tree;
use nfs_inodes::volumes::Totals;
use std::alloc::{AllocError, Global};
use std::io;
use std::rt::Clock;
use std::time::Instant;

/// The root of the first volume.
pub(crate) const ROOT: Number = Number(1, Hint::NONE);

/// How often a reading is measured.
pub(crate) const ROUNDS: u32 = 1_000_000;

/// When everything is done.
pub(crate) const START: Moment = Moment {
    seconds: 0,
    nanos: 0,
};

/// What a new file is given: to be that of the user who calls.
pub(crate) const GIVEN: NewFile = NewFile {
    mode: 0o755,
    uid: 9,
    gid: 9,
    atime: START,
    mtime: START,
};

// The files of one directory.
const FILES: u32 = 1_000;

/// Makes a small tree, and prints how many files it has and what is read of them.
pub(crate) fn fixed<R: Print + AllocGlobal>(rt: &R) -> io::Result<()> {
    let mut tree = grown(rt.alloc(), 1)?;
    let links = attributes(&tree, 3);
    let found = look_up(&tree, 3);
    write(&mut tree, &[7; 1000], 3);
    let length = tree.bytes_at(Number::new(3), 0).len();
    println!(rt;
        "made {} files, {links} links, found {found}, wrote {length} bytes",
        tree.next_number().saturating_sub(1)
    )
}

/// Prints the nanoseconds of a look-up, in a directory of a thousand files, and of a file's
/// attributes, in tenths, the least of five runs, in a tree of so many thousand files.
pub(crate) fn measure<R: Clock + Print + AllocGlobal>(rt: &R, thousands: u32) -> io::Result<()> {
    let tree = grown(rt.alloc(), thousands)?;
    measure_in(rt, &tree)
}

fn measure_in<R: Clock + Print>(rt: &R, tree: &Tree) -> io::Result<()> {
    let mut links = u128::MAX;
    let mut names = u128::MAX;
    for _ in 0..5u8 {
        let start = Instant::now(rt)?;
        let _ = attributes(tree, ROUNDS);
        links = links.min(start.elapsed(rt)?.as_nanos() / u128::from(ROUNDS / 10));
        let start = Instant::now(rt)?;
        let _ = look_up(tree, ROUNDS / 100);
        names = names.min(start.elapsed(rt)?.as_nanos() / u128::from(ROUNDS / 1000));
    }
    println!(rt; "attributes {}.{}", links / 10, links % 10)?;
    println!(rt; "lookup {}.{}", names / 10, names % 10)
}

/// Prints the nanoseconds of writing 64 KiB over a file's bytes, in tenths, the least of five
/// runs.
pub(crate) fn measure_write<R: Clock + Print + AllocGlobal>(rt: &R) -> io::Result<()> {
    let mut tree = grown(rt.alloc(), 1)?;
    let bytes = sevens(rt.alloc())?;
    time_writes(rt, &mut tree, bytes.as_slice())
}

// 64 KiB.
fn sevens(alloc: Global) -> Result<Vec<u8>, AllocError> {
    let mut bytes = Vec::new(alloc);
    bytes.resize(65_536, 7)?;
    Ok(bytes)
}

fn time_writes<R: Clock + Print>(rt: &R, tree: &mut Tree, bytes: &[u8]) -> io::Result<()> {
    let mut least = u128::MAX;
    for _ in 0..5u8 {
        let start = Instant::now(rt)?;
        write(tree, bytes, ROUNDS / 10);
        least = least.min(start.elapsed(rt)?.as_nanos() / u128::from(ROUNDS / 100));
    }
    println!(rt; "write {}.{}", least / 10, least % 10)
}

/// Holds a tree of so many thousand empty files, and prints how many files it has.
pub(crate) fn hold<R: Print + AllocGlobal>(rt: &R, thousands: u32) -> io::Result<()> {
    let tree = grown(rt.alloc(), thousands)?;
    println!(rt; "held {}", tree.next_number().saturating_sub(1))
}

/// Holds a hundred thousand empty files with one name more for each, in so many directories more of
/// so many names, and prints how many there are.
pub(crate) fn hold_names<R: Print + AllocGlobal>(rt: &R, dirs: u32, names: u32) -> io::Result<()> {
    let mut tree = grown(rt.alloc(), 100)?;
    let mut named = 0u32;
    for _ in 0..dirs {
        named = name_again(&mut tree, named, names)?;
    }
    println!(rt; "held {named} names more")
}

/// Holds so many files of 16 MiB with a byte at their ends, and prints the bytes of their volume.
pub(crate) fn hold_sparse<R: Print + AllocGlobal>(rt: &R, files: u32) -> io::Result<()> {
    let mut tree = grown(rt.alloc(), 0)?;
    let last = tree.limits().file_size.saturating_sub(1);
    fill(&mut tree, 0, files, last, &[7])?;
    let bytes = tree.totals(0).map_or(0, |totals: Totals| totals.bytes);
    println!(rt; "held {bytes} bytes")
}

/// A volume with so many directories of a thousand empty files each.
pub(crate) fn grown(alloc: Global, thousands: u32) -> Result<Tree, AllocError> {
    let limits = Limits {
        files: 2_000_000,
        ..Limits::standard()
    };
    let mut tree = Tree::with_limits(alloc, [0; 8], limits);
    if tree.may_add_volume(b"/", 10_000_000_000, limits.files) {
        tree.add_volume(b"/", 10_000_000_000, limits.files, &GIVEN, START)?;
    }
    grow(&mut tree, thousands, FILES, 0, &[])?;
    Ok(tree)
}

/// So many directories of so many files, each with these bytes at an offset.
pub(crate) fn grow(
    tree: &mut Tree,
    dirs: u32,
    files: u32,
    offset: usize,
    bytes: &[u8],
) -> Result<(), AllocError> {
    for place in 0..dirs {
        fill(tree, place, files, offset, bytes)?;
    }
    Ok(())
}

/// One directory of so many files, each with these bytes at an offset: the directory's number, or
/// that of the root where none may be made.
pub(crate) fn fill(
    tree: &mut Tree,
    place: u32,
    files: u32,
    offset: usize,
    bytes: &[u8],
) -> Result<Number, AllocError> {
    let name = letters(place);
    if !tree.may_mkdir(ROOT, &name) {
        return Ok(ROOT);
    }
    let dir = tree.mkdir(ROOT, &name, &GIVEN, START)?;
    for file in 0..files {
        add(tree, dir, &letters(file), offset, bytes)?;
    }
    Ok(dir)
}

// A file with these bytes at an offset.
fn add(
    tree: &mut Tree,
    dir: Number,
    name: &[u8],
    offset: usize,
    bytes: &[u8],
) -> Result<(), AllocError> {
    if tree.may_make(dir, name, 0) {
        let content = NewContent {
            pages: Pages::zeros(tree.allocator(), 0),
            verifier: None,
        };
        let file = tree.make_file(dir, name, content, &GIVEN, START)?;
        put(tree, file, offset, bytes);
    }
    Ok(())
}

// One name more for each of so many files after the first that have one, in a directory of their
// own: how many have one then.
fn name_again(tree: &mut Tree, named: u32, names: u32) -> Result<u32, AllocError> {
    let dir = fill(tree, named.saturating_add(FILES), 0, 0, &[])?;
    let until = named.saturating_add(names);
    for index in named..until {
        // The root stands before the files, and each directory before its own.
        let before = (index / FILES).saturating_add(3);
        let number = Number::new(u64::from(index.saturating_add(before)));
        let name = letters(index);
        if tree.may_link(number, dir, &name) {
            tree.link(number, dir, &name, START)?;
        }
    }
    Ok(until)
}

/// A name of four bytes for a number below 1,048,576.
pub(crate) fn letters(number: u32) -> [u8; 4] {
    let letter = |shift: u32| b'A' + (number >> shift & 31) as u8;
    [letter(15), letter(10), letter(5), letter(0)]
}

// So many times the attributes of files one after another: the sum of their links.
fn attributes(tree: &Tree, rounds: u32) -> u64 {
    let mut links = 0u64;
    let mut number = 1u64;
    for _ in 0..rounds {
        match tree.attributes(Number::new(number)) {
            Some(attributes) => {
                links = links.saturating_add(u64::from(attributes.nlink));
                number = number.saturating_add(1);
            }
            None => number = 1,
        }
    }
    links
}

// So many names looked up in the first directory of files: how many were found.
fn look_up(tree: &Tree, rounds: u32) -> u64 {
    let mut found = 0u64;
    for round in 0..rounds {
        if tree
            .lookup(Number::new(2), &letters(round % FILES))
            .is_some()
        {
            found = found.saturating_add(1);
        }
    }
    found
}

// So many times these bytes over those of the first file.
fn write(tree: &mut Tree, bytes: &[u8], rounds: u32) {
    for _ in 0..rounds {
        put(tree, Number::new(3), 0, bytes);
    }
}

// Puts bytes at an offset of a file, if it may have them.
fn put(tree: &mut Tree, file: Number, offset: usize, bytes: &[u8]) {
    if may_write(tree, file, offset, bytes.len()) {
        let _ = tree.write_at(file, offset, bytes, START);
    }
}
