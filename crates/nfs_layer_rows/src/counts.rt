//! What is counted afresh of a tree, beside what the tree says.

use nfs_attrs::fattr::Fattr;
use nfs_attrs::file_type::FileType;
use nfs_handles::number::Number;
use nfs_inodes::tree::Tree;
use nfs_inodes::volumes::Totals;

/// Whether the links of each file, the totals of each volume and the way from each directory to
/// its root are as they are counted.
pub(crate) fn agrees(tree: &Tree) -> bool {
    let directories = directories(tree);
    for number in 0..tree.next_number() {
        if !is_kept(tree, Number::new(number), directories) {
            return false;
        }
    }
    totals_agree(tree)
}

/// The links of all files.
pub(crate) fn links(tree: &Tree) -> u64 {
    let mut links = 0u64;
    for number in 0..tree.next_number() {
        if let Some(file) = tree.attributes(Number::new(number)) {
            links = links.saturating_add(u64::from(file.nlink));
        }
    }
    links
}

// Whether a file has the names and links that are counted, and a directory its root above it.
// What doesn't live has no names.
fn is_kept(tree: &Tree, number: Number, directories: u64) -> bool {
    let names = names(tree, number);
    match tree.attributes(number) {
        Some(file) if is_directory(&file) => {
            u64::from(file.nlink) == subdirectories(tree, number).saturating_add(2)
                && reaches_root(tree, &file, names, directories)
        }
        Some(file) => u64::from(file.nlink) == names && names > 0,
        None => names == 0,
    }
}

fn is_directory(file: &Fattr) -> bool {
    match file.file_type {
        FileType::Directory => true,
        _ => false,
    }
}

// Whether a directory is its volume's root, which has no name, or has one and is below it.
fn reaches_root(tree: &Tree, file: &Fattr, names: u64, directories: u64) -> bool {
    match tree.volume(place_of(file)) {
        Some(volume) if volume.root.0 == file.fileid => names == 0,
        Some(volume) => {
            names == 1 && climbs(tree, Number::new(file.fileid), volume.root, directories)
        }
        None => false,
    }
}

fn place_of(file: &Fattr) -> usize {
    usize::try_from(file.fsid.wrapping_sub(1)).unwrap_or(usize::MAX)
}

// Whether so many steps to the parent reach a root.
fn climbs(tree: &Tree, dir: Number, root: Number, steps: u64) -> bool {
    let mut at = dir;
    for _ in 0..steps {
        at = tree.lookup(at, b"..").unwrap_or(at);
        if at.0 == root.0 {
            return true;
        }
    }
    false
}

// How many directories there are.
fn directories(tree: &Tree) -> u64 {
    let mut count = 0u64;
    for number in 0..tree.next_number() {
        if tree.next_cookie(Number::new(number)).is_some() {
            count = count.saturating_add(1);
        }
    }
    count
}

// How many entries of all directories name a file.
fn names(tree: &Tree, number: Number) -> u64 {
    let mut count = 0u64;
    for dir in 0..tree.next_number() {
        count = count.saturating_add(names_in(tree, Number::new(dir), number));
    }
    count
}

// How many entries of a directory name a file.
fn names_in(tree: &Tree, dir: Number, number: Number) -> u64 {
    let mut count = 0u64;
    if let Some(dir) = tree.view(dir) {
        for entry in dir.entries() {
            if entry.number.0 == number.0 {
                count = count.saturating_add(1);
            }
        }
    }
    count
}

// How many entries of a directory name directories.
fn subdirectories(tree: &Tree, dir: Number) -> u64 {
    let mut count = 0u64;
    if let Some(dir) = tree.view(dir) {
        for entry in dir.entries() {
            if tree.next_cookie(entry.number).is_some() {
                count = count.saturating_add(1);
            }
        }
    }
    count
}

fn totals_agree(tree: &Tree) -> bool {
    for place in 0..tree.volumes() {
        match tree.totals(place) {
            Some(totals) if totals == counted(tree, place) => {}
            _ => return false,
        }
    }
    true
}

// The files of the volume at a place, and the bytes of the regular ones.
fn counted(tree: &Tree, place: usize) -> Totals {
    let mut totals = Totals { bytes: 0, files: 0 };
    for number in 0..tree.next_number() {
        match tree.attributes(Number::new(number)) {
            Some(file) if place_of(&file) == place => add(&mut totals, &file),
            _ => {}
        }
    }
    totals
}

fn add(totals: &mut Totals, file: &Fattr) {
    totals.files = totals.files.saturating_add(1);
    match file.file_type {
        FileType::Regular => totals.bytes = totals.bytes.saturating_add(file.size),
        _ => {}
    }
}
