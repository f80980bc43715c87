//! The faults of a description after its first.
ghost use Rattle.std.specs.Prelude.{IfOk};
ghost use Rattle.nfs_advice.specs.Firsts.{HasFirst};

use crate::description::line_at;
use crate::earlier::{first_word, word_of};
use nfs_load::cause::Cause;
use nfs_load::description::load;
use nfs_load::load_error::LoadError;
use nfs_text::lines::Lines;
use std::alloc::{AllocError, Global};

// How many faulty lines are looked at.
const MOST: u32 = 100;

// The lines after which nothing is reported where they are faulty.
const ENDING: [&[u8]; 3] = [b"server", b"limits", b"names"];

/// A faulty line.
#[derive(Clone, Copy)]
pub struct Faulty {
    /// Its number, from 1.
    pub line: u64,
    /// Its first cause.
    pub cause: Cause,
}

/// The faulty lines of a description.
#[derive(Drop)]
pub struct Faults {
    /// The first.
    pub first: Faulty,
    /// Others after it, in order.
    pub others: Vec<Faulty>,
}

/// The faulty lines of a text, if it has one: the first, and of those after it each that is faulty
/// whatever the faulty ones before it should have said. So nothing is reported after a faulty line of the
/// server, of limits or of names, nor after one of a volume up to the next volume; and what should have
/// been there, and isn't, is reported of the first faulty line alone. At most 100 are looked at. Refused
/// without memory.
pub fn every_fault(alloc: Global, text: &[u8]) -> Result<Option<Faults>, AllocError>
    ensures first { IfOk result (HasFirst text.now) }
{
    match load(alloc, text) {
        Ok(_) => Ok(None),
        Err(LoadError::Memory) => Err(AllocError),
        Err(LoadError::Fault { line, cause }) => {
            let first = Faulty { line, cause };
            let others = after(alloc, text, first)?;
            Ok(Some(Faults { first, others }))
        }
    }
}

// The faulty lines after the first one.
fn after(alloc: Global, text: &[u8], first: Faulty) -> Result<Vec<Faulty>, AllocError> {
    let mut others = Vec::new(alloc);
    let mut left = text.to_vec(alloc)?;
    let mut last = first;
    for _ in 1..MOST {
        if !take_away(left.as_mut_slice(), last) {
            break;
        }
        match load(alloc, left.as_slice()) {
            Ok(_) => break,
            Err(LoadError::Memory) => return Err(AllocError),
            Err(LoadError::Fault { line, cause }) => last = Faulty { line, cause },
        }
        if !is_missed(last.cause) {
            others.push(last)?;
        }
    }
    Ok(others)
}

// Whether something is missing, which a faulty line above may have been meant to make.
fn is_missed(cause: Cause) -> bool {
    match cause {
        Cause::NoServer | Cause::NoVolume | Cause::NoParent | Cause::NoTarget => true,
        _ => false,
    }
}

// Makes a comment of a faulty line, and of those after it that belong to it. Not where all lines do.
fn take_away(text: &mut [u8], faulty: Faulty) -> bool {
    let first = word_of(line_at(text, faulty.line).bytes(), 0);
    if first.is_empty() || ENDING.contains(&first) || faulty.cause == Cause::NoServer {
        return false;
    }
    let end = if first == b"volume".as_slice() {
        next_volume(text, faulty.line)
    } else {
        faulty.line.saturating_add(1)
    };
    comment(text, faulty.line, end);
    true
}

// The number of the first line of a volume after a line; where there is none, one beyond all.
fn next_volume(text: &[u8], after: u64) -> u64 {
    let mut number = 0u64;
    for line in Lines::new(text) {
        number = number.saturating_add(1);
        if number > after && first_word(line) == b"volume".as_slice() {
            return number;
        }
    }
    u64::MAX
}

// Makes comments of the lines from one number up to another.
fn comment(text: &mut [u8], start: u64, end: u64) {
    let mut number = 1u64;
    for byte in text.iter_mut() {
        if *byte == b'\n' {
            number = number.saturating_add(1);
        } else if start <= number && number < end {
            *byte = b'#';
        }
    }
}
