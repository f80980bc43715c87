//! Where two descriptions differ.
ghost use Rattle.std.specs.Prelude.{◌≡◌, ◌≤◌, ◌↔◌, length, take, IsNone};

use memchr::{memchr, memrchr};
use nfs_source::journal_fault::ShownLine;
use std::alloc::{AllocError, Global};

// The most bytes of a line that are shown, but where it differs only later: then so many of its front, and as many as make
// up the rest from so many before the place where it differs.
const MOST_SHOWN: usize = 100;

const FRONT_SHOWN: usize = 40;

const BEFORE_SHOWN: usize = 20;

/// The first lines at which two texts differ, without their LF.
#[derive(Clone, Copy)]
pub(crate) struct Difference<'a> {
    // That of each; `None` where it has ended.
    theirs: Option<&'a [u8]>,
    ours: Option<&'a [u8]>,
    // How many bytes at the front of both are the same.
    same: usize,
}

impl<'a> Difference<'a> {
    /// Where two texts differ; `None` where they don't.
    pub(crate) fn of(theirs: &'a [u8], ours: &'a [u8]) -> Option<Difference<'a>>
        ensures { IsNone result ↔ (theirs.entry.now ≡ ours.entry.now) }
    {
        let same = common_bytes(theirs, ours);
        if same == theirs.len() && same == ours.len() {
            return None;
        }
        let start = line_start(theirs, same);
        Some(Difference {
            theirs: line_at(theirs, start),
            ours: line_at(ours, start),
            same: same.saturating_sub(start),
        })
    }

    /// The line of the first text, as it is shown.
    pub(crate) fn theirs(self, alloc: Global) -> Result<ShownLine, AllocError> {
        shown(alloc, self.theirs, self.same)
    }

    /// That of the other.
    pub(crate) fn ours(self, alloc: Global) -> Result<ShownLine, AllocError> {
        shown(alloc, self.ours, self.same)
    }
}

// How many bytes at the front of both are the same.
fn common_bytes(one: &[u8], other: &[u8]) -> usize
    ensures one { result ≤ length one.now }
    ensures other { result ≤ length other.now }
    ensures same { take result one.now ≡ take result other.now }
    ensures all { one.now ≡ other.now → result ≡ length one.now }
{
    let len = one.len().min(other.len());
    for place in 0..len {
        if one[place] != other[place] {
            return place;
        }
    }
    len
}

// Where the line begins that has this place.
fn line_start(text: &[u8], place: usize) -> usize {
    match memrchr(b'\n', text.get(..place).unwrap_or(text)) {
        Some(end) => end.saturating_add(1),
        None => 0,
    }
}

// The line that begins there; `None` at the end.
fn line_at(text: &[u8], start: usize) -> Option<&[u8]> {
    let rest = text.get(start..)?;
    match memchr(b'\n', rest) {
        Some(end) => rest.get(..end),
        None if rest.is_empty() => None,
        None => Some(rest),
    }
}

// A line, of which so many bytes are the same as those of another one.
fn shown(alloc: Global, line: Option<&[u8]>, same: usize) -> Result<ShownLine, AllocError> {
    let Some(line) = line else {
        return Ok(ShownLine::End);
    };
    if same < MOST_SHOWN || line.len() <= MOST_SHOWN {
        return Ok(ShownLine::Line(part(alloc, line, 0, MOST_SHOWN)?));
    }
    let front = part(alloc, line, 0, FRONT_SHOWN)?;
    let start = same.saturating_sub(BEFORE_SHOWN);
    let rest = part(alloc, line, start, MOST_SHOWN - FRONT_SHOWN)?;
    Ok(ShownLine::Line(format!(in alloc; "{front}{rest}")?))
}

// So many bytes of a line from one of them on, with two points where it has more.
fn part(alloc: Global, line: &[u8], start: usize, most: usize) -> Result<String, AllocError> {
    let rest = line.get(start..).unwrap_or(line);
    match rest.get(..most) {
        Some(part) if part.len() < rest.len() => {
            let text = str::from_utf8(part).unwrap_or("");
            format!(in alloc; "{text}..")
        }
        _ => str::from_utf8(rest).unwrap_or("").to_string(alloc),
    }
}
