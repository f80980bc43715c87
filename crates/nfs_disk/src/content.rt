//! The bytes of a file on disk.
ghost use Rattle.std.specs.Prelude.{◌≤◌, IfOk, length};
ghost use Rattle.nfs_content.specs.Limits.{max_content};

use crate::warning::SkipReason;
use nfs_content::content::Content;
use nfs_content::pages::Pages;
use std::alloc::{AllocError, Global};
use std::fs;
use std::io::{self, ErrorKind, Read};
use std::rt::Files;

/// How much is read at once.
pub(crate) const CHUNK_BYTES: usize = 1 << 16;

// How many bytes one page has.
const PAGE_BYTES: usize = 4_096;

/// Why there is no content.
#[derive(Clone, Copy)]
pub(crate) enum ContentFault {
    /// The file is skipped.
    Skipped(SkipReason),
    /// There is no memory.
    Memory,
}

impl From<AllocError> for ContentFault {
    fn from(_error: AllocError) -> ContentFault {
        ContentFault::Memory
    }
}

/// The content of a file, of which a page of zeros takes no memory. It is read through a chunk, which has
/// at least one byte. `Unreadable` where the system doesn't let it be read, `Grown` where it has more than
/// so many bytes, `Memory`.
pub(crate) fn content_of<R: Files>(
    rt: &R,
    alloc: Global,
    chunk: &mut [u8],
    path: &str,
    most: usize,
) -> Result<Pages, ContentFault>
    requires { most ≤ max_content }
{
    match fs::open(rt, path) {
        Ok(mut file) => read_content(alloc, &mut file, chunk, most),
        Err(_) => Err(ContentFault::Skipped(SkipReason::Unreadable)),
    }
}

fn read_content<I: Read>(
    alloc: Global,
    file: &mut I,
    chunk: &mut [u8],
    most: usize,
) -> Result<Pages, ContentFault>
    requires { most ≤ max_content }
{
    let mut pages = Pages::zeros(alloc, 0);
    let mut len = 0;
    for _ in 0..u64::MAX {
        let n = read_some(file, chunk)?;
        if n == 0 {
            break;
        }
        len = append(&mut pages, len, most, &chunk[..n])?;
    }
    if len <= most {
        pages.set_len(len)?;
    }
    Ok(pages)
}

// How many bytes were read, none only at the end.
fn read_some<I: Read>(file: &mut I, chunk: &mut [u8]) -> Result<usize, ContentFault>
    ensures { IfOk result (λ n. n ≤ length chunk.new) }
{
    for _ in 0..u64::MAX {
        match file.read(chunk) {
            Err(error) if error.kind() == ErrorKind::Interrupted => {}
            Ok(n) => return Ok(n),
            Err(_) => break,
        }
    }
    Err(ContentFault::Skipped(SkipReason::Unreadable))
}

// Puts bytes after so many, page by page; how many there are then.
fn append(pages: &mut Pages, start: usize, most: usize, bytes: &[u8]) -> Result<usize, ContentFault>
    requires { most ≤ max_content }
{
    let mut len = start;
    for page in bytes.chunks(PAGE_BYTES) {
        if page.len() > most.saturating_sub(len) {
            return Err(ContentFault::Skipped(SkipReason::Grown));
        }
        if !is_zeros(page) {
            pages.put_at(len, page)?;
        }
        len = len.saturating_add(page.len());
    }
    Ok(len)
}

// Whether the first byte is zero, and each the one before it.
fn is_zeros(page: &[u8]) -> bool {
    match page.split_first() {
        Some((first, rest)) => *first == 0 && rest == &page[..rest.len()],
        None => true,
    }
}
