//! Rows of pages in blocks of 4,096 rows, so that a place very far after takes little memory.
ghost use Rattle.std.specs.Prelude.{◌≡◌, ◌+◌, ◌<◌, ◌≤◌, OnOk, length, take};
ghost use Rattle.nfs_content.specs.Limits.{page_bytes};
ghost use Rattle.nfs_content.specs.Paged.{far, far_room, Keeps, MoreRoom, Puts, SameElsewhere, SamePages};

use crate::limits::BLOCK_PAGES;
use crate::rows::{Row, held, keep, lengthen, list_at, make_room, page_at, put_in, shorten};
use std::alloc::{AllocError, Global};

/// Up to 4,096 rows, one after another.
pub(crate) type Block = Vec<Row>;

/// The bytes that are kept of a page.
#[inline(never)]
pub(crate) fn far_page_at(blocks: &[Block], place: usize) -> &[u8]
    ensures { result.now ≡ far blocks.now place }
{
    page_at(list_at(blocks, place / BLOCK_PAGES), place % BLOCK_PAGES)
}

/// Room for so many bytes of a page. Refused without memory.
#[inline(never)]
pub(crate) fn make_far_room(
    blocks: &mut Vec<Block>,
    alloc: Global,
    place: usize,
    size: usize,
) -> Result<(), AllocError>
    requires { size ≤ page_bytes }
    ensures ok { OnOk result (size ≤ far_room blocks.new.items place) }
    ensures same { SamePages (far blocks.old.items) (far blocks.new.items) }
    ensures room { MoreRoom (far_room blocks.old.items) (far_room blocks.new.items) }
{
    lengthen(blocks, alloc, place / BLOCK_PAGES + 1)?;
    make_room(
        &mut blocks[place / BLOCK_PAGES],
        alloc,
        place % BLOCK_PAGES,
        size,
    )
}

/// Puts bytes into a page that has room for them, at least one.
#[inline(never)]
pub(crate) fn put_in_far(blocks: &mut Vec<Block>, place: usize, at: usize, bytes: &[u8])
    requires some { 0 < length bytes.now }
    requires room { at + length bytes.now ≤ far_room blocks.old.items place }
    ensures here { Puts (far blocks.old.items place) at bytes.now (far blocks.new.items place) }
    ensures elsewhere { SameElsewhere (far blocks.old.items) place (far blocks.new.items) }
    ensures room { MoreRoom (far_room blocks.old.items) (far_room blocks.new.items) }
{
    put_in(
        &mut blocks[place / BLOCK_PAGES],
        place % BLOCK_PAGES,
        at,
        bytes,
    );
}

/// The first so many pages are kept, and none after them.
pub(crate) fn keep_far(blocks: &mut Vec<Block>, count: usize)
    ensures { Keeps (far blocks.old.items) count (far blocks.new.items) }
{
    let (whole, rest) = (count / BLOCK_PAGES, count % BLOCK_PAGES);
    if rest == 0 {
        blocks.truncate(whole);
        return;
    }
    blocks.truncate(whole + 1);
    if whole < blocks.len() {
        keep(&mut blocks[whole], rest);
    }
}

/// Of a page the first so many bytes are kept.
pub(crate) fn shorten_far(blocks: &mut Vec<Block>, place: usize, len: usize)
    ensures here { far blocks.new.items place ≡ take len (far blocks.old.items place) }
    ensures elsewhere { SameElsewhere (far blocks.old.items) place (far blocks.new.items) }
{
    if place / BLOCK_PAGES < blocks.len() {
        shorten(&mut blocks[place / BLOCK_PAGES], place % BLOCK_PAGES, len);
    }
}

/// How many pages are kept.
pub(crate) fn held_far(blocks: &[Block]) -> usize {
    let mut count: usize = 0;
    for rows in blocks {
        count = count.saturating_add(held(rows.as_slice()));
    }
    count
}
