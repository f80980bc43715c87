//! The pages of a content: the first alone, those of the first block in rows, or any in blocks.
ghost use Rattle.std.specs.Prelude.{◌≡◌, ◌+◌, ◌<◌, ◌≤◌, ◌∷◌, [], IfOk, OnErr, OnOk, length, take, vec_capacity};
ghost use Rattle.nfs_content.specs.Limits.{block_rows, page_bytes};
ghost use Rattle.nfs_content.specs.Paged.{far, far_room, items_at, kept, room, room_at, Keeps, MoreRoom, Puts, SameElsewhere, SamePages};
ghost use Rattle.nfs_content.specs.Tables.{pages_of, room_of};

use crate::blocks::{
    Block, far_page_at, held_far, keep_far, make_far_room, put_in_far, shorten_far,
};
use crate::limits::{BLOCK_PAGES, BLOCK_ROWS};
use crate::page::{put_into, widen};
use crate::rows::{Row, held, keep, make_room, page_at, put_in, shorten};
use std::alloc::{AllocError, Global};
use std::mem::replace;

/// Pages by their places. A content of one page needs no rows, and one of up to 1 GiB no blocks.
#[derive(Drop)]
pub(crate) enum PageTable {
    /// The first page.
    One(Vec<u8>),
    /// Pages in the rows of one block.
    Rows(Vec<Row>),
    /// Pages in blocks.
    Blocks(Vec<Block>),
}

impl PageTable {
    /// The bytes that are kept of a page.
    #[inline(always)]
    pub(crate) fn page_at(&self, place: usize) -> &[u8]
        ensures { result.now ≡ pages_of self.now place }
    {
        match self {
            PageTable::One(page) if place == 0 => page.as_slice(),
            PageTable::One(_) => &[],
            PageTable::Rows(rows) => page_at(rows.as_slice(), place),
            PageTable::Blocks(blocks) => far_page_at(blocks.as_slice(), place),
        }
    }

    /// Room for so many bytes of a page. Refused without memory.
    pub(crate) fn make_room(
        &mut self,
        alloc: Global,
        place: usize,
        size: usize,
    ) -> Result<(), AllocError>
        requires { size ≤ page_bytes }
        ensures ok { OnOk result (size ≤ room_of self.new place) }
        ensures same { SamePages (pages_of self.old) (pages_of self.new) }
        ensures room { MoreRoom (room_of self.old) (room_of self.new) }
    {
        match self {
            PageTable::One(page) if place == 0 => widen(page, size),
            PageTable::One(page) => {
                let (table, made) = grown(alloc, in_rows(alloc, page)?, place, size);
                *self = table;
                made
            }
            PageTable::Rows(rows) if place < BLOCK_PAGES => make_room(rows, alloc, place, size),
            PageTable::Rows(rows) => {
                let (table, made) = grown(alloc, replace(rows, Vec::new(alloc)), place, size);
                *self = table;
                made
            }
            PageTable::Blocks(blocks) => make_far_room(blocks, alloc, place, size),
        }
    }

    /// Puts bytes into a page that has room for them, at least one.
    pub(crate) fn put_in(&mut self, place: usize, at: usize, bytes: &[u8])
        requires some { 0 < length bytes.now }
        requires room { at + length bytes.now ≤ room_of self.old place }
        ensures here { Puts (pages_of self.old place) at bytes.now (pages_of self.new place) }
        ensures elsewhere { SameElsewhere (pages_of self.old) place (pages_of self.new) }
        ensures room { MoreRoom (room_of self.old) (room_of self.new) }
    {
        match self {
            PageTable::One(page) => put_into(page, at, bytes),
            PageTable::Rows(rows) => put_in(rows, place, at, bytes),
            PageTable::Blocks(blocks) => put_in_far(blocks, place, at, bytes),
        }
    }

    /// The first so many pages are kept, and none after them.
    pub(crate) fn keep(&mut self, count: usize)
        ensures { Keeps (pages_of self.old) count (pages_of self.new) }
    {
        match self {
            PageTable::One(_) if count > 0 => {}
            PageTable::One(page) => page.truncate(0),
            PageTable::Rows(rows) => keep(rows, count),
            PageTable::Blocks(blocks) => keep_far(blocks, count),
        }
    }

    /// Of a page the first so many bytes are kept.
    pub(crate) fn shorten(&mut self, place: usize, len: usize)
        ensures here { pages_of self.new place ≡ take len (pages_of self.old place) }
        ensures elsewhere { SameElsewhere (pages_of self.old) place (pages_of self.new) }
    {
        match self {
            PageTable::One(page) if place == 0 => page.truncate(len),
            PageTable::One(_) => {}
            PageTable::Rows(rows) => shorten(rows, place, len),
            PageTable::Blocks(blocks) => shorten_far(blocks, place, len),
        }
    }

    /// How many pages are kept.
    pub(crate) fn held(&self) -> usize {
        match self {
            PageTable::One(page) => usize::from(!page.is_empty()),
            PageTable::Rows(rows) => held(rows.as_slice()),
            PageTable::Blocks(blocks) => held_far(blocks.as_slice()),
        }
    }
}

// The first page, moved into rows. Refused without memory, and then it stays.
fn in_rows(alloc: Global, page: &mut Vec<u8>) -> Result<Vec<Row>, AllocError>
    ensures same { IfOk result (λ rows. SamePages (items_at (page.old ∷ [])) (kept rows.items)) }
    ensures room { IfOk result (λ rows. MoreRoom (room_at (page.old ∷ [])) (room rows.items)) }
    ensures err { OnErr result (page.new ≡ page.old) }
{
    let mut row = Vec::with_capacity(alloc, 1)?;
    let mut rows = Vec::with_capacity(alloc, 1)?;
    row.push(replace(page, Vec::new(alloc))).unwrap();
    rows.push(row).unwrap();
    Ok(rows)
}

// Rows with room for so many bytes of a page. They become the first block where the page lies in
// another; more rows than a block has, which nothing makes, stay rows. The room is refused without
// memory; the pages are the same in any case.
#[inline(never)]
fn grown(
    alloc: Global,
    mut rows: Vec<Row>,
    place: usize,
    size: usize,
) -> (PageTable, Result<(), AllocError>)
    requires { size ≤ page_bytes }
    ensures ok { OnOk result.1 (size ≤ room_of result.0 place) }
    ensures same { SamePages (kept rows.items) (pages_of result.0) }
    ensures room { MoreRoom (room rows.items) (room_of result.0) }
{
    if place < BLOCK_PAGES || rows.len() > BLOCK_ROWS {
        let made = make_room(&mut rows, alloc, place, size);
        return (PageTable::Rows(rows), made);
    }
    match Vec::with_capacity(alloc, 1) {
        Ok(none) => {
            let mut blocks = one_block(none, rows);
            let made = make_far_room(&mut blocks, alloc, place, size);
            (PageTable::Blocks(blocks), made)
        }
        Err(error) => (PageTable::Rows(rows), Err(error)),
    }
}

// The rows as the first block, in a list that has room for it.
fn one_block(mut blocks: Vec<Block>, rows: Block) -> Vec<Block>
    requires none { blocks.items ≡ [] }
    requires room { 0 < vec_capacity blocks }
    requires few { length rows.items ≤ block_rows }
    ensures same { SamePages (kept rows.items) (far result.items) }
    ensures room { MoreRoom (room rows.items) (far_room result.items) }
{
    blocks.push(rows).unwrap();
    blocks
}
