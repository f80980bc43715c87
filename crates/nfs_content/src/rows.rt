//! Pages by their places, in rows of 64, so that a place far after takes little memory.
ghost use Rattle.std.specs.Prelude.{◌≡◌, ◌+◌, ◌<◌, ◌≤◌, OnOk, length, take, vec_len};
ghost use Rattle.nfs_content.specs.Limits.{page_bytes, row_pages};
ghost use Rattle.nfs_content.specs.Paged.{items_at, kept, room, room_at, Keeps, MoreRoom, Puts, SameElsewhere, SamePages, Widens};

use crate::limits::ROW_PAGES;
use crate::page::{put_into, widen};
use std::alloc::{AllocError, Global};

/// Some pages, one after another.
pub(crate) type Row = Vec<Vec<u8>>;

/// The bytes that are kept of a page.
#[inline(always)]
pub(crate) fn page_at(rows: &[Row], place: usize) -> &[u8]
    ensures { result.now ≡ kept rows.now place }
{
    list_at(list_at(rows, place / ROW_PAGES), place % ROW_PAGES)
}

/// The list at a place, an empty one where there is no such place.
#[inline(always)]
pub(crate) fn list_at<T>(lists: &[Vec<T>], place: usize) -> &[T]
    ensures { result.now ≡ items_at lists.now place }
{
    match lists.get(place) {
        Some(list) => list.as_slice(),
        None => &[],
    }
}

/// Room for so many bytes of a page. Refused without memory.
pub(crate) fn make_room(
    rows: &mut Vec<Row>,
    alloc: Global,
    place: usize,
    size: usize,
) -> Result<(), AllocError>
    requires { size ≤ page_bytes }
    ensures ok { OnOk result (size ≤ room rows.new.items place) }
    ensures same { SamePages (kept rows.old.items) (kept rows.new.items) }
    ensures room { MoreRoom (room rows.old.items) (room rows.new.items) }
{
    lengthen(rows, alloc, place / ROW_PAGES + 1)?;
    make_room_in(&mut rows[place / ROW_PAGES], alloc, place % ROW_PAGES, size)
}

// Room for so many bytes of a page in a row.
fn make_room_in(row: &mut Row, alloc: Global, at: usize, size: usize) -> Result<(), AllocError>
    requires place { at < row_pages }
    requires size { size ≤ page_bytes }
    ensures ok { OnOk result (size ≤ room_at row.new.items at) }
    ensures same { Widens row.old.items row.new.items }
{
    lengthen(row, alloc, at + 1)?;
    widen(&mut row[at], size)
}

/// There are so many lists, empty ones after those that were there.
pub(crate) fn lengthen<T: Drop>(
    lists: &mut Vec<Vec<T>>,
    alloc: Global,
    count: usize,
) -> Result<(), AllocError>
    ensures ok { OnOk result (count ≤ vec_len lists.new) }
    ensures same { Widens lists.old.items lists.new.items }
{
    for place in lists.len()..count {
        lists.push(Vec::new(alloc))?;
    }
    Ok(())
}

/// Puts bytes into a page that has room for them, at least one.
pub(crate) fn put_in(rows: &mut Vec<Row>, place: usize, at: usize, bytes: &[u8])
    requires some { 0 < length bytes.now }
    requires room { at + length bytes.now ≤ room rows.old.items place }
    ensures here { Puts (kept rows.old.items place) at bytes.now (kept rows.new.items place) }
    ensures elsewhere { SameElsewhere (kept rows.old.items) place (kept rows.new.items) }
    ensures room { MoreRoom (room rows.old.items) (room rows.new.items) }
{
    put_in_row(&mut rows[place / ROW_PAGES], place % ROW_PAGES, at, bytes);
}

// Puts bytes into a page of a row that has room for them, at least one.
fn put_in_row(row: &mut Row, place: usize, at: usize, bytes: &[u8])
    requires some { 0 < length bytes.now }
    requires room { at + length bytes.now ≤ room_at row.old.items place }
    ensures here { Puts (items_at row.old.items place) at bytes.now (items_at row.new.items place) }
    ensures elsewhere { SameElsewhere (items_at row.old.items) place (items_at row.new.items) }
    ensures room { MoreRoom (room_at row.old.items) (room_at row.new.items) }
{
    put_into(&mut row[place], at, bytes);
}

/// The first so many pages are kept, and none after them.
pub(crate) fn keep(rows: &mut Vec<Row>, count: usize)
    ensures { Keeps (kept rows.old.items) count (kept rows.new.items) }
{
    let (whole, rest) = (count / ROW_PAGES, count % ROW_PAGES);
    if rest == 0 {
        rows.truncate(whole);
        return;
    }
    rows.truncate(whole + 1);
    if whole < rows.len() {
        rows[whole].truncate(rest);
    }
}

/// Of a page the first so many bytes are kept.
pub(crate) fn shorten(rows: &mut Vec<Row>, place: usize, len: usize)
    ensures here { kept rows.new.items place ≡ take len (kept rows.old.items place) }
    ensures elsewhere { SameElsewhere (kept rows.old.items) place (kept rows.new.items) }
{
    if place / ROW_PAGES < rows.len() {
        shorten_in(&mut rows[place / ROW_PAGES], place % ROW_PAGES, len);
    }
}

// Of a page in a row the first so many bytes are kept.
fn shorten_in(row: &mut Row, at: usize, len: usize)
    ensures here { items_at row.new.items at ≡ take len (items_at row.old.items at) }
    ensures elsewhere { SameElsewhere (items_at row.old.items) at (items_at row.new.items) }
{
    if at < row.len() {
        row[at].truncate(len);
    }
}

/// How many pages are kept.
pub(crate) fn held(rows: &[Row]) -> usize {
    let mut count: usize = 0;
    for row in rows {
        count = count.saturating_add(row.iter().filter(|page| !page.is_empty()).count());
    }
    count
}
