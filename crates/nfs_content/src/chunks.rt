//! Bytes that go over the ends of pages, page by page.
ghost use Rattle.std.specs.Prelude.{◌+◌, ◌<◌, ◌≤◌, OnOk, length};
ghost use Rattle.nfs_content.specs.Limits.{max_content};
ghost use Rattle.nfs_content.specs.Paged.{AreShort, Cuts, Holds, SamePages, Writes};
ghost use Rattle.nfs_content.specs.Tables.{pages_of, room_of};

use crate::limits::PAGE_BYTES;
use crate::page_table::PageTable;
use std::alloc::{AllocError, Global};

/// Room for the bytes from one on and before another, at least one. Refused without memory; the
/// pages are the same in any case.
pub(crate) fn hold(
    table: &mut PageTable,
    alloc: Global,
    start: usize,
    end: usize,
) -> Result<(), AllocError>
    requires some { start < end }
    requires large { end ≤ max_content }
    ensures ok { OnOk result (Holds (room_of table.new) start end) }
    ensures same { SamePages (pages_of table.old) (pages_of table.new) }
{
    let last = (end - 1) / PAGE_BYTES;
    for place in start / PAGE_BYTES..last + 1 {
        let size = (end - place * PAGE_BYTES).min(PAGE_BYTES);
        table.make_room(alloc, place, size)?;
    }
    Ok(())
}

/// Puts bytes at an offset, at least one, where there is room for them.
pub(crate) fn put(table: &mut PageTable, offset: usize, bytes: &[u8])
    requires some { 0 < length bytes.now }
    requires large { offset + length bytes.now ≤ max_content }
    requires short { AreShort (pages_of table.old) }
    requires held { Holds (room_of table.old) offset (offset + length bytes.now) }
    ensures writes { Writes (pages_of table.old) offset bytes.now (pages_of table.new) }
    ensures short { AreShort (pages_of table.new) }
{
    let end = offset + bytes.len();
    let last = (end - 1) / PAGE_BYTES;
    for place in offset / PAGE_BYTES..last + 1 {
        let first = place * PAGE_BYTES;
        let start = first.max(offset);
        let stop = end.min(first + PAGE_BYTES);
        table.put_in(place, start - first, &bytes[start - offset..stop - offset]);
    }
}

/// The first so many bytes are kept, and none after them.
pub(crate) fn cut(table: &mut PageTable, len: usize)
    requires { AreShort (pages_of table.old) }
    ensures cuts { Cuts (pages_of table.old) len (pages_of table.new) }
    ensures short { AreShort (pages_of table.new) }
{
    let (whole, rest) = (len / PAGE_BYTES, len % PAGE_BYTES);
    if rest == 0 {
        table.keep(whole);
        return;
    }
    table.keep(whole + 1);
    table.shorten(whole, rest);
}
