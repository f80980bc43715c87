//! One page: its bytes up to the last that was written.
ghost use Rattle.std.specs.Prelude.{◌≡◌, ◌+◌, ◌≤◌, ℕ, OnOk, length, max, slice_index_or, vec_capacity, vec_len};
ghost use Rattle.nfs_content.specs.Limits.{page_bytes};
ghost use Rattle.nfs_content.specs.Paged.{Puts};

use crate::limits::PAGE_BYTES;
use std::alloc::AllocError;

/// Room for so many bytes: twice as much as there was, so that small chunks don't move a page each
/// time, but never more than for a whole page. Refused without memory.
pub(crate) fn widen(page: &mut Vec<u8>, size: usize) -> Result<(), AllocError>
    requires { size ≤ page_bytes }
    ensures ok { OnOk result (size ≤ vec_capacity page.new) }
    ensures same { page.new.items ≡ page.old.items }
    ensures room { vec_capacity page.old ≤ vec_capacity page.new }
    ensures most { vec_capacity page.new ≤ max (vec_capacity page.old) page_bytes }
{
    let old = page.capacity();
    if size <= old {
        return Ok(());
    }
    let wanted = size.max(old.saturating_mul(2).min(PAGE_BYTES));
    page.reserve_exact(wanted - page.len())
}

/// Puts bytes at a place that there is room up to, zeros in a gap before them.
pub(crate) fn put_into(page: &mut Vec<u8>, at: usize, bytes: &[u8])
    requires { at + length bytes.now ≤ vec_capacity page.old }
    ensures puts { Puts page.old.items at bytes.now page.new.items }
    ensures room { vec_capacity page.old ≤ vec_capacity page.new }
{
    reach(page, at);
    let over = bytes.len().min(page.len() - at);
    overwrite(page, at, &bytes[..over]);
    page.extend_from_slice(&bytes[over..]).unwrap();
}

// Zeros up to a place that there is room up to, where the page is shorter.
fn reach(page: &mut Vec<u8>, at: usize)
    requires { at ≤ vec_capacity page.old }
    ensures len { vec_len page.new ≡ max (vec_len page.old) at }
    ensures same { (i : ℕ) → slice_index_or page.new.items i 0 ≡ slice_index_or page.old.items i 0 }
    ensures room { vec_capacity page.old ≤ vec_capacity page.new }
{
    if page.len() < at {
        page.resize(at, 0).unwrap();
    }
}

// Puts bytes over others of a page.
fn overwrite(page: &mut Vec<u8>, at: usize, bytes: &[u8])
    requires { at + length bytes.now ≤ vec_len page.old }
    ensures puts { Puts page.old.items at bytes.now page.new.items }
    ensures len { vec_len page.new ≡ vec_len page.old }
    ensures room { vec_capacity page.new ≡ vec_capacity page.old }
{
    let place = &mut page[at..at + bytes.len()];
    place.copy_from_slice(bytes);
}
