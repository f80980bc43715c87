//! Contents without memory.
ghost use Rattle.std.specs.Prelude.{◌+◌, ◌≤◌};
ghost use Rattle.nfs_content.specs.Limits.{max_content};

use crate::flat::Flat;
use ballast::Ballast;
use nfs_content::content::Content;
use nfs_content::limits::MAX_CONTENT_BYTES;
use nfs_content::pages::Pages;
use std::alloc::{AllocError, Global};
use std::test::Fail;

// More rounds than there are blocks of ballast.
const ROUNDS: u32 = 200_000;

// Where bytes go over the end of a page.
const OVER_A_PAGE: usize = 8_100;

// Whether a content is still what it was before the call that was refused.
fn is_hello<C: Content>(content: &C) -> bool {
    content.len() == 5 && content.run_at(0) == b"hello".as_slice()
}

// How often 200 bytes after a gap were refused until they were put; none where they never were, or a
// refusal changed something.
fn refusals<C: Content>(
    alloc: Global,
    content: &mut C,
    offset: usize,
) -> Result<Option<u32>, AllocError>
    requires { offset + 200 ≤ max_content }
{
    content.put_at(0, b"hello")?;
    let bytes = [7; 200];
    let mut ballast = Ballast::new(alloc)?;
    for refused in 0..ROUNDS {
        if content.put_at(offset, &bytes).is_ok() {
            return Ok(Some(refused));
        }
        if !is_hello(content) || !ballast.lighten() {
            return Ok(None);
        }
    }
    Ok(None)
}

#[test]
fn refused_bytes_leave_pages(rt: HostRuntime) -> Result<(), Fail> {
    let mut pages = Pages::zeros(rt.alloc(), 0);
    let refused = refusals(rt.alloc(), &mut pages, OVER_A_PAGE)?;
    assert!(rt; refused.is_some_and(|count| count > 0) && pages.len() == 8_300);
    Ok(())
}

#[test]
fn refused_bytes_at_the_far_end_leave_pages(rt: HostRuntime) -> Result<(), Fail> {
    let mut pages = Pages::zeros(rt.alloc(), 0);
    let refused = refusals(rt.alloc(), &mut pages, MAX_CONTENT_BYTES - 200)?;
    assert!(rt; refused.is_some_and(|count| count > 0) && pages.len() == MAX_CONTENT_BYTES);
    Ok(())
}

#[test]
fn refused_bytes_leave_a_vector(rt: HostRuntime) -> Result<(), Fail> {
    let mut flat = Flat::new(rt.alloc());
    let refused = refusals(rt.alloc(), &mut flat, OVER_A_PAGE)?;
    assert!(rt; refused.is_some_and(|count| count > 0) && flat.len() == 8_300);
    Ok(())
}
