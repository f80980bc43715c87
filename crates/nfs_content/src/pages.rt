//! Contents in pages: what was never written takes no memory.
ghost use Rattle.std.specs.Prelude.{◌≡◌, ◌≤◌, IfOk, length};
ghost use Rattle.nfs_content.specs.Bytes.{zeros};
ghost use Rattle.nfs_content.specs.Limits.{max_content, page_bytes};

use crate::chunks::{cut, hold, put};
use crate::content::Content;
use crate::limits::PAGE_BYTES;
use crate::page_table::PageTable;
use std::alloc::{AllocError, Global};
use std::marker::Model;

// A page that was never written.
static ZEROS: [u8; PAGE_BYTES] = [0; PAGE_BYTES];

/// Bytes in pages of 4,096. Of a page its first bytes are kept, up to the last that was written; a
/// hole takes none, and a content of one page no rows.
#[derive(Drop)]
pub struct Pages {
    alloc: Global,
    table: PageTable,
    len: usize,
}

impl Model for Pages {
    ghost use Rattle.std.specs.Prelude.{ℕ, List};
    ghost use Rattle.nfs_content.specs.Paged.{shown, IsPaged};
    ghost use Rattle.nfs_content.specs.Tables.{pages_of};

    ghost Value = { List ℕ };

    ghost view = { λ p. shown (pages_of p.table) p.len };

    ghost invariant = { λ p. IsPaged (pages_of p.table) p.len };
}

impl Pages {
    /// So many zeros, in no page.
    pub fn zeros(alloc: Global, len: usize) -> Pages
        ensures { result ≡ zeros len }
    {
        Pages {
            alloc,
            table: PageTable::One(Vec::new(alloc)),
            len,
        }
    }

    /// These bytes, at most 1,099,511,627,776. Refused without memory.
    pub fn of(alloc: Global, mut bytes: Vec<u8>) -> Result<Pages, AllocError>
        requires { length bytes.items ≤ max_content }
        ensures { IfOk result (λ pages. pages ≡ bytes.items) }
    {
        if bytes.len() > PAGE_BYTES {
            let mut pages = Pages::zeros(alloc, 0);
            pages.put_at(0, bytes.as_slice())?;
            return Ok(pages);
        }
        bytes.shrink_to_fit();
        let len = bytes.len();
        let table = PageTable::One(bytes);
        Ok(Pages { alloc, table, len })
    }

    /// How many pages are kept.
    pub fn held(&self) -> usize {
        self.table.held()
    }
}

impl Content for Pages {
    ghost bytes = { λ p. p };

    #[inline(always)]
    fn len(&self) -> usize {
        self.len
    }

    fn run_at(&self, offset: usize) -> &[u8] {
        if offset >= self.len {
            return &[];
        }
        let first = offset % PAGE_BYTES;
        let most = (self.len - offset).min(PAGE_BYTES - first);
        let page = self.table.page_at(offset / PAGE_BYTES);
        if first < page.len() {
            &page[first..page.len().min(first + most)]
        } else {
            unwritten(most)
        }
    }

    fn put_at(&mut self, offset: usize, new: &[u8]) -> Result<(), AllocError> {
        if new.is_empty() {
            return Ok(());
        }
        let end = offset + new.len();
        hold(&mut self.table, self.alloc, offset, end)?;
        put(&mut self.table, offset, new);
        self.len = self.len.max(end);
        Ok(())
    }

    fn set_len(&mut self, len: usize) -> Result<(), AllocError> {
        if len == 0 {
            *self = Pages::zeros(self.alloc, 0);
            return Ok(());
        }
        if len < self.len {
            cut(&mut self.table, len);
            self.len = len;
            return Ok(());
        }
        self.len = len;
        Ok(())
    }
}

// So many bytes of a page that was never written.
fn unwritten(len: usize) -> &'static [u8]
    requires { len ≤ page_bytes }
    ensures { result.now ≡ zeros len }
{
    &ZEROS[..len]
}
