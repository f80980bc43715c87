//! The content of a regular file, in pages, and in one vector where it is small.

use nfs_content::content::Content;
use nfs_content::limits::MAX_CONTENT_BYTES;
use nfs_content::pages::Pages;
use nfs_flat::flat::Flat;
use rows::answers::{debug_text, digits, text};
use rows::words::{bytes, size};
use std::alloc::Global;
use std::str::SplitWhitespace;

// The most bytes that are kept in one vector as well.
const MAX_FLAT_BYTES: usize = 16_777_216;

/// The same bytes, kept both ways; in pages alone since they were more than one vector is for.
#[derive(Drop)]
pub(crate) struct Contents {
    alloc: Global,
    pages: Pages,
    flat: Option<Flat>,
}

impl Contents {
    /// No bytes.
    pub(crate) fn new(alloc: Global) -> Contents {
        Contents {
            alloc,
            pages: Pages::zeros(alloc, 0),
            flat: Some(Flat::new(alloc)),
        }
    }

    /// `content new`, `content held`, and of both `content len`, `content run OFFSET`, `content bytes
    /// OFFSET COUNT`, `content put OFFSET BYTES` and `content size LEN`, whose answers have to be
    /// alike.
    pub(crate) fn answer(&mut self, words: &mut SplitWhitespace<'_>) -> Option<String> {
        match words.next()? {
            "new" => self.begin(),
            "held" => debug_text(self.alloc, self.pages.held()),
            "len" => self.len(),
            "bytes" => self.bytes(words),
            "put" => self.put(words),
            "size" => self.size(words),
            _ => None,
        }
    }

    fn begin(&mut self) -> Option<String> {
        self.pages = Pages::zeros(self.alloc, 0);
        self.flat = Some(Flat::new(self.alloc));
        text(self.alloc, "done")
    }

    fn len(&self) -> Option<String> {
        let len = self.pages.len();
        match &self.flat {
            Some(flat) if flat.len() != len => debug_text(self.alloc, (len, flat.len())),
            _ => debug_text(self.alloc, len),
        }
    }

    fn bytes(&self, words: &mut SplitWhitespace<'_>) -> Option<String> {
        let (offset, count) = (size(words)?, size(words)?);
        let paged = gathered(self.alloc, &self.pages, offset, count)?;
        if let Some(flat) = &self.flat {
            let whole = gathered(self.alloc, flat, offset, count)?;
            if paged.as_slice() != whole.as_slice() {
                return text(self.alloc, "not alike");
            }
        }
        digits(self.alloc, paged.as_slice())
    }

    fn put(&mut self, words: &mut SplitWhitespace<'_>) -> Option<String> {
        let offset = size(words)?;
        let new = bytes(self.alloc, words)?;
        if offset > MAX_CONTENT_BYTES || new.len() > MAX_CONTENT_BYTES - offset {
            return text(self.alloc, "too large");
        }
        self.keep_small(offset + new.len());
        self.pages.put_at(offset, new.as_slice()).ok()?;
        if let Some(flat) = &mut self.flat {
            flat.put_at(offset, new.as_slice()).ok()?;
        }
        text(self.alloc, "done")
    }

    fn size(&mut self, words: &mut SplitWhitespace<'_>) -> Option<String> {
        let len = size(words)?;
        if len > MAX_CONTENT_BYTES {
            return text(self.alloc, "too large");
        }
        self.keep_small(len);
        self.pages.set_len(len).ok()?;
        if let Some(flat) = &mut self.flat {
            flat.set_len(len).ok()?;
        }
        text(self.alloc, "done")
    }

    // No vector for so many bytes where they are too many for one.
    fn keep_small(&mut self, len: usize) {
        if len > MAX_FLAT_BYTES {
            self.flat = None;
        }
    }
}

// So many bytes from an offset on, as far as there are some, run by run.
fn gathered<C: Content>(
    alloc: Global,
    content: &C,
    offset: usize,
    count: usize,
) -> Option<Vec<u8>> {
    let mut all = Vec::new(alloc);
    for _ in 0..count {
        let run = content.run_at(offset.checked_add(all.len())?);
        let some = run.len().min(count.saturating_sub(all.len()));
        if some == 0 {
            break;
        }
        all.extend_from_slice(&run[..some]).ok()?;
    }
    Some(all)
}
