//! How large contents may be.

/// The most bytes of a content.
pub const MAX_CONTENT_BYTES: usize = 1_099_511_627_776;
/// The bytes of a page.
pub const PAGE_BYTES: usize = 4_096;
// The pages of a row.
pub(crate) const ROW_PAGES: usize = 64;
// The most rows of a block.
pub(crate) const BLOCK_ROWS: usize = 4_096;
// The pages of a block, 1 GiB.
pub(crate) const BLOCK_PAGES: usize = BLOCK_ROWS * ROW_PAGES;
