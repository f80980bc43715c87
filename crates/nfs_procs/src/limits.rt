//! The bounds of what procedures move, and what they report of them.

use nfs_args::limits::MAX_DATA_BYTES;

/// The most bytes of one READ, and the most of a WRITE that the server speaks of.
pub const MAX_TRANSFER: u32 = MAX_DATA_BYTES as u32;

/// What the bytes of a READ or a WRITE had better be a multiple of.
pub const TRANSFER_MULTIPLE: u32 = 4_096;

/// The best length of a page of a directory.
pub const PREFERRED_PAGE: u32 = 8_192;

/// The verifier of cookies (RFC 1813, section 3.3.16, cookieverf): always the same, since no cookie is
/// used again.
pub const COOKIE_VERIFIER: u64 = 0;
