//! The most bytes of what a result holds.

/// The most bytes of a handle (RFC 1813, section 2.4, NFS3_FHSIZE).
pub const MAX_HANDLE_BYTES: usize = 64;

/// The most bytes that a READ answers, and the most of a WRITE that the server speaks of (RFC 1813,
/// section 3.3.19, rtmax and wtmax).
pub const MAX_DATA_BYTES: usize = 131_072;

/// The most bytes of the path that READLINK answers, with its padding.
pub const MAX_PATH_BYTES: usize = 4_096;

/// The most bytes of what READDIR and READDIRPLUS answer after their status: attributes, verifier,
/// entries and what follows them (RFC 1813, section 3.3.16, `count`).
pub const MAX_PAGE_BYTES: usize = 65_536;
