//! The bounds of a table.

/// The most volumes.
pub const MAX_VOLUMES: usize = 64;

/// The most patterns, those of all volumes together.
pub const MAX_PATTERNS: usize = 256;
