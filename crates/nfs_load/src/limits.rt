//! The limits of a description's fields, beside those of the tree.

/// The most bytes of a path.
pub const MAX_PATH_BYTES: usize = 1_024;

/// The most digits of a mode.
pub const MAX_MODE_DIGITS: usize = 4;

/// The largest number of a user or a group.
pub const MAX_ID: u64 = 4_294_967_295;
