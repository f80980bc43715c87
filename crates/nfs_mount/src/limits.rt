//! The bounds of the mount list, and of the results of MOUNT.

/// The most pairs of the mount list.
pub const MAX_MOUNTS: usize = 1_024;

/// The most bytes of the result of MNT: its status, a handle with its length, and a list of one
/// flavor.
pub const MAX_MOUNT_BYTES: usize = 40;

/// The most bytes of the result of DUMP: for each pair a word, an address of at most 15 bytes and a
/// path of at most 255, each with its length and its padding, and a word after them.
pub const MAX_DUMP_BYTES: usize = 290_820;

/// The most bytes of the result of EXPORT: for each of 64 volumes two words and a path of at most 255
/// bytes, for each of 256 patterns a word and its text of at most 18 bytes, each with its length and
/// its padding, and a word after them.
pub const MAX_EXPORT_BYTES: usize = 24_324;
