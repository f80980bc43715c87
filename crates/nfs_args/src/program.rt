//! The numbers of the programs, and their version.

/// The program number of NFS (RFC 1813, section 2.1).
pub const NFS_PROGRAM: u32 = 100_003;

/// The program number of MOUNT (RFC 1813, appendix I).
pub const MOUNT_PROGRAM: u32 = 100_005;

/// The version of both programs.
pub const PROGRAM_VERSION: u32 = 3;
