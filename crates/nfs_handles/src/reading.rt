//! What a handle reads as.
use crate::number::Number;

/// What the bytes of a handle say.
#[derive(Clone, Copy, Debug)]
pub enum Reading {
    /// The file of this number, which lives.
    Live(Number),
    /// A file that lived once, or one of another server: `NFS3ERR_STALE` (RFC 1813, section 2.6).
    Stale,
    /// No handle, or one that was never given: `NFS3ERR_BADHANDLE`.
    Bad,
}

/// Why a handle names no file.
#[derive(Clone, Copy, Debug, PartialEq)]
pub enum NoFile {
    /// It is of a file that lived once, or of another server: `NFS3ERR_STALE` (RFC 1813, section
    /// 2.6).
    Stale,
    /// It is no handle, or one that was never given: `NFS3ERR_BADHANDLE`.
    Bad,
}
