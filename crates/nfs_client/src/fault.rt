//! Why a call can't be written.
ghost use Rattle.std.specs.Prelude.{◌≡◌};

use std::alloc::AllocError;

/// A part of what is asked for.
#[derive(Clone, Copy, Debug, PartialEq, Eq)]
pub enum Part {
    /// The path that it is asked of.
    Path,
    /// A second path, or what a link is to hold.
    AfterPath,
    /// The bytes that are to be written.
    Bytes,
}

/// Why a call can't be written.
#[derive(Clone, Copy, Debug, PartialEq, Eq)]
pub enum CallFault {
    /// This path leads to no file, or to no directory that a name can be in.
    NoFile(Part),
    /// This part is too long.
    TooLong(Part),
    /// The digits of bytes say none.
    BadDigits,
    /// There is no memory.
    Memory,
}

impl From<AllocError> for CallFault {
    ghost use Rattle.nfs_client.specs.declared.fault.CallFault.TheVariants.{Memory};

    ghost from_gives = { λ _ e. e ≡ Memory };

    fn from(_error: AllocError) -> CallFault {
        CallFault::Memory
    }
}
