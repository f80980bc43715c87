//! The entry at which a journal is at fault.
ghost use Rattle.std.specs.Prelude.{◌≡◌, ◌+◌, ◌^◌, ◌<◌};

use crate::recovery::RecoveryFault;

/// The first entry of a journal that is at fault.
#[derive(Clone, Copy, Debug, PartialEq, Eq)]
pub struct BrokenEntry {
    /// Its number, from 1.
    pub entry: u64,
    /// Where its record mark begins in the journal.
    pub offset: u64,
    /// What is wrong with it.
    pub fault: RecoveryFault,
}

impl BrokenEntry {
    /// The entry after so many, of which the last ends at this offset.
    pub(crate) fn after(entries: u64, end: u64, fault: RecoveryFault) -> BrokenEntry
        requires { entries + 1 < 2 ^ 64 }
        ensures { result ≡ record { entry = entries + 1; offset = end; fault = fault } }
    {
        BrokenEntry {
            entry: entries + 1,
            offset: end,
            fault,
        }
    }
}
