//! Where a journal is kept.
ghost use Rattle.std.specs.Prelude.{◌≡◌, ℕ, List, Option, Bool, false, true, OnOk, OnErr};
ghost use Rattle.nfs_xdr.specs.Known.{Grows, GrowsByPart, StaysFailed};

use nfs_xdr::device::DeviceFault;

/// What a journal is appended to.
pub trait JournalOut {
    /// The bytes that outlive the process, where they are known.
    ghost lasting: { Self → Option (List ℕ) };

    /// Whether a call answered the fault.
    ghost failed: { Self → Bool };

    /// Appends bytes, and answers once they outlive the process. At a fault some first ones may; from
    /// then on it takes none, so that nothing stands after a part of an entry.
    fn append(&mut self, bytes: &[u8]) -> Result<(), DeviceFault>
        ensures ok { OnOk result (Grows (lasting self.old) bytes.now (lasting self.new)) }
        ensures part { OnErr result (GrowsByPart (lasting self.old) bytes.now (lasting self.new)) }
        ensures alive { OnOk result ((failed self.old ≡ false) × (failed self.new ≡ false)) }
        ensures stays { StaysFailed (failed self.old) (lasting self.old) (failed self.new) (lasting self.new) }
        ensures fault { OnErr result (failed self.new ≡ true) };

    /// What it says of itself in numbers, which are only reported.
    fn figures(&self) -> JournalFigures;
}

/// What a journal says of itself in numbers.
#[derive(Clone, Copy, Debug, PartialEq, Eq)]
pub struct JournalFigures {
    /// How many bytes it has.
    pub bytes: u64,
    /// How often it was synced.
    pub syncs: u64,
    /// How many microseconds that took in all.
    pub sync_micros: u64,
}
