//! How often numbers come.
ghost use Rattle.std.specs.Prelude.{ℕ, List, [], ◌∷◌, OnOk};
ghost use Rattle.nfs_disk.specs.Tallies.{Counts};

use std::alloc::{AllocError, Global};
use std::collections::BTreeMap;

/// How often each of some numbers came.
#[derive(Drop)]
pub(crate) struct Tally {
    counts: BTreeMap<u128, u64>,
    /// How often that came which came most often.
    pub(crate) most: u64,
}

impl Tally {
    /// No number came.
    pub(crate) fn new(alloc: Global) -> Tally
        ensures { Counts result [] }
    {
        Tally {
            counts: BTreeMap::new(alloc),
            most: 0,
        }
    }

    /// Counts a number once more.
    pub(crate) fn add(&mut self, number: u128) -> Result<(), AllocError>
        ensures { OnOk result ((before : List ℕ) → Counts self.old before → Counts self.new (number ∷ before)) }
    {
        let count = match self.counts.get(&number) {
            Some(count) => count.saturating_add(1),
            None => 1,
        };
        self.counts.insert(number, count)?;
        self.most = self.most.max(count);
        Ok(())
    }
}
