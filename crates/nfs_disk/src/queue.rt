//! What was found, taken one by one.
ghost use Rattle.std.specs.Prelude.{◌≡◌, List, [], ◌∷◌, drop, reverse, MatchOption};
ghost use Rattle.nfs_disk.specs.declared.found.Found.{Found};

use crate::found::Found;
use std::marker::Model;

// After how many that are taken their memory is given back.
const GIVEN_BACK: usize = 65_536;

/// What was found, as far as it was not taken, in its order.
#[derive(Drop)]
pub(crate) struct FoundQueue {
    // The next one is the last.
    left: Vec<Found>,
}

impl Model for FoundQueue {
    ghost Value = { List Found };

    ghost view = { λ it. reverse it.left.items };
}

impl FoundQueue {
    /// Nothing was taken.
    pub(crate) fn new(found: Vec<Found>) -> FoundQueue
        ensures { result ≡ found.items }
    {
        let mut left = found;
        left.reverse();
        FoundQueue { left }
    }

    /// Takes the next one.
    pub(crate) fn pop(&mut self) -> Option<Found>
        ensures next { MatchOption result (self.old ≡ []) (λ one. self.old ≡ one ∷ self.new) }
        ensures rest { self.new ≡ drop 1 self.old }
    {
        let next = self.left.pop();
        if self.left.len() % GIVEN_BACK == 0 {
            self.left.shrink_to_fit();
        }
        next
    }
}
