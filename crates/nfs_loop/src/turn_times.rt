//! How long turns took.
ghost use Rattle.std.specs.Prelude.{◌≤◌};

// How many bounds there are.
const BOUNDS: usize = 6;

/// How many microseconds a turn may take that counts below each bound, from the lowest on.
pub const TURN_BOUNDS: [u64; BOUNDS] = [10, 100, 1_000, 10_000, 100_000, 1_000_000];

/// How long turns took.
#[derive(Clone, Copy, Debug, PartialEq, Eq)]
pub struct TurnTimes {
    // How many were within each bound and not within the one before it, and last those beyond all.
    turns: [u64; BOUNDS + 1],
    micros: u64,
}

impl TurnTimes {
    /// None was taken.
    pub(crate) fn none() -> TurnTimes {
        TurnTimes {
            turns: [0; BOUNDS + 1],
            micros: 0,
        }
    }

    /// One more took so many microseconds.
    pub(crate) fn add(&mut self, micros: u64) {
        let place = place_of(micros);
        self.turns[place] = self.turns[place].saturating_add(1);
        self.micros = self.micros.saturating_add(micros);
    }

    /// How many took no longer than a bound, by its place in `TURN_BOUNDS`; all of them, for a place beyond these.
    pub fn within(&self, place: usize) -> u64 {
        let mut turns = 0u64;
        for counted in self.turns.iter().take(place.saturating_add(1)) {
            turns = turns.saturating_add(*counted);
        }
        turns
    }

    /// How many microseconds they took together.
    pub fn micros(&self) -> u64 {
        self.micros
    }
}

// The place of the first bound that a turn of so many microseconds doesn't exceed, or after all of them.
fn place_of(micros: u64) -> usize
    ensures { result ≤ 6 }
{
    for (place, bound) in TURN_BOUNDS.iter().enumerate() {
        if micros <= *bound {
            return place.min(BOUNDS);
        }
    }
    BOUNDS
}
