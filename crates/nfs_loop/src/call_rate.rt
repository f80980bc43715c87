//! How many calls come.
ghost use Rattle.std.specs.Prelude.{◌<◌};

// The seconds of a minute.
const MINUTE: u64 = 60;

/// How many calls had come when each of the last 60 seconds began, by the second's number.
#[derive(Clone, Copy)]
pub(crate) struct CallRate {
    totals: [u64; MINUTE as usize],
    // The second up to which they are known.
    second: u64,
}

impl CallRate {
    /// None, at second 0.
    pub(crate) fn new() -> CallRate {
        CallRate {
            totals: [0; MINUTE as usize],
            second: 0,
        }
    }

    /// Whether a second has begun of which nothing is known.
    pub(crate) fn is_behind(&self, second: u64) -> bool {
        second > self.second
    }

    /// Notes that so many calls had come when a second began, and each since the last one that is known.
    pub(crate) fn note(&mut self, second: u64, calls: u64) {
        let begun = second.saturating_sub(self.second).min(MINUTE);
        for before in 0..begun {
            self.totals[place_of(second.saturating_sub(before))] = calls;
        }
        self.second = second;
    }

    /// How many of so many calls came in the last 60 seconds, where the last one that is known is the present one.
    pub(crate) fn in_minute(&self, calls: u64) -> u64 {
        if self.second < MINUTE {
            return calls;
        }
        calls.saturating_sub(self.totals[place_of(self.second.saturating_add(1))])
    }

    /// How many seconds these are.
    pub(crate) fn minute(&self) -> u64 {
        self.second.min(MINUTE)
    }
}

// The place of a second.
fn place_of(second: u64) -> usize
    ensures { result < 60 }
{
    (second % MINUTE) as usize
}
