//! How many bytes a connection brings and takes.
ghost use Rattle.std.specs.Prelude.{◌≡◌, ◌+◌, ◌-◌, ◌^◌, min};

/// How many bytes came from a client, and how many went to it.
#[derive(Clone, Copy, Debug, PartialEq, Eq)]
pub struct Traffic {
    /// Those that came.
    pub received: u64,
    /// Those that its link has taken.
    pub sent: u64,
}

impl Traffic {
    /// None.
    pub fn none() -> Traffic
        ensures { result ≡ record { received = 0; sent = 0 } }
    {
        Traffic {
            received: 0,
            sent: 0,
        }
    }

    /// With those of another connection; numbers go to 2^64 - 1.
    pub fn with(self, other: Traffic) -> Traffic
        ensures received { result.received ≡ min (self.received + other.received) (2 ^ 64 - 1) }
        ensures sent { result.sent ≡ min (self.sent + other.sent) (2 ^ 64 - 1) }
    {
        Traffic {
            received: self.received.saturating_add(other.received),
            sent: self.sent.saturating_add(other.sent),
        }
    }
}
