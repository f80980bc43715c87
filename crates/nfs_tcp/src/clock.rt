//! The system's clock.
ghost use Rattle.std.specs.Prelude.{◌≡◌};
ghost use Rattle.std.specs.Duration.{as_nanos};
ghost use Rattle.nfs_tcp.specs.Clock.{moment_at};

use log::{Log, warn};
use nfs_attrs::moment::Moment;
use nfs_server::moments::Moments;
use std::time::{Clock, Duration, SystemTime, UNIX_EPOCH};

/// The system's time since 1970. Where it has none that fits, the last that it had, at first 0, and
/// a warning.
#[derive(Drop)]
pub struct SystemClock<'a, R> {
    rt: &'a R,
    last: Moment,
}

impl<'a, R: Clock + Log> SystemClock<'a, R> {
    /// A clock that was not asked yet.
    pub fn new(rt: &'a R) -> SystemClock<'a, R> {
        SystemClock {
            rt,
            last: Moment {
                seconds: 0,
                nanos: 0,
            },
        }
    }
}

impl<R: Clock + Log> Moments for SystemClock<'_, R> {
    ghost reports = { λ old moment new. Unit {0} };

    fn now(&mut self) -> Moment {
        match since_1970(self.rt) {
            Some(since) => self.last = moment_of(since, self.last),
            None =>
                warn!(self.rt; "can't read the system's clock; using the last time that it gave"),
        }
        self.last
    }
}

// How long ago 1970 began, by the system.
fn since_1970<R: Clock>(rt: &R) -> Option<Duration> {
    SystemTime::now(rt).ok()?.duration_since(UNIX_EPOCH).ok()
}

/// The moment of so long since 1970, or the last one where it doesn't fit.
pub fn moment_of(since: Duration, last: Moment) -> Moment
    ensures { result ≡ moment_at (as_nanos since) last }
{
    match u32::try_from(since.as_secs()) {
        Ok(seconds) => Moment {
            seconds,
            nanos: since.subsec_nanos(),
        },
        Err(_) => last,
    }
}
