//! Moments as text.

use jiff::Timestamp;
use nfs_attrs::moment::Moment;
use std::alloc::{AllocError, Global};

/// A moment in UTC, to the millisecond, as RFC 3339 writes it: `2026-11-27T07:00:00.123Z`.
pub fn timestamp(alloc: Global, moment: Moment) -> Result<String, AllocError> {
    let millis = i64::from(moment.seconds) * 1_000 + i64::from(moment.nanos / 1_000_000);
    match Timestamp::from_millisecond(millis) {
        Ok(time) => format!(in alloc; "{time:.3}"),
        Err(_) => Ok(String::new(alloc)),
    }
}
