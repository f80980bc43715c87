//! Why arguments can't be read.

use thiserror::Error;

/// Arguments can't be read: the bytes end before they do, one is above its bound, a number is none
/// of its kind, or the count of a WRITE isn't the number of its bytes.
#[derive(Clone, Copy, Debug, Error)]
#[error("no arguments stand there")]
pub struct Unreadable;
