//! Why an item can't be read.

use thiserror::Error;

/// Why no value of an item stands at the front of some bytes.
#[derive(Clone, Copy, Debug, PartialEq, Eq, Error)]
pub enum XdrFault {
    /// The bytes end before the item does.
    #[error("the bytes end inside an item")]
    Short,
    /// A length is above the item's bound.
    #[error("an item is longer than its bound")]
    TooLong,
    /// A boolean is neither 0 nor 1.
    #[error("a boolean is neither 0 nor 1")]
    BadBool,
    /// An enumeration, or what chooses an arm of a union, is none of its numbers.
    #[error("a number is none of its enumeration")]
    BadEnum,
}
