//! Where a file stands.

use nfs_handles::number::Number;
use std::marker::Model;

/// A name of a file, by its path from the root of its volume on; that of the root is empty.
#[derive(Drop)]
pub struct FilePath {
    /// The path, with a slash before each name.
    pub path: Vec<u8>,
    /// The file.
    pub number: Number,
}

impl Model for FilePath {
    ghost use Rattle.nfs_describe.specs.Places as spec;

    ghost Value = { spec.FilePath };

    ghost view = { λ place. record { path = place.path.items; number = place.number.0 } };
}
