//! What the paths of an operation name.

use nfs_ask::operation::Operation;

/// What the paths of an operation name.
#[derive(Clone, Copy, PartialEq)]
pub enum Shape {
    /// A file.
    File,
    /// A name in a directory, where a file may be or not.
    Name,
    /// Two such names.
    TwoNames,
    /// A file, and a name in a directory.
    FileAndName,
    /// A volume.
    Volume,
}

impl Shape {
    /// What the paths of an operation name.
    pub(crate) fn of(operation: Operation) -> Shape {
        match operation {
            Operation::Lookup
            | Operation::Create
            | Operation::Mkdir
            | Operation::Symlink
            | Operation::Mknod
            | Operation::Remove
            | Operation::Rmdir => Shape::Name,
            Operation::Rename => Shape::TwoNames,
            Operation::Link => Shape::FileAndName,
            Operation::Mount | Operation::Unmount => Shape::Volume,
            _ => Shape::File,
        }
    }
}
