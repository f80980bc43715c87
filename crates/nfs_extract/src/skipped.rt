//! What is skipped of a tree that is written.

use std::fmt;

/// Something of a tree that is not written.
#[derive(Debug, Drop)]
pub enum Skipped {
    /// A file, by a name that is not UTF-8.
    Name {
        /// The path on disk of the directory that the name stands in.
        directory: String,
    },
    /// A symbolic link whose text is not UTF-8.
    LinkText {
        /// The path on disk at which it would stand.
        path: String,
    },
}

impl fmt::Display for Skipped {
    fn fmt<W: fmt::Write>(&self, f: &mut fmt::Formatter<W>) -> fmt::Result {
        match self {
            Skipped::Name { directory } => { write!(f, "a name in {directory} that is not UTF-8") }
            Skipped::LinkText { path } => { write!(f, "the link {path}, whose text is not UTF-8") }
        }
    }
}
