//! Why a server doesn't go on from a journal.

use std::fmt;
use thiserror::Error;

/// Why a server doesn't go on from a journal.
#[derive(Debug, Drop, Error)]
pub enum JournalFault {
    /// Another server has locked it.
    #[error("another server has this journal; stop it, or name another journal")]
    InUse,
    /// The file is no journal.
    #[error("not a journal: name a new file, or one that --journal made")]
    NoJournal,
    /// It is a journal of another version.
    #[error("a journal of version {0}, and this program knows version 1: use the program that wrote it")]
    OtherVersion(u32),
    /// The first record isn't what was written.
    #[error("its first record is damaged: restore the file from a copy")]
    DamagedHead,
    /// It was begun with a description of another key or other paths.
    #[error("the journal belongs to another description, of another key or with other paths; serve that one, or name a new journal")]
    OtherKey,
    /// It was begun with a description of which a line is another one.
    #[error("the journal belongs to another description, which has {theirs} where this one has {ours}; serve that one, or name a new journal")]
    OtherLine {
        /// The first line of that one that differs.
        theirs: ShownLine,
        /// What this one has in its place.
        ours: ShownLine,
    },
    /// It was begun with a description of the same files, in another order or with another name of a file first.
    #[error("the journal belongs to another description, with the same files in another order or with another name first; serve that one, or name a new journal")]
    OtherOrder,
    /// It was begun with a description of the same paths that says something else of its files.
    #[error("the journal belongs to another description, with other contents, attributes or limits; serve that one, or name a new journal")]
    OtherDescription,
    /// An entry isn't what was written.
    #[error("entry {entry} at offset {offset} is damaged: restore the file from a copy, or drop it with its round and all that follows by 'nfs3d journal cut FILE'")]
    BadEntry {
        /// Its number, from 1.
        entry: u64,
        /// Where it begins.
        offset: u64,
    },
    /// The server answers an entry otherwise than it says.
    #[error("entry {entry} at offset {offset} has another reply than the rules give: the journal was edited, or another version of the program wrote it")]
    OtherReply {
        /// Its number, from 1.
        entry: u64,
        /// Where it begins.
        offset: u64,
    },
    /// The lines of volumes and exports don't fit a block.
    #[error("the lines of volumes and exports have more than {most} bytes, which a journal doesn't hold")]
    LongExports {
        /// How many bytes they may have.
        most: usize,
    },
    /// What was answered was not all noted, for want of room.
    #[error("what was answered could not all be noted")]
    Lost,
}

/// A line of a description, as a message shows it.
#[derive(Debug, Drop)]
pub enum ShownLine {
    /// The line; of a long one, parts.
    Line(String),
    /// The description has ended before.
    End,
}

impl fmt::Display for ShownLine {
    fn fmt<W: fmt::Write>(&self, f: &mut fmt::Formatter<W>) -> fmt::Result {
        match self {
            ShownLine::Line(line) => write!(f, "'{line}'"),
            ShownLine::End => f.write_str("no more lines"),
        }
    }
}
