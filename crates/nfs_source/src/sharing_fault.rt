//! Why a directory is not shared.

use nfs_load::cause::Cause;
use thiserror::Error;

/// Why a directory is not shared as the words of a command say.
#[derive(Debug, Drop, Error)]
pub enum SharingFault {
    /// The words that say how a directory is shared stand beside a description.
    #[error("--mount, --export, --bytes, --files and --chown are for a directory on disk; a description has its own lines for them")]
    NoDirectory,
    /// A description stands among several directories.
    #[error("several directories are served together, a description alone: {0} is no directory")]
    NotAlone(String),
    /// A directory that nobody may reach is not served.
    #[error("no client may reach the directory: add --export PATTERN=OPTIONS, such as --export 10.1.0.0/16=rw")]
    NoExport,
    /// Nobody may reach this one of several directories.
    #[error("no client may reach {0}: add --export PATTERN=OPTIONS after it, such as --export 10.1.0.0/16=rw")]
    NoExportOf(String),
    /// Something is skipped, and nothing may be.
    #[error("nothing is served, since something of the directory is skipped and --strict is set")]
    Skipped,
    /// More was found in the directory than its volume takes.
    #[error("the directory has {files} files and {bytes} bytes, and its volume takes {most_files} and {most_bytes}: give --files and --bytes at least as much as it has, or share a part of it")]
    TooLarge {
        /// How many files were found, each counted once, however many names it has.
        files: u64,
        /// How many bytes these have.
        bytes: u64,
        /// How many files the volume takes.
        most_files: u64,
        /// How many bytes it takes.
        most_bytes: u64,
    },
    /// More was found in one of several directories than its volume takes.
    #[error("{name} has {files} files and {bytes} bytes, and its volume takes {most_files} and {most_bytes}: give --files and --bytes after it at least as much as it has, or share a part of it")]
    TooLargeOf {
        /// The directory.
        name: String,
        /// How many files were found, each counted once, however many names it has.
        files: u64,
        /// How many bytes these have.
        bytes: u64,
        /// How many files the volume takes.
        most_files: u64,
        /// How many bytes it takes.
        most_bytes: u64,
    },
    /// A word doesn't fit into the line of a description.
    #[error("an option doesn't fit into a description: line {line}: {cause}")]
    Option {
        /// The number of the line, from 1.
        line: u64,
        /// Its first cause.
        cause: Cause,
    },
}
