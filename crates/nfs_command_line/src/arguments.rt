//! The words and options that more than one command takes.

use crate::rows::{ArgRow, Takes};

/// The description.
pub(crate) const DESCRIPTION: ArgRow = ArgRow {
    id: "tree",
    value: "TREE",
    help: "The description: a text of volumes, files and exports (docs/DESCRIPTION.md); - is standard input",
    takes: Takes::Word,
};

/// The description, or a directory.
pub(crate) const TREE: ArgRow = ArgRow {
    id: "tree",
    value: "TREE",
    help: "The description: a text of volumes, files and exports (docs/DESCRIPTION.md), - for standard input; or a directory on disk",
    takes: Takes::Word,
};

/// The description, or directories, each with the options after it.
pub(crate) const TREES: ArgRow = ArgRow {
    id: "tree",
    value: "TREE",
    help: "The description: a text of volumes, files and exports (docs/DESCRIPTION.md), - for standard input; or a directory on disk, or several, each with the options --mount, --export, --bytes, --files and --chown after it",
    takes: Takes::Words,
};

/// Directories, each with the options after it.
pub(crate) const DIRECTORIES: ArgRow = ArgRow {
    id: "directory",
    value: "DIRECTORY",
    help: "The directory; symbolic links are not followed. Several become volumes of one description, each with the options --mount, --export, --bytes, --files and --chown after it",
    takes: Takes::Words,
};

/// The path of a directory's volume.
pub(crate) const MOUNT: ArgRow = ArgRow {
    id: "mount",
    value: "PATH",
    help: "The path that clients mount a directory by [default: its name]",
    takes: Takes::Text,
};

/// To whom it is exported.
pub(crate) const EXPORT: ArgRow = ArgRow {
    id: "export",
    value: "PATTERN=OPTIONS",
    help: "Exports the directory to PATTERN, for example 10.1.0.0/16=ro; may be repeated",
    takes: Takes::Texts,
};

/// How many bytes its volume may hold.
pub(crate) const BYTES: ArgRow = ArgRow {
    id: "bytes",
    value: "N",
    help: "The most bytes that the volume may hold [default: twice what was found, at least 1000000000]",
    takes: Takes::Number,
};

/// How many files its volume may hold.
pub(crate) const FILES: ArgRow = ArgRow {
    id: "files",
    value: "N",
    help: "The most files that the volume may hold [default: twice what was found, at least 100000]",
    takes: Takes::Number,
};

/// Who owns its files.
pub(crate) const CHOWN: ArgRow = ArgRow {
    id: "chown",
    value: "UID:GID",
    help: "Gives every file this owner and group, for example 1000:1000",
    takes: Takes::Text,
};

/// The path of the volume of each directory.
pub(crate) const MOUNT_EACH: ArgRow = ArgRow {
    takes: Takes::Texts,
    ..MOUNT
};

/// How many bytes each volume may hold.
pub(crate) const BYTES_EACH: ArgRow = ArgRow {
    takes: Takes::Numbers,
    ..BYTES
};

/// How many files each volume may hold.
pub(crate) const FILES_EACH: ArgRow = ArgRow {
    takes: Takes::Numbers,
    ..FILES
};

/// Who owns the files of each directory.
pub(crate) const CHOWN_EACH: ArgRow = ArgRow {
    takes: Takes::Texts,
    ..CHOWN
};

/// Whether something of it may be skipped.
pub(crate) const STRICT: ArgRow = ArgRow {
    id: "strict",
    value: "",
    help: "Ends with status 1 if anything of the directory is skipped",
    takes: Takes::Flag,
};

/// How many replies are kept.
pub(crate) const CACHE: ArgRow = ArgRow {
    id: "cache",
    value: "C",
    help: "How many replies the reply cache holds for retransmissions, 1 to 1024",
    takes: Takes::BetweenOr(1, 1024, "128"),
};

/// Where the tree is saved.
pub(crate) const SAVE: ArgRow = ArgRow {
    id: "save",
    value: "FILE",
    help: "Writes the tree at the end to FILE, as a description",
    takes: Takes::Text,
};

/// The key of a description that is written.
pub(crate) const KEY: ArgRow = ArgRow {
    id: "key",
    value: "KEY",
    help: "The server's key in the description, 16 hexadecimal digits [default: a new random one]",
    takes: Takes::Text,
};

/// The same of a tree that is saved.
pub(crate) const SAVED_KEY: ArgRow = ArgRow {
    takes: Takes::TextBeside("save"),
    ..KEY
};

/// Whether denied calls are reported with names.
pub(crate) const NAMES: ArgRow = ArgRow {
    id: "names",
    value: "",
    help: "Adds the procedure's name and the file's path to each line of a denied call",
    takes: Takes::Flag,
};
