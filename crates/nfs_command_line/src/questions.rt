//! The commands that say something of a tree.

use crate::arguments::{BYTES, CHOWN, EXPORT, FILES, MOUNT, TREE};
use crate::rows::{ArgRow, CommandRow, Takes};

/// `check`.
pub(crate) const CHECK: CommandRow = CommandRow {
    name: "check",
    about: "Checks a description, and prints how many volumes, files and bytes it has",
    args: &CHECK_ARGS,
};

const CHECK_ARGS: [ArgRow; 8] = [
    TREE,
    ArgRow {
        id: "strict",
        value: "",
        help: "Exits with status 1 if there is a warning, or anything of the directory is skipped",
        takes: Takes::Flag,
    },
    ArgRow {
        id: "all",
        value: "",
        help: "Continues after the first faulty line and reports the others too",
        takes: Takes::Flag,
    },
    MOUNT,
    EXPORT,
    BYTES,
    FILES,
    CHOWN,
];

/// `why`.
pub(crate) const WHY: CommandRow = CommandRow {
    name: "why",
    about: "Explains rule by rule why a call is granted or denied, without a client",
    args: &WHY_ARGS,
};

const WHY_ARGS: [ArgRow; 12] = [
    TREE,
    ArgRow {
        id: "address",
        value: "ADDRESS",
        help: "The client's address",
        takes: Takes::Word,
    },
    ArgRow {
        id: "user",
        value: "UID[:GID[,GID..]]",
        help: "The user that the client names: the numbers of the user, its group and more groups",
        takes: Takes::Word,
    },
    ArgRow {
        id: "operation",
        value: "OPERATION",
        help: "What the call does: read, write, create, remove, mkdir, rename, list, chmod, mount and others",
        takes: Takes::Word,
    },
    ArgRow {
        id: "path",
        value: "PATH",
        help: "Which file: a path that begins with that of a volume, as clients see it",
        takes: Takes::Word,
    },
    ArgRow {
        id: "second",
        value: "PATH2",
        help: "The new path of rename and link, what a symlink holds, an owner, a group or a size",
        takes: Takes::OptionalWord,
    },
    ArgRow {
        id: "quiet",
        value: "",
        help: "Prints nothing: the status says whether the call is granted (0) or denied (1)",
        takes: Takes::Flag,
    },
    MOUNT,
    EXPORT,
    BYTES,
    FILES,
    CHOWN,
];

/// `exports`.
pub(crate) const EXPORTS: CommandRow = CommandRow {
    name: "exports",
    about: "Prints who may reach which volume with which options, as exportfs -v does",
    args: &EXPORTS_ARGS,
};

const EXPORTS_ARGS: [ArgRow; 6] = [TREE, MOUNT, EXPORT, BYTES, FILES, CHOWN];
