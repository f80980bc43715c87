//! The commands that serve a tree, or make a description.

use crate::arguments::{
    BYTES, BYTES_EACH, CACHE, CHOWN, CHOWN_EACH, DESCRIPTION, DIRECTORIES, EXPORT, FILES,
    FILES_EACH, KEY, MOUNT, MOUNT_EACH, NAMES, SAVE, SAVED_KEY, STRICT, TREE, TREES,
};
use crate::rows::{ArgRow, CommandRow, Takes};

/// `replay`.
pub(crate) const REPLAY: CommandRow = CommandRow {
    name: "replay",
    about: "Runs a script of calls against a description, and prints the replies",
    args: &REPLAY_ARGS,
};

const REPLAY_ARGS: [ArgRow; 15] = [
    TREE,
    ArgRow {
        id: "script",
        value: "SCRIPT",
        help: "The script to run (docs/PROTOCOL.md lists its lines); - is standard input; with --port it stands alone, in the place of TREE; with --journal there is none",
        takes: Takes::OptionalWord,
    },
    ArgRow {
        id: "port",
        value: "P",
        help: "Sends the calls of SCRIPT to a running server at this port",
        takes: Takes::Between(1, 65_535),
    },
    ArgRow {
        id: "host",
        value: "ADDRESS",
        help: "The IPv4 or IPv6 address of that server; without it 127.0.0.1",
        takes: Takes::TextBeside("port"),
    },
    ArgRow {
        id: "journal",
        value: "FILE",
        help: "Runs the entries of this journal again over TREE, without a script, and compares the replies",
        takes: Takes::Text,
    },
    CACHE,
    SAVE,
    SAVED_KEY,
    ArgRow {
        id: "decode",
        value: "",
        help: "Also prints each reply in words",
        takes: Takes::Flag,
    },
    NAMES,
    MOUNT,
    EXPORT,
    BYTES,
    FILES,
    CHOWN,
];

/// `self`.
pub(crate) const SELF_CALL: CommandRow = CommandRow {
    name: "self",
    about: "Serves one call over a connection of its own, and prints the reply",
    args: &[DESCRIPTION],
};

/// `describe`.
pub(crate) const DESCRIBE: CommandRow = CommandRow {
    name: "describe",
    about: "Prints the description of directories on disk, with their modes and owners",
    args: &DESCRIBE_ARGS,
};

const DESCRIBE_ARGS: [ArgRow; 9] = [
    DIRECTORIES,
    MOUNT_EACH,
    EXPORT,
    BYTES_EACH,
    FILES_EACH,
    CHOWN_EACH,
    ArgRow {
        id: "times",
        value: "",
        help: "Describe the times of files too",
        takes: Takes::Flag,
    },
    STRICT,
    KEY,
];

/// `extract`.
pub(crate) const EXTRACT: CommandRow = CommandRow {
    name: "extract",
    about: "Writes a tree as a new directory on disk, with its modes, owners and times",
    args: &EXTRACT_ARGS,
};

const EXTRACT_ARGS: [ArgRow; 7] = [
    TREE,
    ArgRow {
        id: "directory",
        value: "DIRECTORY",
        help: "The directory to make",
        takes: Takes::Word,
    },
    MOUNT,
    EXPORT,
    BYTES,
    FILES,
    CHOWN,
];

/// `serve`.
pub(crate) const SERVE: CommandRow = CommandRow {
    name: "serve",
    about: "Serves a description, or directories, over TCP to many clients at once",
    args: &SERVE_ARGS,
};

const SERVE_ARGS: [ArgRow; 28] = [
    TREES,
    MOUNT_EACH,
    EXPORT,
    BYTES_EACH,
    FILES_EACH,
    CHOWN_EACH,
    STRICT,
    ArgRow {
        id: "listen",
        value: "ADDRESS",
        help: "An IPv4 or IPv6 address to listen on; may be repeated",
        takes: Takes::TextsOr("127.0.0.1"),
    },
    ArgRow {
        id: "port",
        value: "P",
        help: "The port to listen on; 0 lets the system choose one",
        takes: Takes::BetweenOr(0, 65_535, "2049"),
    },
    ArgRow {
        id: "register",
        value: "",
        help: "Registers the server with this machine's portmapper (rpcbind), so that clients mount it without naming ports",
        takes: Takes::Flag,
    },
    ArgRow {
        id: "connections",
        value: "N",
        help: "Exits after this many connections have ended; without it, the server runs until it is stopped",
        takes: Takes::Between(0, 1_000_000),
    },
    ArgRow {
        id: "clients",
        value: "M",
        help: "How many clients are served at once; further connections are closed",
        takes: Takes::BetweenOr(1, 65_536, "1024"),
    },
    ArgRow {
        id: "idle",
        value: "SECONDS",
        help: "Closes a connection that has been silent for this many seconds",
        takes: Takes::Between(1, 1_000_000),
    },
    CACHE,
    ArgRow {
        id: "audit",
        value: "FILE",
        help: "Appends the lines of denied calls to this file; without it they are printed",
        takes: Takes::Text,
    },
    ArgRow {
        id: "audit-failed",
        value: "WHAT",
        help: "What to do once the audit log has failed: refuse closes the connection of a call that would be denied; count answers the call and counts its line",
        takes: Takes::OneOf(&["refuse", "count"]),
    },
    ArgRow {
        id: "audit-skip",
        value: "RULES",
        help: "Writes no line for calls denied by these rules: names as they stand in lines, separated by commas",
        takes: Takes::Text,
    },
    ArgRow {
        id: "times",
        value: "",
        help: "Begins each line with the time",
        takes: Takes::Flag,
    },
    NAMES,
    ArgRow {
        id: "verbose",
        value: "",
        help: "Reports clients that come and go on standard error",
        takes: Takes::Flag,
    },
    SAVE,
    ArgRow {
        id: "save-every",
        value: "SECONDS",
        help: "Also saves the tree this often, if it has changed",
        takes: Takes::BetweenBeside(1, 1_000_000, "save"),
    },
    SAVED_KEY,
    ArgRow {
        id: "journal",
        value: "FILE",
        help: "Notes each call that may change the tree in FILE before its reply goes out; started again with it, the server goes on where it was",
        takes: Takes::Text,
    },
    ArgRow {
        id: "journal-sync",
        value: "WHEN",
        help: "When entries are synced to disk: before the replies of each round, or never",
        takes: Takes::OneOfBeside(&["round", "never"], "journal"),
    },
    ArgRow {
        id: "control",
        value: "PATH",
        help: "A Unix socket to make, by which nfs3d control asks and stops the service",
        takes: Takes::Text,
    },
    ArgRow {
        id: "watch",
        value: "",
        help: "Reads the exports of the description again when its file changes",
        takes: Takes::Flag,
    },
    ArgRow {
        id: "metrics",
        value: "ADDRESS:PORT",
        help: "An address at which the service gives its metrics by HTTP, at the path /metrics, to whoever reaches it",
        takes: Takes::Text,
    },
];

/// `control`.
pub(crate) const CONTROL: CommandRow = CommandRow {
    name: "control",
    about: "Asks a running service, or stops it",
    args: &CONTROL_ARGS,
};

const CONTROL_ARGS: [ArgRow; 4] = [
    ArgRow {
        id: "path",
        value: "PATH",
        help: "The socket of the service: the PATH of its --control",
        takes: Takes::Word,
    },
    ArgRow {
        id: "word",
        value: "WORD",
        help: "What to do: status, clients, mounts, denied and metrics print how it stands, who its clients are, what they mount, which calls it denied, and its metrics for Prometheus; reload reads the exports of its description again; save writes its tree; stop ends it",
        takes: Takes::Word,
    },
    ArgRow {
        id: "file",
        value: "FILE",
        help: "Where save writes the tree, without it the file of the service's --save; or how many calls denied shows, up to 1024, without it 20",
        takes: Takes::OptionalWord,
    },
    ArgRow {
        id: "save",
        value: "FILE",
        help: "With stop: a file to which the service saves its tree when it ends",
        takes: Takes::Text,
    },
];

/// `journal`.
pub(crate) const JOURNAL: CommandRow = CommandRow {
    name: "journal",
    about: "Checks a journal, cuts it before its first damage, or describes the tree that it leads to",
    args: &JOURNAL_ARGS,
};

const JOURNAL_ARGS: [ArgRow; 5] = [
    ArgRow {
        id: "word",
        value: "WORD",
        help: "What to do: 'check JOURNAL' says how many entries are whole, or which is damaged; 'cut JOURNAL' cuts the file after the last whole entry before the first damage; 'compact TREE JOURNAL NEW' writes the description of the tree that JOURNAL leads to from TREE",
        takes: Takes::Word,
    },
    ArgRow {
        id: "first",
        value: "FILE",
        help: "The journal; with compact TREE, the description that it began with",
        takes: Takes::Word,
    },
    ArgRow {
        id: "second",
        value: "JOURNAL",
        help: "With compact: the journal",
        takes: Takes::OptionalWord,
    },
    ArgRow {
        id: "third",
        value: "NEW",
        help: "With compact: the file of the new description",
        takes: Takes::OptionalWord,
    },
    KEY,
];
