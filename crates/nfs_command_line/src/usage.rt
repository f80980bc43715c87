//! What is wrong with words that the commands take.

use crate::invocation::{Control, Replay};
use crate::journal::{JournalCommand, JournalWork};
use crate::serve::Serve;
use crate::sharing::{Owner, Sharing};
use crate::trees::Trees;
use std::net::IpAddr;
use thiserror::Error;

/// What is wrong with words, and what to do.
#[derive(Clone, Copy, Debug, PartialEq, Eq, Error)]
pub(crate) enum UsageFault {
    /// A key isn't 16 hexadecimal digits.
    #[error("invalid value for '--key <KEY>': it must be 16 hexadecimal digits, such as 0123456789abcdef")]
    Key,
    /// An owner isn't two numbers.
    #[error("invalid value for '--chown <UID:GID>': it must be two numbers, such as 1000:1000")]
    Owner,
    /// An option is given twice that may be given once for each directory.
    #[error("the argument '--{id} <{value}>' cannot be used multiple times")]
    Repeated {
        /// Its name.
        id: &'static str,
        /// What its value is called.
        value: &'static str,
    },
    /// An option stands before the first of several directories.
    #[error("with several directories, put --mount, --export, --bytes, --files and --chown after the directory that they are for")]
    Early,
    /// A service is never saved, since it doesn't end.
    #[error("--save FILE writes when the service ends: add --connections N, --save-every SECONDS, or --control PATH")]
    NeverSaved,
    /// A file to save to at the end, and a word with which nothing ends.
    #[error("--save FILE is for stop: nfs3d control PATH stop --save FILE")]
    SaveWithoutStop,
    /// A script has neither a tree nor a server, or both, or stands beside a journal.
    #[error("replay takes TREE and SCRIPT, with --journal TREE alone, or with --port SCRIPT alone")]
    TreeOrPort,
    /// An option is for a server of the script's own.
    #[error("with --port, replay takes no options but --host and --decode")]
    NotWithPort,
    /// A journal is run again, and its tree is to be saved.
    #[error("with --journal, replay saves nothing: nfs3d journal compact TREE JOURNAL NEW writes the tree")]
    SaveWithJournal,
    /// The exports of a service with a journal are to change.
    #[error("--watch does not work with --journal: start the service again to put other exports in force")]
    WatchedJournal,
    /// What is to be done with a journal has other words, or too few or too many of them.
    #[error("journal takes 'check JOURNAL', 'cut JOURNAL' or 'compact TREE JOURNAL NEW'")]
    JournalWork,
    /// A key, and a word with which nothing is described.
    #[error("--key KEY is for compact: nfs3d journal compact TREE JOURNAL NEW --key KEY")]
    KeyWithoutCompact,
    /// A host isn't an address.
    #[error("invalid value for '--host <ADDRESS>': it must be an IPv4 or IPv6 address, such as 127.0.0.1")]
    Host,
    /// Two texts are standard input.
    #[error("TREE and SCRIPT can't both be standard input: name a file for one of them")]
    TwoInputs,
}

impl UsageFault {
    /// Of a key, if any.
    pub(crate) fn of_key(key: Option<&str>) -> Option<UsageFault> {
        match key {
            Some(digits) if !is_key(digits) => Some(UsageFault::Key),
            _ => None,
        }
    }

    /// Of how a directory is shared.
    pub(crate) fn of_sharing(sharing: Sharing<'_, '_>) -> Option<UsageFault> {
        if let Some(row) = sharing.repeated() {
            return Some(UsageFault::Repeated {
                id: row.id,
                value: row.value,
            });
        }
        match sharing.chown() {
            Some(owner) if Owner::of_text(owner).is_none() => Some(UsageFault::Owner),
            _ => None,
        }
    }

    /// Of how it is shared, and of a key, if any.
    pub(crate) fn of_keyed(sharing: Sharing<'_, '_>, key: Option<&str>) -> Option<UsageFault> {
        match UsageFault::of_sharing(sharing) {
            Some(fault) => Some(fault),
            None => UsageFault::of_key(key),
        }
    }

    /// Of how each of some directories is shared, and of a key, if any.
    pub(crate) fn of_all(mut trees: Trees<'_, '_>, key: Option<&str>) -> Option<UsageFault> {
        if trees.has_early_option() {
            return Some(UsageFault::Early);
        }
        match trees.find_map(|tree| UsageFault::of_sharing(tree.sharing())) {
            Some(fault) => Some(fault),
            None => UsageFault::of_key(key),
        }
    }

    /// Of a script, and of what it is run against.
    pub(crate) fn of_replay(words: Replay<'_, '_>) -> Option<UsageFault> {
        let is_live = words.port().is_some();
        let is_journal = words.journal().is_some();
        if words.has_script() == (is_live || is_journal) {
            return Some(UsageFault::TreeOrPort);
        }
        if is_live {
            UsageFault::of_live(words)
        } else if is_journal {
            UsageFault::of_rerun(words)
        } else {
            UsageFault::of_run(words)
        }
    }

    // Of a journal that is run again.
    fn of_rerun(words: Replay<'_, '_>) -> Option<UsageFault> {
        if words.save().is_some() {
            return Some(UsageFault::SaveWithJournal);
        }
        UsageFault::of_sharing(words.tree().sharing())
    }

    // Of a server that a script is played against.
    fn of_live(words: Replay<'_, '_>) -> Option<UsageFault> {
        if words.has_own_options() {
            return Some(UsageFault::NotWithPort);
        }
        match words.host().parse::<IpAddr>() {
            Ok(_) => None,
            Err(_) => Some(UsageFault::Host),
        }
    }

    // Of what is run, and of where it is saved.
    fn of_run(words: Replay<'_, '_>) -> Option<UsageFault> {
        if words.tree().name() == "-" && words.script() == "-" {
            return Some(UsageFault::TwoInputs);
        }
        UsageFault::of_keyed(words.tree().sharing(), words.key())
    }

    /// Of what a service is asked for.
    pub(crate) fn of_control(words: Control<'_, '_>) -> Option<UsageFault> {
        let is_stop = words.word() == "stop" && words.file().is_none();
        if words.save().is_some() && !is_stop {
            return Some(UsageFault::SaveWithoutStop);
        }
        None
    }

    /// Of what is to be done with a journal.
    pub(crate) fn of_journal(words: JournalCommand<'_, '_>) -> Option<UsageFault> {
        match words.work() {
            None => Some(UsageFault::JournalWork),
            Some(JournalWork::Compact { .. }) => UsageFault::of_key(words.key()),
            Some(_) if words.key().is_some() => Some(UsageFault::KeyWithoutCompact),
            Some(_) => None,
        }
    }

    /// Of what is served, and of where and when it is saved.
    pub(crate) fn of_serving(words: Serve<'_, '_>) -> Option<UsageFault> {
        let is_saved = words.connections().is_some()
            || words.save_every().is_some()
            || words.control().is_some();
        if words.save().is_some() && !is_saved {
            return Some(UsageFault::NeverSaved);
        }
        if words.is_watched() && words.journal().is_some() {
            return Some(UsageFault::WatchedJournal);
        }
        UsageFault::of_all(words.trees(), words.key())
    }
}

fn is_key(digits: &str) -> bool {
    digits.len() == 16 && digits.bytes().all(|digit| digit.is_ascii_hexdigit())
}
