//! The words of `serve`.
ghost use Rattle.std.specs.Prelude.{◌≡◌, ◌≢◌, Some, codes, map, option_map};
ghost use Rattle.nfs_command_line.specs.Given.{IsFlag, IsNumber, IsNumberOr, text_given, texts_given};
ghost use Rattle.nfs_command_line.specs.Named.{AreNamed};
ghost use Rattle.nfs_command_line.specs.declared.serve.AuditFailed.TheVariants.{Count, Refuse};
ghost use Rattle.nfs_command_line.specs.declared.serve.JournalSync.TheVariants.{Never, Round};

use crate::trees::Trees;
use crate::values::{cache, texts};
use clap::ArgMatches;
use std::str::FromStr;

/// The words of `serve`.
#[derive(Clone, Copy)]
pub struct Serve<'a, 'w> {
    words: &'a ArgMatches<'w>,
}

/// What to do when the line of a denied call can't be written.
#[derive(Clone, Copy, Debug, PartialEq, Eq)]
pub enum AuditFailed {
    /// Calls are refused as long as none can be.
    Refuse,
    /// Calls are answered, and the lost lines are counted.
    Count,
}

/// When the entries of a journal are synced to disk.
#[derive(Clone, Copy, Debug, PartialEq, Eq)]
pub enum JournalSync {
    /// Once in each round, before its replies go out.
    Round,
    /// Never: the system writes them when it likes.
    Never,
}

impl<'a, 'w> Serve<'a, 'w> {
    pub(crate) fn new(words: &'a ArgMatches<'w>) -> Serve<'a, 'w>
        ensures { result.words ≡ words.entry }
    {
        Serve { words }
    }

    /// What is served: a description, or directories.
    pub fn trees(&self) -> Trees<'a, 'w>
        ensures { AreNamed self.now.words (codes "tree") result }
    {
        Trees::new(self.words, "tree")
    }

    /// The addresses to listen on.
    pub fn listen(&self) -> &'a [&'a str]
        ensures { map (λ text. text.now) result.now ≡ texts_given self.now.words.now (codes "listen") }
    {
        texts(self.words, "listen")
    }

    /// Its port.
    pub fn port(&self) -> u16
        ensures { IsNumberOr 2049 ⟦<u16 as FromStr>⟧.from_str_gives self.now.words.now (codes "port") result }
    {
        self.words.get_one::<u16>("port").unwrap_or(2049)
    }

    /// Whether the portmapper of this machine is told of it.
    pub fn is_registered(&self) -> bool
        ensures { IsFlag self.now.words.now (codes "register") result }
    {
        self.words.get_flag("register")
    }

    /// After how many connections it ends.
    pub fn connections(&self) -> Option<u64>
        ensures { IsNumber ⟦<u64 as FromStr>⟧.from_str_gives self.now.words.now (codes "connections") result }
    {
        self.words.get_one::<u64>("connections")
    }

    /// How many clients are served at once.
    pub fn clients(&self) -> usize
        ensures { IsNumberOr 1024 ⟦<usize as FromStr>⟧.from_str_gives self.now.words.now (codes "clients") result }
    {
        self.words.get_one::<usize>("clients").unwrap_or(1024)
    }

    /// After how many seconds without a byte a connection ends.
    pub fn idle(&self) -> Option<u64>
        ensures { IsNumber ⟦<u64 as FromStr>⟧.from_str_gives self.now.words.now (codes "idle") result }
    {
        self.words.get_one::<u64>("idle")
    }

    /// How many replies are kept.
    pub fn cache(&self) -> usize
        ensures { IsNumberOr 128 ⟦<usize as FromStr>⟧.from_str_gives self.now.words.now (codes "cache") result }
    {
        cache(self.words)
    }

    /// The file to which the lines of denied calls go.
    pub fn audit(&self) -> Option<&'a str>
        ensures { option_map (λ text. text.now) result ≡ text_given self.now.words.now (codes "audit") }
    {
        self.words.get_str("audit")
    }

    /// What to do when the line of a denied call can't be written.
    pub fn audit_failed(&self) -> AuditFailed
        ensures count { text_given self.now.words.now (codes "audit-failed") ≡ Some (codes "count") → result ≡ Count }
        ensures refuse { text_given self.now.words.now (codes "audit-failed") ≢ Some (codes "count") → result ≡ Refuse }
    {
        match self.words.get_str("audit-failed") {
            Some("count") => AuditFailed::Count,
            _ => AuditFailed::Refuse,
        }
    }

    /// The rules whose denied calls get no line, with a comma between two.
    pub fn audit_skip(&self) -> Option<&'a str>
        ensures { option_map (λ text. text.now) result ≡ text_given self.now.words.now (codes "audit-skip") }
    {
        self.words.get_str("audit-skip")
    }

    /// Whether the line of a denied call begins with the time.
    pub fn has_times(&self) -> bool
        ensures { IsFlag self.now.words.now (codes "times") result }
    {
        self.words.get_flag("times")
    }

    /// Whether denied calls are reported with names.
    pub fn is_named(&self) -> bool
        ensures { IsFlag self.now.words.now (codes "names") result }
    {
        self.words.get_flag("names")
    }

    /// Where the tree is saved.
    pub fn save(&self) -> Option<&'a str>
        ensures { option_map (λ text. text.now) result ≡ text_given self.now.words.now (codes "save") }
    {
        self.words.get_str("save")
    }

    /// After how many seconds it is saved again.
    pub fn save_every(&self) -> Option<u64>
        ensures { IsNumber ⟦<u64 as FromStr>⟧.from_str_gives self.now.words.now (codes "save-every") result }
    {
        self.words.get_one::<u64>("save-every")
    }

    /// The key of what is saved, in 16 hexadecimal digits; without it a new one.
    pub fn key(&self) -> Option<&'a str>
        ensures { option_map (λ text. text.now) result ≡ text_given self.now.words.now (codes "key") }
    {
        self.words.get_str("key")
    }

    /// The file in which each call that may change the tree is noted.
    pub fn journal(&self) -> Option<&'a str>
        ensures { option_map (λ text. text.now) result ≡ text_given self.now.words.now (codes "journal") }
    {
        self.words.get_str("journal")
    }

    /// When its entries are synced to disk.
    pub fn journal_sync(&self) -> JournalSync
        ensures never { text_given self.now.words.now (codes "journal-sync") ≡ Some (codes "never") → result ≡ Never }
        ensures round { text_given self.now.words.now (codes "journal-sync") ≢ Some (codes "never") → result ≡ Round }
    {
        match self.words.get_str("journal-sync") {
            Some("never") => JournalSync::Never,
            _ => JournalSync::Round,
        }
    }

    /// The socket by which it is asked and stopped.
    pub fn control(&self) -> Option<&'a str>
        ensures { option_map (λ text. text.now) result ≡ text_given self.now.words.now (codes "control") }
    {
        self.words.get_str("control")
    }

    /// Whether the exports are read again when the description changes.
    pub fn is_watched(&self) -> bool
        ensures { IsFlag self.now.words.now (codes "watch") result }
    {
        self.words.get_flag("watch")
    }

    /// The address at which it gives its metrics.
    pub fn metrics(&self) -> Option<&'a str>
        ensures { option_map (λ text. text.now) result ≡ text_given self.now.words.now (codes "metrics") }
    {
        self.words.get_str("metrics")
    }

    /// Whether clients that come and go are reported.
    pub fn is_verbose(&self) -> bool
        ensures { IsFlag self.now.words.now (codes "verbose") result }
    {
        self.words.get_flag("verbose")
    }

    /// Whether nothing is served where something of a directory is skipped.
    pub fn is_strict(&self) -> bool
        ensures { IsFlag self.now.words.now (codes "strict") result }
    {
        self.words.get_flag("strict")
    }
}
