//! What the words of the command line ask for.
ghost use Rattle.std.specs.Prelude.{◌≡◌, codes, option_map, unwrap_or};
ghost use Rattle.std.specs.Option.{is_some};
ghost use Rattle.nfs_command_line.specs.Given.{IsFlag, IsNumber, IsNumberOr, text_given, text_of};
ghost use Rattle.nfs_command_line.specs.Invocations.{invocation_of};
ghost use Rattle.nfs_command_line.specs.Named.{AreNamed, IsAlone};

use crate::journal::JournalCommand;
use crate::serve::Serve;
use crate::sharing::TreeWords;
use crate::trees::Trees;
use crate::usage::UsageFault;
use crate::values::{cache, text};
use clap::ArgMatches;
use clap::parser::ValueSource;
use std::str::FromStr;

/// A command with its words. A file `-` is standard input.
#[derive(Clone, Copy)]
pub enum Invocation<'a, 'w> {
    /// How much a description holds.
    Check(Check<'a, 'w>),
    /// Why a call is granted or denied.
    Why(Why<'a, 'w>),
    /// Who may reach which volume.
    Exports(Exports<'a, 'w>),
    /// A script is run.
    Replay(Replay<'a, 'w>),
    /// Clients are served.
    Serve(Serve<'a, 'w>),
    /// A running service is asked, or stopped.
    Control(Control<'a, 'w>),
    /// A journal is looked at, cut or compacted.
    Journal(JournalCommand<'a, 'w>),
    /// Directories on disk are described.
    Describe(Describe<'a, 'w>),
    /// A tree is written as a directory on disk.
    Extract(Extract<'a, 'w>),
    /// A call is served over a connection of its own.
    SelfCall(SelfCall<'a, 'w>),
}

impl<'a, 'w> Invocation<'a, 'w> {
    /// The command of a name with its words. `None` where there is none of that name.
    pub(crate) fn of(name: &str, words: &'a ArgMatches<'w>) -> Option<Invocation<'a, 'w>>
        ensures { result ≡ invocation_of name.now words.entry }
    {
        match name {
            "check" => Some(Invocation::Check(Check { words })),
            "why" => Some(Invocation::Why(Why { words })),
            "exports" => Some(Invocation::Exports(Exports { words })),
            "replay" => Some(Invocation::Replay(Replay { words })),
            "serve" => Some(Invocation::Serve(Serve::new(words))),
            "control" => Some(Invocation::Control(Control { words })),
            "journal" => Some(Invocation::Journal(JournalCommand::new(words))),
            "describe" => Some(Invocation::Describe(Describe { words })),
            "extract" => Some(Invocation::Extract(Extract { words })),
            "self" => Some(Invocation::SelfCall(SelfCall { words })),
            _ => None,
        }
    }

    /// What is wrong with words that are each right, if anything.
    pub(crate) fn fault(&self) -> Option<UsageFault> {
        match self {
            Invocation::Check(words) => UsageFault::of_sharing(words.tree().sharing()),
            Invocation::Why(words) => UsageFault::of_sharing(words.tree().sharing()),
            Invocation::Exports(words) => UsageFault::of_sharing(words.tree().sharing()),
            Invocation::Replay(words) => UsageFault::of_replay(*words),
            Invocation::Serve(words) => UsageFault::of_serving(*words),
            Invocation::Describe(words) => UsageFault::of_all(words.directories(), words.key()),
            Invocation::Extract(words) => UsageFault::of_sharing(words.tree().sharing()),
            Invocation::Control(words) => UsageFault::of_control(*words),
            Invocation::Journal(words) => UsageFault::of_journal(*words),
            Invocation::SelfCall(_) => None,
        }
    }
}

/// The words of `check`.
#[derive(Clone, Copy)]
pub struct Check<'a, 'w> {
    words: &'a ArgMatches<'w>,
}

impl<'a, 'w> Check<'a, 'w> {
    /// What is checked.
    pub fn tree(&self) -> TreeWords<'a, 'w>
        ensures { IsAlone self.now.words result }
    {
        TreeWords::new(self.words)
    }

    /// Whether a warning is a fault.
    pub fn is_strict(&self) -> bool
        ensures { IsFlag self.now.words.now (codes "strict") result }
    {
        self.words.get_flag("strict")
    }

    /// Whether the lines after the first faulty one are reported too.
    pub fn is_whole(&self) -> bool
        ensures { IsFlag self.now.words.now (codes "all") result }
    {
        self.words.get_flag("all")
    }
}

/// The words of `why`.
#[derive(Clone, Copy)]
pub struct Why<'a, 'w> {
    words: &'a ArgMatches<'w>,
}

impl<'a, 'w> Why<'a, 'w> {
    /// What is asked about.
    pub fn tree(&self) -> TreeWords<'a, 'w>
        ensures { IsAlone self.now.words result }
    {
        TreeWords::new(self.words)
    }

    /// The client's address.
    pub fn address(&self) -> &'a str
        ensures { result.now ≡ text_of self.now.words.now (codes "address") }
    {
        text(self.words, "address")
    }

    /// The user, in the client's words.
    pub fn user(&self) -> &'a str
        ensures { result.now ≡ text_of self.now.words.now (codes "user") }
    {
        text(self.words, "user")
    }

    /// What is done.
    pub fn operation(&self) -> &'a str
        ensures { result.now ≡ text_of self.now.words.now (codes "operation") }
    {
        text(self.words, "operation")
    }

    /// With what.
    pub fn path(&self) -> &'a str
        ensures { result.now ≡ text_of self.now.words.now (codes "path") }
    {
        text(self.words, "path")
    }

    /// What stands after the path.
    pub fn second(&self) -> Option<&'a str>
        ensures { option_map (λ text. text.now) result ≡ text_given self.now.words.now (codes "second") }
    {
        self.words.get_str("second")
    }

    /// Whether nothing is printed.
    pub fn is_quiet(&self) -> bool
        ensures { IsFlag self.now.words.now (codes "quiet") result }
    {
        self.words.get_flag("quiet")
    }
}

/// The words of `exports`.
#[derive(Clone, Copy)]
pub struct Exports<'a, 'w> {
    words: &'a ArgMatches<'w>,
}

impl<'a, 'w> Exports<'a, 'w> {
    /// What has the volumes.
    pub fn tree(&self) -> TreeWords<'a, 'w>
        ensures { IsAlone self.now.words result }
    {
        TreeWords::new(self.words)
    }
}

// The options of `replay` with a value that are for a server of the script's own.
const OWN_OPTIONS: [&str; 9] = [
    "cache", "save", "key", "journal", "mount", "export", "bytes", "files", "chown",
];

/// The words of `replay`.
#[derive(Clone, Copy)]
pub struct Replay<'a, 'w> {
    words: &'a ArgMatches<'w>,
}

impl<'a, 'w> Replay<'a, 'w> {
    /// What the script begins with.
    pub fn tree(&self) -> TreeWords<'a, 'w>
        ensures { IsAlone self.now.words result }
    {
        TreeWords::new(self.words)
    }

    /// The script's file, after the tree.
    pub fn script(&self) -> &'a str
        ensures { result.now ≡ text_of self.now.words.now (codes "script") }
    {
        text(self.words, "script")
    }

    /// Whether a script stands after the first word.
    pub(crate) fn has_script(&self) -> bool
        ensures { result ≡ is_some (text_given self.now.words.now (codes "script")) }
    {
        self.words.get_str("script").is_some()
    }

    /// The script's file, where it stands alone.
    pub fn lone_script(&self) -> &'a str
        ensures { result.now ≡ text_of self.now.words.now (codes "tree") }
    {
        text(self.words, "tree")
    }

    /// The port of a server that the script is played against; without it a server of its own.
    pub fn port(&self) -> Option<u16>
        ensures { IsNumber ⟦<u16 as FromStr>⟧.from_str_gives self.now.words.now (codes "port") result }
    {
        self.words.get_one::<u16>("port")
    }

    /// The address of that server.
    pub fn host(&self) -> &'a str
        ensures { result.now ≡ unwrap_or (text_given self.now.words.now (codes "host")) (codes "127.0.0.1") }
    {
        let found = self.words.get_str("host");
        match found {
            Some(host) => host,
            None => "127.0.0.1",
        }
    }

    /// Whether an option is given that is for a server of the script's own.
    pub(crate) fn has_own_options(&self) -> bool {
        self.is_named()
            || OWN_OPTIONS.iter().any(|id| self.words.value_source(id)
                == Some(ValueSource::CommandLine))
    }

    /// How many replies are kept.
    pub fn cache(&self) -> usize
        ensures { IsNumberOr 128 ⟦<usize as FromStr>⟧.from_str_gives self.now.words.now (codes "cache") result }
    {
        cache(self.words)
    }

    /// Where the tree is saved.
    pub fn save(&self) -> Option<&'a str>
        ensures { option_map (λ text. text.now) result ≡ text_given self.now.words.now (codes "save") }
    {
        self.words.get_str("save")
    }

    /// The key of what is saved, in 16 hexadecimal digits; without it a new one.
    pub fn key(&self) -> Option<&'a str>
        ensures { option_map (λ text. text.now) result ≡ text_given self.now.words.now (codes "key") }
    {
        self.words.get_str("key")
    }

    /// The journal that is run again, in the place of a script.
    pub fn journal(&self) -> Option<&'a str>
        ensures { option_map (λ text. text.now) result ≡ text_given self.now.words.now (codes "journal") }
    {
        self.words.get_str("journal")
    }

    /// Whether replies are printed in words too.
    pub fn is_decoded(&self) -> bool
        ensures { IsFlag self.now.words.now (codes "decode") result }
    {
        self.words.get_flag("decode")
    }

    /// Whether denied calls are reported with names.
    pub fn is_named(&self) -> bool
        ensures { IsFlag self.now.words.now (codes "names") result }
    {
        self.words.get_flag("names")
    }
}

/// The words of `control`.
#[derive(Clone, Copy)]
pub struct Control<'a, 'w> {
    words: &'a ArgMatches<'w>,
}

impl<'a, 'w> Control<'a, 'w> {
    /// The socket of the service.
    pub fn path(&self) -> &'a str
        ensures { result.now ≡ text_of self.now.words.now (codes "path") }
    {
        text(self.words, "path")
    }

    /// What the service is to do.
    pub fn word(&self) -> &'a str
        ensures { result.now ≡ text_of self.now.words.now (codes "word") }
    {
        text(self.words, "word")
    }

    /// What stands after that.
    pub fn file(&self) -> Option<&'a str>
        ensures { option_map (λ text. text.now) result ≡ text_given self.now.words.now (codes "file") }
    {
        self.words.get_str("file")
    }

    /// Where the tree is saved at the end of the service.
    pub fn save(&self) -> Option<&'a str>
        ensures { option_map (λ text. text.now) result ≡ text_given self.now.words.now (codes "save") }
    {
        self.words.get_str("save")
    }
}

/// The words of `describe`.
#[derive(Clone, Copy)]
pub struct Describe<'a, 'w> {
    words: &'a ArgMatches<'w>,
}

impl<'a, 'w> Describe<'a, 'w> {
    /// The directories.
    pub fn directories(&self) -> Trees<'a, 'w>
        ensures { AreNamed self.now.words (codes "directory") result }
    {
        Trees::new(self.words, "directory")
    }

    /// The server's key, in 16 hexadecimal digits; without it a new one.
    pub fn key(&self) -> Option<&'a str>
        ensures { option_map (λ text. text.now) result ≡ text_given self.now.words.now (codes "key") }
    {
        self.words.get_str("key")
    }

    /// Whether the status is 1 where something was skipped.
    pub fn is_strict(&self) -> bool
        ensures { IsFlag self.now.words.now (codes "strict") result }
    {
        self.words.get_flag("strict")
    }

    /// Whether times are described.
    pub fn has_times(&self) -> bool
        ensures { IsFlag self.now.words.now (codes "times") result }
    {
        self.words.get_flag("times")
    }
}

/// The words of `extract`.
#[derive(Clone, Copy)]
pub struct Extract<'a, 'w> {
    words: &'a ArgMatches<'w>,
}

impl<'a, 'w> Extract<'a, 'w> {
    /// What is written.
    pub fn tree(&self) -> TreeWords<'a, 'w>
        ensures { IsAlone self.now.words result }
    {
        TreeWords::new(self.words)
    }

    /// The directory, which is made.
    pub fn directory(&self) -> &'a str
        ensures { result.now ≡ text_of self.now.words.now (codes "directory") }
    {
        text(self.words, "directory")
    }
}

/// The words of `self`.
#[derive(Clone, Copy)]
pub struct SelfCall<'a, 'w> {
    words: &'a ArgMatches<'w>,
}

impl<'a, 'w> SelfCall<'a, 'w> {
    /// The description's file.
    pub fn tree(&self) -> &'a str
        ensures { result.now ≡ text_of self.now.words.now (codes "tree") }
    {
        text(self.words, "tree")
    }
}
