//! The words of `journal`.
ghost use Rattle.std.specs.Prelude.{◌≡◌, codes, option_map};
ghost use Rattle.nfs_command_line.specs.Given.{text_given, text_of};
ghost use Rattle.nfs_command_line.specs.Journals.{asked_of, lone_file, work_asked};

use crate::values::text;
use clap::ArgMatches;

/// The words of `journal`.
#[derive(Clone, Copy)]
pub struct JournalCommand<'a, 'w> {
    words: &'a ArgMatches<'w>,
}

/// What is to be done with a journal.
#[derive(Clone, Copy, Debug, PartialEq, Eq)]
pub enum JournalWork<'a> {
    /// The journal in this file is looked at.
    Check(&'a str),
    /// The journal in this file is cut before the first entry that is damaged.
    Cut(&'a str),
    /// The tree that a journal leads to is described anew.
    Compact {
        /// The file of the description that the journal began with.
        tree: &'a str,
        /// The journal's file.
        journal: &'a str,
        /// The file of the new description.
        new: &'a str,
    },
}

impl<'a, 'w> JournalCommand<'a, 'w> {
    pub(crate) fn new(words: &'a ArgMatches<'w>) -> JournalCommand<'a, 'w>
        ensures { result.words ≡ words.entry }
    {
        JournalCommand { words }
    }

    /// What to do.
    pub fn word(&self) -> &'a str
        ensures { result.now ≡ text_of self.now.words.now (codes "word") }
    {
        text(self.words, "word")
    }

    /// The first file.
    pub fn first(&self) -> &'a str
        ensures { result.now ≡ text_of self.now.words.now (codes "first") }
    {
        text(self.words, "first")
    }

    /// The second file.
    pub fn second(&self) -> Option<&'a str>
        ensures { option_map (λ text. text.now) result ≡ text_given self.now.words.now (codes "second") }
    {
        self.words.get_str("second")
    }

    /// The third file.
    pub fn third(&self) -> Option<&'a str>
        ensures { option_map (λ text. text.now) result ≡ text_given self.now.words.now (codes "third") }
    {
        self.words.get_str("third")
    }

    /// The key of the new description, in 16 hexadecimal digits; without it a new one.
    pub fn key(&self) -> Option<&'a str>
        ensures { option_map (λ text. text.now) result ≡ text_given self.now.words.now (codes "key") }
    {
        self.words.get_str("key")
    }

    /// What is to be done, with as many files as it takes. `None` where the words ask for none of it.
    pub fn work(&self) -> Option<JournalWork<'a>>
        ensures { option_map work_asked result ≡ asked_of self.now.words.now }
    {
        match self.word() {
            "check" => Some(JournalWork::Check(self.lone_file()?)),
            "cut" => Some(JournalWork::Cut(self.lone_file()?)),
            "compact" => Some(JournalWork::Compact {
                tree: self.first(),
                journal: self.second()?,
                new: self.third()?,
            }),
            _ => None,
        }
    }

    // The first file, where no other follows.
    fn lone_file(&self) -> Option<&'a str>
        ensures { option_map (λ text. text.now) result ≡ lone_file self.now.words.now }
    {
        match self.second() {
            None => Some(self.first()),
            Some(_) => None,
        }
    }
}
