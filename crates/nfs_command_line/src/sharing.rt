//! The words that name a tree, and how a directory on disk is shared.
ghost use Rattle.std.specs.Prelude.{◌≡◌, codes, map, option_map};
ghost use Rattle.nfs_command_line.specs.Given.{IsRead, number_in, text_in, texts_in};
ghost use Rattle.nfs_command_line.specs.Named.{IsAlone};

use crate::arguments::{BYTES, CHOWN, FILES, MOUNT};
use crate::rows::ArgRow;
use crate::span::{Span, number_in, text_in, texts_in};
use crate::values::text;
use clap::ArgMatches;
use std::str::FromStr;

/// A word that names a tree: the file of a description, or a directory on disk with how it is shared.
#[derive(Clone, Copy)]
pub struct TreeWords<'a, 'w> {
    pub(crate) words: &'a ArgMatches<'w>,
    pub(crate) name: &'a str,
    pub(crate) span: Span,
}

impl<'a, 'w> TreeWords<'a, 'w> {
    /// The word TREE of a command that takes one.
    pub(crate) fn new(words: &'a ArgMatches<'w>) -> TreeWords<'a, 'w>
        ensures { IsAlone words.entry result }
    {
        TreeWords {
            words,
            name: text(words, "tree"),
            span: Span::Whole,
        }
    }

    /// Its name on disk.
    pub fn name(&self) -> &'a str
        ensures { result.now ≡ self.now.name.now }
    {
        self.name
    }

    /// How it is shared, where it is a directory.
    pub fn sharing(&self) -> Sharing<'a, 'w>
        ensures words { result.words ≡ self.now.words }
        ensures span { result.span ≡ self.now.span }
    {
        Sharing {
            words: self.words,
            span: self.span,
        }
    }
}

/// How a directory on disk is shared as a volume: by the options of the command, or where that takes several
/// directories, by those that stand between this one and the next.
#[derive(Clone, Copy)]
pub struct Sharing<'a, 'w> {
    words: &'a ArgMatches<'w>,
    span: Span,
}

impl<'a, 'w> Sharing<'a, 'w> {
    /// The path that clients mount; without it the directory's name.
    pub fn mount(&self) -> Option<&'a str>
        ensures { option_map (λ text. text.now) result ≡ text_in self.now.span self.now.words.now (codes "mount") }
    {
        text_in(self.words, "mount", self.span)
    }

    /// The volume's most bytes.
    pub fn bytes(&self) -> Option<u64>
        ensures { IsRead ⟦<u64 as FromStr>⟧.from_str_gives (number_in self.now.span self.now.words.now (codes "bytes")) result }
    {
        number_in(self.words, "bytes", self.span)
    }

    /// The volume's most files.
    pub fn files(&self) -> Option<u64>
        ensures { IsRead ⟦<u64 as FromStr>⟧.from_str_gives (number_in self.now.span self.now.words.now (codes "files")) result }
    {
        number_in(self.words, "files", self.span)
    }

    /// To whom it is exported, each as PATTERN=OPTIONS.
    pub fn exports(&self) -> &'a [&'a str]
        ensures { map (λ text. text.now) result.now ≡ texts_in self.now.span self.now.words.now (codes "export") }
    {
        texts_in(self.words, "export", self.span)
    }

    /// The owner and group of all files, as UID:GID; without it those on disk.
    pub fn chown(&self) -> Option<&'a str>
        ensures { option_map (λ text. text.now) result ≡ text_in self.now.span self.now.words.now (codes "chown") }
    {
        text_in(self.words, "chown", self.span)
    }

    /// An option that is given twice, and may not be.
    pub(crate) fn repeated(&self) -> Option<ArgRow> {
        for row in [MOUNT, BYTES, FILES, CHOWN] {
            if texts_in(self.words, row.id, self.span).len() > 1 {
                return Some(row);
            }
        }
        None
    }
}

/// The owner and the group of a file.
#[derive(Clone, Copy)]
pub struct Owner {
    /// The user's number.
    pub uid: u32,
    /// The group's number.
    pub gid: u32,
}

impl Owner {
    /// The owner that UID:GID names. `None` where the text is not two numbers.
    pub fn of_text(text: &str) -> Option<Owner> {
        let (uid, gid) = text.split_once(':')?;
        Some(Owner {
            uid: uid.parse::<u32>().ok()?,
            gid: gid.parse::<u32>().ok()?,
        })
    }
}
