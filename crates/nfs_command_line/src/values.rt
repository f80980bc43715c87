//! Values that more than one command takes.
ghost use Rattle.std.specs.Prelude.{◌≡◌, codes, map};
ghost use Rattle.nfs_command_line.specs.Given.{IsNumberOr, text_of, texts_given};

use clap::ArgMatches;
use std::str::FromStr;

/// A word that has to be there.
pub(crate) fn text<'a>(words: &'a ArgMatches<'_>, id: &str) -> &'a str
    ensures { result.now ≡ text_of words.entry.now id.now }
{
    let found = words.get_str(id);
    match found {
        Some(text) => text,
        None => "",
    }
}

/// The words of an option that may be repeated.
pub(crate) fn texts<'a>(words: &'a ArgMatches<'_>, id: &str) -> &'a [&'a str]
    ensures { map (λ text. text.now) result.now ≡ texts_given words.entry.now id.now }
{
    words.get_strs(id).unwrap_or(&[])
}

/// How many replies are kept.
pub(crate) fn cache(words: &ArgMatches<'_>) -> usize
    ensures { IsNumberOr 128 ⟦<usize as FromStr>⟧.from_str_gives words.now (codes "cache") result }
{
    words.get_one::<usize>("cache").unwrap_or(128)
}
