//! The options of one of several directories, by their places among the words.
ghost use Rattle.std.specs.Prelude.{◌≡◌, map, option_map};
ghost use Rattle.nfs_command_line.specs.Given.{IsRead, number_in, places_given, text_in, texts_in};
ghost use Rattle.nfs_command_line.specs.Given as spec;

use crate::values::texts;
use clap::ArgMatches;
use std::str::FromStr;

/// Where among the words of a command the options of a directory stand.
#[derive(Clone, Copy)]
pub(crate) enum Span {
    /// Anywhere, since there is no other directory.
    Whole,
    /// From this place on, and before the other, where there is one.
    Between(usize, Option<usize>),
}

/// The texts of an option that stand there.
pub(crate) fn texts_in<'a>(words: &'a ArgMatches<'_>, id: &str, span: Span) -> &'a [&'a str]
    ensures { map (λ text. text.now) result.now ≡ spec.texts_in span words.entry.now id.now }
{
    let all = texts(words, id);
    match span {
        Span::Whole => all,
        Span::Between(from, to) => {
            let places = places(words, id);
            slice_of(all, count_before(places, from), end_of(all, places, to))
        }
    }
}

/// The first text of an option that stands there.
pub(crate) fn text_in<'a>(words: &'a ArgMatches<'_>, id: &str, span: Span) -> Option<&'a str>
    ensures { option_map (λ text. text.now) result ≡ spec.text_in span words.entry.now id.now }
{
    match span {
        Span::Whole => words.get_str(id),
        Span::Between(..) => texts_in(words, id, span).first().copied(),
    }
}

/// The first number of an option that stands there.
pub(crate) fn number_in(words: &ArgMatches<'_>, id: &str, span: Span) -> Option<u64>
    ensures { IsRead ⟦<u64 as FromStr>⟧.from_str_gives (spec.number_in span words.now id.now) result }
{
    match span {
        Span::Whole => words.get_one::<u64>(id),
        Span::Between(..) => text_in(words, id, span)?.parse::<u64>().ok(),
    }
}

/// The places of the values of an option or a word among all words, from 1, in their order.
pub(crate) fn places<'a>(words: &'a ArgMatches<'_>, id: &str) -> &'a [usize]
    ensures { result.now ≡ places_given words.entry.now id.now }
{
    words.indices_of(id).unwrap_or(&[])
}

// How many of the texts at these places are before a place, where there is one.
fn end_of(texts: &[&str], places: &[usize], to: Option<usize>) -> usize
    ensures { result ≡ spec.end_of to places.now texts.now }
{
    match to {
        Some(to) => count_before(places, to),
        None => texts.len(),
    }
}

// How many of these places are before a place.
fn count_before(places: &[usize], place: usize) -> usize
    ensures { result ≡ spec.count_before place places.now }
{
    places.iter().filter(|other| **other < place).count()
}

// The texts from one place of a list up to another, as far as there are any.
fn slice_of<'a>(texts: &'a [&'a str], start: usize, end: usize) -> &'a [&'a str]
    ensures { result.now ≡ spec.slice_of start end texts.entry.now }
{
    let front = texts.split_at(end.min(texts.len())).0;
    front.split_at(start.min(front.len())).1
}
