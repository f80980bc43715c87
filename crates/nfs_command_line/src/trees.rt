//! The words of a command that takes several directories.
ghost use Rattle.std.specs.Prelude.{◌≡◌, ◌-◌, length};
ghost use Rattle.std.specs.Iterator.{at_most};
ghost use Rattle.nfs_command_line.specs.Given as spec;
ghost use Rattle.nfs_command_line.specs.Named.{AreNamed, next_of};

use crate::arguments::{BYTES, CHOWN, EXPORT, FILES, MOUNT};
use crate::sharing::TreeWords;
use crate::span::{Span, places, texts_in};
use crate::values::texts;
use clap::ArgMatches;

/// The words of a command that each name a directory, or the one that names a description, in their order. The
/// options that stand after one of several are for it, up to the next one.
#[derive(Clone, Copy)]
pub struct Trees<'a, 'w> {
    words: &'a ArgMatches<'w>,
    names: &'a [&'a str],
    places: &'a [usize],
    at: usize,
}

impl<'a, 'w> Trees<'a, 'w> {
    /// The values of this word.
    pub(crate) fn new(words: &'a ArgMatches<'w>, id: &str) -> Trees<'a, 'w>
        ensures { AreNamed words.entry id.now result }
    {
        Trees {
            words,
            names: texts(words, id),
            places: places(words, id),
            at: 0,
        }
    }

    /// Whether an option stands before the first of several, so that it is for none.
    pub(crate) fn has_early_option(&self) -> bool {
        let Some(first) = self.places.first() else {
            return false;
        };
        let early = Span::Between(0, Some(*first));
        for row in [MOUNT, EXPORT, BYTES, FILES, CHOWN] {
            if self.names.len() > 1 && !texts_in(self.words, row.id, early).is_empty() {
                return true;
            }
        }
        false
    }
}

impl<'a, 'w> Iterator for Trees<'a, 'w> {
    type Item = TreeWords<'a, 'w>;

    ghost remaining = { λ trees. at_most (length trees.names.now - trees.at) };

    ghost next_gives = { λ old tree new. (tree ≡ next_of old) × (new ≡ record old { at = new.at }) };

    fn next(&mut self) -> Option<TreeWords<'a, 'w>> {
        let name = self.names.get(self.at).copied()?;
        let span = span_at(self.names.len(), self.places, self.at);
        self.at = self.at.saturating_add(1);
        Some(TreeWords {
            words: self.words,
            name,
            span,
        })
    }
}

// The span of the options of one of so many, which have these places.
fn span_at(count: usize, places: &[usize], at: usize) -> Span
    ensures { result ≡ spec.span_at count places.now at }
{
    if count < 2 {
        return Span::Whole;
    }
    let next = match at.checked_add(1) {
        Some(next) => places.get(next).copied(),
        None => None,
    };
    Span::Between(places.get(at).copied().unwrap_or(0), next)
}
