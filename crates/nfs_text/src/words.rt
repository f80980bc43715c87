//! The words of a line.
ghost use Rattle.std.specs.Prelude.{◌≡◌};
ghost use Rattle.std.specs.Iterator.{YieldsFirstRef, item_count};
ghost use Rattle.nfs_text.specs.Words.{words, words_left};

use crate::chunks::Chunks;

/// Gives the words of a line in turn: what stands between spaces, where something does.
#[derive(Clone, Copy)]
pub struct Words<'a> {
    chunks: Chunks<'a>,
}

impl<'a> Words<'a> {
    /// The words of this line.
    pub fn new(line: &'a [u8]) -> Words<'a>
        ensures { words_left result ≡ words line.entry.now }
    {
        Words {
            chunks: Chunks::new(line, b' '),
        }
    }
}

impl<'a> Iterator for Words<'a> {
    type Item = &'a [u8];

    ghost next_gives = { YieldsFirstRef words_left };

    ghost remaining = { item_count words_left };

    fn next(&mut self) -> Option<&'a [u8]> {
        while let Some(chunk) = self.chunks.next() {
            if !chunk.is_empty() {
                return Some(chunk);
            }
        }
        None
    }
}
