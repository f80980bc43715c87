//! The chunks of a text between separators.
ghost use Rattle.std.specs.Prelude.{◌≡◌, option_map};
ghost use Rattle.std.specs.Iterator.{YieldsFirstRef, item_count};
ghost use Rattle.nfs_text.specs.Chunks as spec;
ghost use Rattle.nfs_text.specs.Chunks.{chunks, chunks_left};

/// What stands before the first separator, and what stands after it. `None` after a text that
/// has no separator.
pub fn cut(text: &[u8], separator: u8) -> (&[u8], Option<&[u8]>)
    ensures { (result.0.now, option_map (λ rest. rest.now) result.1) ≡ spec.cut separator text.now }
{
    match text.iter().position(|byte| *byte == separator) {
        Some(place) => (&text[..place], Some(&text[place + 1..])),
        None => (text, None),
    }
}

/// Gives the chunks of a text in turn: what stands before the first separator, between each two,
/// and after the last. A text without a separator is one chunk, the empty text an empty one.
#[derive(Clone, Copy)]
pub struct Chunks<'a> {
    separator: u8,
    rest: Option<&'a [u8]>,
}

impl<'a> Chunks<'a> {
    /// The chunks of this text.
    pub fn new(text: &'a [u8], separator: u8) -> Chunks<'a>
        ensures { chunks_left result ≡ chunks separator text.entry.now }
    {
        Chunks {
            separator,
            rest: Some(text),
        }
    }
}

impl<'a> Iterator for Chunks<'a> {
    type Item = &'a [u8];

    ghost next_gives = { YieldsFirstRef chunks_left };

    ghost remaining = { item_count chunks_left };

    fn next(&mut self) -> Option<&'a [u8]> {
        let (chunk, rest) = cut(self.rest?, self.separator);
        self.rest = rest;
        Some(chunk)
    }
}
