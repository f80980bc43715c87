//! The lines of a text.
ghost use Rattle.std.specs.Prelude.{◌≡◌, option_map};
ghost use Rattle.std.specs.Iterator.{YieldsFirstRef, item_count};
ghost use Rattle.nfs_text.specs.Lines.{lines, lines_left};
ghost use Rattle.nfs_text.specs.Chunks.{cut};

use memchr::memchr;

// What stands before the first LF, and what stands after it. `None` after a text that has none.
#[inline(always)]
fn cut_line(text: &[u8]) -> (&[u8], Option<&[u8]>)
    ensures { (result.0.now, option_map (λ rest. rest.now) result.1) ≡ cut 10 text.now }
{
    match memchr(b'\n', text) {
        Some(place) => (&text[..place], Some(&text[place + 1..])),
        None => (text, None),
    }
}

/// Gives the lines of a text in turn, each without the LF at its end, which the last may lack. The
/// empty text has no line.
#[derive(Drop)]
pub struct Lines<'a> {
    rest: &'a [u8],
}

impl<'a> Lines<'a> {
    /// The lines of this text.
    pub fn new(text: &'a [u8]) -> Lines<'a>
        ensures { lines_left result ≡ lines text.entry.now }
    {
        Lines { rest: text }
    }
}

impl<'a> Iterator for Lines<'a> {
    type Item = &'a [u8];

    ghost next_gives = { YieldsFirstRef lines_left };

    ghost remaining = { item_count lines_left };

    fn next(&mut self) -> Option<&'a [u8]> {
        if self.rest.is_empty() {
            return None;
        }
        let (line, rest) = cut_line(self.rest);
        self.rest = rest.unwrap_or(&[]);
        Some(line)
    }
}
