//! Parts of a line, with where they stand in it.
ghost use Rattle.std.specs.Prelude.{◌≡◌, ◌+◌, ◌≤◌, length, take, drop, min, IfSome};

use nfs_text::chunks::Chunks;

/// A part of a line, which is lent.
#[derive(Clone, Copy)]
pub struct Span<'a> {
    line: &'a [u8],
    start: usize,
    len: usize,
}

impl<'a> Span<'a> {
    /// A whole line.
    pub fn whole(line: &'a [u8]) -> Span<'a>
        ensures line { result.line.now ≡ line.entry.now }
        ensures start { result.start ≡ 0 }
        ensures len { result.len ≡ length line.entry.now }
    {
        Span {
            line,
            start: 0,
            len: line.len(),
        }
    }

    /// Its bytes.
    pub fn bytes(self) -> &'a [u8]
        ensures { result.now ≡ take self.entry.len (drop self.entry.start self.entry.line.now) }
    {
        let start = self.start.min(self.line.len());
        let (_, rest) = self.line.split_at(start);
        let (bytes, _) = rest.split_at(self.len.min(rest.len()));
        bytes
    }

    /// The column of its first byte, counted from 1; of a part without bytes, the column that it stands
    /// before.
    pub fn column(self) -> usize
        ensures column { result ≡ min self.entry.start (length self.entry.line.now) + 1 }
        ensures within { result ≤ length self.entry.line.now + 1 }
    {
        self.start.min(self.line.len()) + 1
    }

    /// How many bytes it has.
    pub fn len(self) -> usize
        ensures { result ≡ length (take self.entry.len (drop self.entry.start self.entry.line.now)) }
    {
        self.bytes().len()
    }

    /// Whether it has no byte.
    pub fn is_empty(self) -> bool {
        self.bytes().is_empty()
    }

    /// The part from one place to another, both counted from its first byte; what lies after its end is
    /// skipped.
    pub fn part(self, from: usize, to: usize) -> Span<'a>
        ensures { result.line.now ≡ self.entry.line.now }
    {
        let start = from.min(self.len);
        let end = to.min(self.len).max(start);
        Span {
            line: self.line,
            start: self.start.saturating_add(start),
            len: end - start,
        }
    }

    /// The part that begins at a place and goes to its end.
    pub fn after(self, from: usize) -> Span<'a>
        ensures { result.line.now ≡ self.entry.line.now }
    {
        self.part(from, self.len())
    }

    /// The word at a place, from 0. `None` where there are no more than so many.
    pub fn word(self, place: usize) -> Option<Span<'a>>
        ensures { IfSome result (λ word. word.line.now ≡ self.entry.line.now) }
    {
        let mut left = place;
        let mut start = 0usize;
        for text in Chunks::new(self.bytes(), b' ') {
            let end = start.saturating_add(text.len());
            if !text.is_empty() {
                if left == 0 {
                    return Some(self.part(start, end));
                }
                left -= 1;
            }
            start = end.saturating_add(1);
        }
        None
    }

    /// How many words it has.
    pub(crate) fn count_words(self) -> usize {
        let mut count = 0usize;
        for text in Chunks::new(self.bytes(), b' ') {
            if !text.is_empty() {
                count = count.saturating_add(1);
            }
        }
        count
    }
}
