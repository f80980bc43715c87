//! The rules that look at limits: the bytes of a file and of its volume, the files of a volume, links,
//! and the numbers that are left.
ghost use Rattle.std.specs.Prelude.{◌≡◌, ◌+◌, ◌∷◌, [], false, not, nat_lt, nat_le};
ghost use Rattle.nfs_inodes.specs.Reading.{next_cookie_at};
ghost use Rattle.nfs_inodes.specs.Tree.{on_some};
ghost use Rattle.nfs_rules.specs.Judging.{Reports, Judges};
ghost use Rattle.nfs_rules.specs.Tests as test;

use crate::exported_file::volume_index;
use crate::rule::{Rule, ensure};
use crate::subject::Subject;

impl<'a> Subject<'a> {
    /// `TooBig` and `Space` where a file of this size takes the place of the one that is there; without
    /// a size nothing is looked at.
    pub(crate) fn must_have_room_for_size(&self, size: Option<u64>) -> Result<(), Rule>
        ensures { Judges result (test.too_big self.now.tree.limits size ∷ test.space self.now (test.growth self.now size) ∷ []) }
    {
        self.must_not_be_too_big(size)?;
        match size {
            None => Ok(()),
            Some(size) => self.must_have_space(Some(size.saturating_sub(self.attributes().size))),
        }
    }

    /// `TooBig` and `Space` where so many bytes are put at an offset; no bytes are never too many.
    pub(crate) fn must_have_room_for_bytes(&self, offset: u64, count: usize) -> Result<(), Rule>
        ensures { Judges result (test.too_big self.now.tree.limits (test.end_of offset count) ∷ test.space self.now
            (test.growth self.now (test.end_of offset count)) ∷ []) }
    {
        if count == 0 {
            return Ok(());
        }
        let most = self.tree.limits().file_size;
        if offset > most as u64 || count > most - offset as usize {
            return Err(Rule::TooBig);
        }
        let end = offset + count as u64;
        self.must_have_space(Some(end.saturating_sub(self.attributes().size)))
    }

    /// `Space`: the volume takes so many bytes more, if any.
    pub fn must_have_space(&self, more: Option<u64>) -> Result<(), Rule>
        ensures { Reports result (test.space self.now more) }
    {
        match more {
            None => Ok(()),
            Some(bytes) => ensure(self.has_space(bytes), Rule::Space),
        }
    }

    /// `Files`: the volume takes a file more.
    pub fn must_have_file_left(&self) -> Result<(), Rule>
        ensures { Reports result (test.files self.now) }
    {
        ensure(self.has_file_left(), Rule::Files)
    }

    /// `Numbers`: the directory has a cookie left for a further entry.
    pub fn must_have_cookie_left(&self) -> Result<(), Rule>
        ensures { Reports result (test.cookies self.now) }
    {
        ensure(self.has_cookie_left(), Rule::Numbers)
    }

    /// `Numbers`: there is a number left for a new file, and the directory has a cookie left for its
    /// entry.
    pub fn must_have_number_left(&self) -> Result<(), Rule>
        ensures { Reports result (test.numbers self.now) }
    {
        let kept = self.tree.next_number() < u64::MAX && self.has_cookie_left();
        ensure(kept, Rule::Numbers)
    }

    fn has_space(&self, bytes: u64) -> bool
        ensures { result ≡ not (test.in_volume self.now (λ volume totals. nat_lt volume.max_bytes (totals.bytes + bytes))) }
    {
        let index = volume_index(&self.attributes());
        match (self.tree.volume(index), self.tree.totals(index)) {
            (Some(volume), Some(totals)) => {
                totals.bytes <= volume.max_bytes && bytes <= volume.max_bytes - totals.bytes
            }
            _ => true,
        }
    }

    fn has_file_left(&self) -> bool
        ensures { result ≡ not (test.in_volume self.now (λ volume totals. nat_le volume.max_files totals.files)) }
    {
        let index = volume_index(&self.attributes());
        match (self.tree.volume(index), self.tree.totals(index)) {
            (Some(volume), Some(totals)) => totals.files < volume.max_files,
            _ => true,
        }
    }

    fn has_cookie_left(&self) -> bool
        ensures { result ≡ not (on_some (next_cookie_at self.now.tree self.now.file.fileid) false (nat_le test.last_number)) }
    {
        match self.tree.next_cookie_in(&self.file) {
            Some(cookie) => cookie < u64::MAX,
            None => true,
        }
    }

    /// `TooBig`: a file has at most the bytes that the tree takes of one; without a size nothing is
    /// looked at.
    pub(crate) fn must_not_be_too_big(&self, size: Option<u64>) -> Result<(), Rule>
        ensures { Reports result (test.too_big self.now.tree.limits size) }
    {
        match size {
            None => Ok(()),
            Some(size) => ensure(size <= self.tree.limits().file_size as u64, Rule::TooBig),
        }
    }

    /// `Links`: this file has fewer links than the tree takes of one.
    pub fn must_have_link_left(&self) -> Result<(), Rule>
        ensures { Reports result (test.links self.now.tree.limits self.now.file) }
    {
        let kept = self.attributes().nlink < self.tree.limits().links;
        ensure(kept, Rule::Links)
    }

    /// `PathLong`: a symbolic link's path has at most the bytes that the tree takes of one.
    pub fn link_path_must_be_short(&self, path: &[u8]) -> Result<(), Rule>
        ensures { Reports result (test.path_long self.now.tree.limits.link_path path.now) }
    {
        ensure(path.len() <= self.tree.limits().link_path, Rule::PathLong)
    }
}
