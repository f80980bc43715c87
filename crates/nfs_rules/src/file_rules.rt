//! The rules that look at the file, its volume's options and the caller's rights (RFC 1813, section
//! 4.4). The owner of a file may read and write it whatever its mode says, and who may execute it
//! may read it.
ghost use Rattle.std.specs.Prelude.{◌≡◌};
ghost use Rattle.nfs_rules.specs.Judging.{Reports};
ghost use Rattle.nfs_rules.specs.Rights as rights;
ghost use Rattle.nfs_rules.specs.Tests as test;

use crate::rights::{Right, may, owns};
use crate::rule::{Rule, ensure};
use crate::subject::Subject;
use nfs_attrs::file_type::FileType;

impl<'a> Subject<'a> {
    /// Whether the caller owns the file, or its mode gives the right.
    #[inline(always)]
    pub(crate) fn owns_or_may(&self, right: Right) -> bool
        ensures { result ≡ test.owns_or_may self.now right }
    {
        owns(&self.ids, &self.attributes()) || may(&self.ids, &self.attributes(), right)
    }

    /// `ReadOnly`: the volume is exported for writing.
    #[inline(always)]
    pub fn must_not_be_read_only(&self) -> Result<(), Rule>
        ensures { Reports result (test.read_only self.now) }
    {
        ensure(!self.options.read_only, Rule::ReadOnly)
    }

    /// `NotRegular`: the file is a regular one.
    #[inline(always)]
    pub fn must_be_regular(&self) -> Result<(), Rule>
        ensures { Reports result (test.not_regular self.now) }
    {
        match self.attributes().file_type {
            FileType::Regular => Ok(()),
            _ => Err(Rule::NotRegular),
        }
    }

    /// `NotLink`: the file is a symbolic link.
    #[inline(always)]
    pub fn must_be_link(&self) -> Result<(), Rule>
        ensures { Reports result (test.not_link self.now) }
    {
        match self.attributes().file_type {
            FileType::SymbolicLink => Ok(()),
            _ => Err(Rule::NotLink),
        }
    }

    /// `NotDirectory`: the file is a directory.
    #[inline(always)]
    pub(crate) fn must_be_directory(&self) -> Result<(), Rule>
        ensures { Reports result (test.not_directory self.now) }
    {
        match self.attributes().file_type {
            FileType::Directory => Ok(()),
            _ => Err(Rule::NotDirectory),
        }
    }

    /// `LinkDirectory`: the file is no directory.
    #[inline(always)]
    pub(crate) fn must_not_be_directory(&self) -> Result<(), Rule>
        ensures { Reports result (test.link_directory self.now) }
    {
        match self.attributes().file_type {
            FileType::Directory => Err(Rule::LinkDirectory),
            _ => Ok(()),
        }
    }

    /// `ReadRight`: the caller may read or execute the file, or owns it.
    #[inline(always)]
    pub(crate) fn must_be_readable(&self) -> Result<(), Rule>
        ensures { Reports result (test.read_right self.now) }
    {
        let kept = self.owns_or_may(Right::Read)
            || may(&self.ids, &self.attributes(), Right::Execute);
        ensure(kept, Rule::ReadRight)
    }

    /// `WriteRight`: the caller may write the file, or owns it.
    #[inline(always)]
    pub(crate) fn must_be_writable(&self) -> Result<(), Rule>
        ensures { Reports result (test.write_right self.now) }
    {
        ensure(self.owns_or_may(Right::Write), Rule::WriteRight)
    }

    /// `Search`: the caller may search the directory.
    #[inline(always)]
    pub(crate) fn must_be_searchable(&self) -> Result<(), Rule>
        ensures { Reports result (test.search_right self.now) }
    {
        ensure(self.may_search(), Rule::Search)
    }

    /// Whether the caller may search the directory.
    #[inline(always)]
    pub fn may_search(&self) -> bool
        ensures { result ≡ rights.may self.now.ids self.now.file Right.Execute }
    {
        may(&self.ids, &self.attributes(), Right::Execute)
    }

    /// `DirectoryRead`: the caller may read the directory.
    #[inline(always)]
    pub(crate) fn must_be_listable(&self) -> Result<(), Rule>
        ensures { Reports result (test.directory_read self.now) }
    {
        ensure(
            may(&self.ids, &self.attributes(), Right::Read),
            Rule::DirectoryRead,
        )
    }

    /// `DirectoryWrite`: the caller may write the directory.
    #[inline(always)]
    pub(crate) fn must_be_changeable(&self) -> Result<(), Rule>
        ensures { Reports result (test.directory_write self.now) }
    {
        ensure(
            may(&self.ids, &self.attributes(), Right::Write),
            Rule::DirectoryWrite,
        )
    }
}
