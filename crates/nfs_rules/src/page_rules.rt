//! The rule that looks at the room of a page of a directory (RFC 1813, sections 3.3.16 and 3.3.17).
ghost use Rattle.std.specs.Prelude.{◌≡◌, min, IfOk};
ghost use Rattle.nfs_args.specs.Sizes.{max_page};
ghost use Rattle.nfs_dirs.specs.Opening.{IsOpen};
ghost use Rattle.nfs_dirs.specs.Pages.{left_after, plus_bytes};
ghost use Rattle.nfs_rules.specs.Judging.{Reports};
ghost use Rattle.nfs_rules.specs.Rights.{may};
ghost use Rattle.nfs_rules.specs.Tests as test;

use crate::rights::Right;
use crate::rule::Rule;
use crate::subject::Subject;
use nfs_dirs::open_page::{OpenPage, OpenPagePlus};

impl<'a> Subject<'a> {
    /// `TooSmall` in READDIR: the head of a page and the first entry that is left are within `count`
    /// bytes. The page, with the first entry.
    pub(crate) fn first_must_fit(&self, cookie: u64, count: u32) -> Result<OpenPage<'a>, Rule>
        ensures rule { Reports result (test.too_small self.now cookie count 0) }
        ensures open { IfOk result (IsOpen (left_after self.now.tree self.now.file.fileid cookie) (min count max_page) 0) }
    {
        match OpenPage::new(self.tree, &self.file, cookie, count) {
            Ok(page) => Ok(page),
            Err(_) => Err(Rule::TooSmall),
        }
    }

    /// `TooSmall` in READDIRPLUS, which shows what the entries' files are where the caller may search
    /// the directory.
    pub(crate) fn first_must_fit_plus(
        &self,
        cookie: u64,
        maxcount: u32,
    ) -> Result<OpenPagePlus<'a>, Rule>
        ensures rule { Reports result (test.too_small self.now cookie maxcount
            (plus_bytes (may self.now.ids self.now.file Right.Execute))) }
        ensures open { IfOk result (λ p. IsOpen (left_after self.now.tree self.now.file.fileid cookie) (min maxcount max_page)
            (plus_bytes (may self.now.ids self.now.file Right.Execute)) p.page) }
        ensures searchable { IfOk result (λ p. p.searchable ≡ may self.now.ids self.now.file Right.Execute) }
    {
        let searchable = self.may_search();
        match OpenPagePlus::new(self.tree, &self.file, cookie, maxcount, searchable) {
            Ok(page) => Ok(page),
            Err(_) => Err(Rule::TooSmall),
        }
    }
}
