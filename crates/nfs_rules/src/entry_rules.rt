//! The rules that look at the entries of a directory, of which `.` and `..` are two.
ghost use Rattle.std.specs.Prelude.{◌≡◌, false, bytes_eq, Some, IfSome, IfOk, option_map};
ghost use Rattle.nfs_inodes.specs.Reading.{number_under, verifier_at};
ghost use Rattle.nfs_inodes.specs.Tree.{on_some};
ghost use Rattle.nfs_inodes.specs.Views.{IsSeen};
ghost use Rattle.nfs_rules.specs.Judging.{Reports};
ghost use Rattle.nfs_rules.specs.Tests as test;

use crate::rights::lets_go;
use crate::rule::{Rule, ensure};
use crate::subject::Subject;
use nfs_args::create::CreateHow;
use nfs_attrs::fattr::Fattr;
use nfs_attrs::file_type::FileType;
use nfs_inodes::view::FileView;

// The cookie of `..`, after which the other entries stand.
const LAST_DOT_COOKIE: u64 = 2;

impl<'a> Subject<'a> {
    /// The file under a name in the directory.
    #[inline(always)]
    pub fn found(&self, name: &[u8]) -> Option<FileView<'a>>
        ensures found { option_map (λ f. f.attributes) result ≡ test.found self.now name.now }
        ensures seen { IfSome result (λ f. IsSeen self.now.tree f) }
        ensures number { IfSome result (λ f. number_under self.now.tree self.now.file.fileid name.now ≡ Some f.attributes.fileid) }
    {
        self.tree.find_in(&self.file, name)
    }

    /// `NoEntry`: there is an entry of the name, whose file is answered.
    #[inline(always)]
    pub(crate) fn must_find(&self, name: &[u8]) -> Result<FileView<'a>, Rule>
        ensures rule { Reports result (test.no_entry self.now name.now) }
        ensures found { IfOk result (λ f. test.found self.now name.now ≡ Some f.attributes) }
        ensures seen { IfOk result (λ f. IsSeen self.now.tree f) }
        ensures number { IfOk result (λ f. number_under self.now.tree self.now.file.fileid name.now ≡ Some f.attributes.fileid) }
    {
        match self.found(name) {
            Some(file) => Ok(file),
            None => Err(Rule::NoEntry),
        }
    }

    /// `Exists`: there is no entry of the name.
    pub(crate) fn must_be_free(&self, name: &[u8]) -> Result<(), Rule>
        ensures { Reports result (test.exists self.now name.now) }
    {
        ensure(self.found(name).is_none(), Rule::Exists)
    }

    /// `Exists` in CREATE: there is no entry of the name, or its file is one that CREATE takes, which is
    /// answered then.
    #[inline(always)]
    pub(crate) fn must_be_free_or_taken(
        &self,
        name: &[u8],
        how: &CreateHow,
    ) -> Result<Option<FileView<'a>>, Rule>
        ensures rule { Reports result (test.exists_other self.now name.now how.now) }
        ensures found { IfOk result (λ o. option_map (λ f. f.attributes) o ≡ test.found self.now name.now) }
        ensures seen { IfOk result (λ o. IfSome o (λ f. IsSeen self.now.tree f)) }
    {
        match self.found(name) {
            None => Ok(None),
            Some(file) => {
                if self.takes(how, &file) {
                    Ok(Some(file))
                } else {
                    Err(Rule::Exists)
                }
            }
        }
    }

    // Whether CREATE takes a file that is there.
    fn takes(&self, how: &CreateHow, file: &FileView<'_>) -> bool
        ensures { result ≡ test.takes self.now.tree how.now file.now.attributes }
    {
        let regular = file.attributes().file_type == FileType::Regular;
        match how {
            CreateHow::Unchecked(_) => regular,
            CreateHow::Guarded(_) => false,
            CreateHow::Exclusive(verifier) => {
                regular && self.was_made_by(file, verifier.as_slice())
            }
        }
    }

    fn was_made_by(&self, file: &FileView<'_>, verifier: &[u8]) -> bool
        ensures { result ≡ on_some (verifier_at self.now.tree file.now.attributes.fileid) false (bytes_eq verifier.now) }
    {
        match self.tree.verifier(file.number()) {
            Some(made_by) => verifier == made_by.as_slice(),
            None => false,
        }
    }

    /// `Sticky`: the directory lets the entry of a file go.
    pub(crate) fn must_let_go(&self, file: &Fattr) -> Result<(), Rule>
        ensures { Reports result (test.sticky self.now file.now) }
    {
        ensure(lets_go(&self.ids, &self.attributes(), file), Rule::Sticky)
    }

    /// `NotEmpty`: a directory lists nothing but `.` and `..`.
    pub(crate) fn must_be_empty(&self, dir: &FileView<'_>) -> Result<(), Rule>
        requires { IsSeen self.now.tree dir.now }
        ensures { Reports result (test.not_empty self.now.tree dir.now.attributes) }
    {
        ensure(self.is_empty(dir), Rule::NotEmpty)
    }

    pub(crate) fn is_empty(&self, dir: &FileView<'_>) -> bool
        requires { IsSeen self.now.tree dir.now }
        ensures { result ≡ test.is_empty self.now.tree dir.now.attributes }
    {
        self.tree.entry_after_in(dir, LAST_DOT_COOKIE).is_none()
    }
}

/// `IsDirectory`: the file is no directory.
pub(crate) fn must_not_be_directory(file: &Fattr) -> Result<(), Rule>
    ensures { Reports result (test.is_directory file.now) }
{
    match file.file_type {
        FileType::Directory => Err(Rule::IsDirectory),
        _ => Ok(()),
    }
}

/// `TargetNotDirectory`: the file is a directory.
pub(crate) fn must_be_directory(file: &Fattr) -> Result<(), Rule>
    ensures { Reports result (test.target_not_directory file.now) }
{
    match file.file_type {
        FileType::Directory => Ok(()),
        _ => Err(Rule::TargetNotDirectory),
    }
}
