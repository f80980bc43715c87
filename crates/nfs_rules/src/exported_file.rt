//! The file that a handle names, where its volume is exported to the caller.
ghost use Rattle.std.specs.Prelude.{◌≡◌, ◌-◌, Some};
ghost use Rattle.nfs_inodes.specs.Law.{Law};
ghost use Rattle.nfs_inodes.specs.Reading.{attributes_at};
ghost use Rattle.nfs_rules.specs.Judging.{Judges};
ghost use Rattle.nfs_rules.specs.Subjects.{subject_at};
ghost use Rattle.nfs_rules.specs.Verdicts.{handle_rules};
ghost use Rattle.nfs_rules.specs.Views.{caller_of, ok_of};

use crate::caller::Caller;
use crate::rule::Rule;
use crate::subject::Subject;
use nfs_attrs::fattr::Fattr;
use nfs_exports::export_table::ExportTable;
use nfs_exports::options::Options;
use nfs_exports::squash::squash;
use nfs_handles::reading::NoFile;
use nfs_inodes::tree::Tree;
use nfs_inodes::view::FileView;
use nfs_rpc::auth_sys::Cred;
use std::marker::Model;

/// A file that lives, and the options that the caller's address has at its volume. Contracts see it
/// with the ids that these leave to the caller, which are not worked out before they are asked for.
#[derive(Drop)]
pub struct ExportedFile<'a> {
    tree: &'a Tree,
    file: FileView<'a>,
    options: &'a Options,
    cred: &'a Cred,
}

impl<'a> Model for ExportedFile<'a> {
    ghost use Rattle.nfs_exports.specs.Ids as ids;
    ghost use Rattle.nfs_inodes.specs.Views.{IsSeen};
    ghost use Rattle.nfs_rpc.specs.AuthSys.{credential_of};
    ghost use Rattle.nfs_rules.specs.Subjects as shown;

    ghost Value = { shown.Subject };

    ghost view = { λ a. record {
      tree = a.tree.now;
      file = a.file.attributes;
      options = a.options.now;
      ids = ids.squash a.options.now (credential_of a.cred.now);
    } };

    ghost invariant = { λ a. IsSeen a.tree.now a.file };
}

impl<'a> ExportedFile<'a> {
    /// The file that a handle names, or the first rule of the handle that fails: `BadHandle`,
    /// `StaleHandle` or `Export`.
    #[inline(always)]
    pub fn of(
        tree: &'a Tree,
        table: &'a ExportTable,
        caller: Caller<'a>,
        handle: &[u8],
    ) -> Result<ExportedFile<'a>, Rule>
        ensures rules { Judges result (handle_rules tree.entry.now table.entry.now (caller_of caller.entry) handle.now) }
        ensures subject { ok_of result ≡ subject_at tree.entry.now table.entry.now (caller_of caller.entry) handle.now }
    {
        let file = match tree.find(handle) {
            Ok(file) => file,
            Err(NoFile::Stale) => return Err(Rule::StaleHandle),
            Err(NoFile::Bad) => return Err(Rule::BadHandle),
        };
        let Some(options) = table.grant(volume_index(&file.attributes()), caller.addr) else {
            return Err(Rule::Export);
        };
        Ok(ExportedFile {
            tree,
            file,
            options,
            cred: caller.cred,
        })
    }

    /// The attributes of the file.
    #[inline(always)]
    pub fn attributes(&self) -> Fattr
        ensures { result ≡ self.now.file }
    {
        self.file.attributes()
    }

    /// The tree is a lawful one, and the file is there, for proofs.
    #[inline(always)]
    pub fn law(&self)
        ensures law { Law self.now.tree }
        ensures file { attributes_at self.now.tree self.now.file.fileid ≡ Some self.now.file }
    {
        self.tree.law();
    }

    /// The same with the ids by which the caller is judged.
    #[inline(always)]
    pub fn subject(&self) -> Subject<'a>
        ensures { result ≡ self.now }
    {
        Subject::new(
            self.tree,
            self.file.copied(),
            self.options,
            squash(self.options, self.cred),
        )
    }
}

// The index of a file's volume, from 0.
pub(crate) fn volume_index(file: &Fattr) -> usize
    ensures { result ≡ file.now.fsid - 1 }
{
    file.fsid.saturating_sub(1) as usize
}
