//! The file that a call is about, and how its caller is judged there.
ghost use Rattle.std.specs.Prelude.{◌≡◌, ◌||◌, nat_eq, Some};
ghost use Rattle.std.specs.List.{list_any};
ghost use Rattle.nfs_inodes.specs.Law.{Law};
ghost use Rattle.nfs_inodes.specs.Reading.{attributes_at};
ghost use Rattle.nfs_inodes.specs.Views.{IsSeen};
ghost use Rattle.nfs_rules.specs.Rights as rights;

use crate::rights::access_bits;
use nfs_attrs::fattr::Fattr;
use nfs_exports::options::Options;
use nfs_exports::squash::Ids;
use nfs_inodes::tree::Tree;
use nfs_inodes::view::FileView;
use std::marker::Model;

/// A file of a tree, the options that the caller's address has at its volume, and the ids that these
/// leave to the caller. The rules are its methods: each answers itself where the call fails it.
#[derive(Drop)]
pub struct Subject<'a> {
    pub(crate) tree: &'a Tree,
    pub(crate) file: FileView<'a>,
    pub(crate) options: &'a Options,
    pub(crate) ids: Ids<'a>,
}

impl<'a> Model for Subject<'a> {
    ghost use Rattle.nfs_inodes.specs.Views.{IsSeen};
    ghost use Rattle.nfs_rules.specs.Subjects as shown;

    ghost Value = { shown.Subject };

    ghost view = { λ a. record { tree = a.tree.now; file = a.file.attributes; options = a.options.now; ids = a.ids } };

    ghost invariant = { λ a. IsSeen a.tree.now a.file };
}

impl<'a> Subject<'a> {
    #[inline(always)]
    pub(crate) fn new(
        tree: &'a Tree,
        file: FileView<'a>,
        options: &'a Options,
        ids: Ids<'a>,
    ) -> Subject<'a>
        requires { IsSeen tree.now file }
        ensures { result ≡ record { tree = tree.entry.now; file = file.entry.attributes; options = options.entry.now; ids = ids.entry } }
    {
        Subject {
            tree,
            file,
            options,
            ids,
        }
    }

    /// The attributes of the file.
    #[inline(always)]
    pub fn attributes(&self) -> Fattr
        ensures { result ≡ self.now.file }
    {
        self.file.attributes()
    }

    /// The file, with what is read of it.
    #[inline(always)]
    pub fn view(&self) -> &FileView<'a>
        ensures attributes { result.now.attributes ≡ self.now.file }
        ensures seen { IsSeen self.now.tree result.now }
    {
        &self.file
    }

    /// The user by whom the caller is judged.
    #[inline(always)]
    pub fn uid(&self) -> u32
        ensures { result ≡ self.now.ids.uid }
    {
        self.ids.uid()
    }

    /// The user's group.
    #[inline(always)]
    pub fn gid(&self) -> u32
        ensures { result ≡ self.now.ids.gid }
    {
        self.ids.gid()
    }

    /// Whether the user is in a group.
    #[inline(always)]
    pub fn is_in_group(&self, gid: u32) -> bool
        ensures { result ≡ (nat_eq gid self.now.ids.gid || list_any (nat_eq gid) self.now.ids.gids) }
    {
        self.ids.is_in(gid)
    }

    /// Of the bits that ACCESS asks for those that are granted.
    #[inline(always)]
    pub fn access_bits(&self, asked: u32) -> u32
        ensures { result ≡ rights.access_bits self.now.options.read_only self.now.ids self.now.file asked }
    {
        access_bits(self.options, &self.ids, &self.attributes(), asked)
    }

    /// The tree is a lawful one, and the file is there, for proofs.
    pub fn law(&self)
        ensures law { Law self.now.tree }
        ensures file { attributes_at self.now.tree self.now.file.fileid ≡ Some self.now.file }
    {
        self.tree.law();
    }

    /// Another file of the tree in its place, which is of the same volume.
    pub(crate) fn beside(&self, file: &FileView<'a>) -> Subject<'a>
        requires { IsSeen self.now.tree file.now }
        ensures { result ≡ record self.now { file = file.now.attributes } }
    {
        Subject::new(self.tree, file.copied(), self.options, self.ids.copied())
    }
}
