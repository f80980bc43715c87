//! A file that lives, with what is read of it.
ghost use Rattle.std.specs.Prelude.{◌≡◌, ◌<◌, drop, option_map, Some, None, IfSome, IfNone};
ghost use Rattle.nfs_handles.specs.Handles.{handle_at};
ghost use Rattle.nfs_inodes.specs.Limits.{max_volumes};
ghost use Rattle.nfs_inodes.specs.Tree.{Tree};
ghost use Rattle.nfs_inodes.specs.Storage.{file_of, kind_of};
ghost use Rattle.nfs_inodes.specs.Reading.{IsFirstChunk, attributes_of, attributes_at, bytes_at};
ghost use Rattle.nfs_inodes.specs.Reading.{number_under, numbered_files};
ghost use Rattle.nfs_inodes.specs.Views.{kind_seen, bytes_seen, IsSeen};

use crate::attributes::attributes_of;
use crate::content_reader::run_from;
use crate::directory::under_name;
use crate::stored_file::{Node, StoredFile};
use crate::tree::Tree;
use nfs_attrs::fattr::Fattr;
use nfs_handles::number::Number;
use std::marker::Model;

/// A file that lives, whose attributes and content are read without a search.
#[derive(Drop)]
pub struct FileView<'a> {
    stored_file: &'a StoredFile,
    number: Number,
}

impl<'a> Model for FileView<'a> {
    ghost use Rattle.std.specs.Prelude.{◌<◌};
    ghost use Rattle.nfs_inodes.specs.Limits.{max_volumes};
    ghost use Rattle.nfs_inodes.specs.Reading.{attributes_of};
    ghost use Rattle.nfs_inodes.specs.Storage.{file_of, kind_of};
    ghost use Rattle.nfs_inodes.specs.Views as seen;

    ghost Value = { seen.FileView };

    ghost view = { λ a. record {
      attributes = attributes_of a.number.0 (file_of 0 a.stored_file.now) a.stored_file.now.nlink;
      kind = kind_of a.stored_file.now.node;
    } };

    ghost invariant = { λ a. a.stored_file.now.volume < max_volumes };
}

impl<'a> FileView<'a> {
    // The file that is kept under a number.
    #[inline(always)]
    pub(crate) fn new(stored_file: &'a StoredFile, number: Number) -> FileView<'a>
        requires { stored_file.now.volume < max_volumes }
        ensures attributes { result.attributes ≡ attributes_of number.0 (file_of 0 stored_file.now) stored_file.now.nlink }
        ensures kind { kind_seen result ≡ kind_of stored_file.now.node }
    {
        FileView {
            stored_file,
            number,
        }
    }

    /// Its attributes (RFC 1813, section 2.6, fattr3).
    #[inline(always)]
    pub fn attributes(&self) -> Fattr
        ensures { result ≡ self.now.attributes }
    {
        attributes_of(self.stored_file, self.number)
    }

    /// The same file, lent once more.
    #[inline(always)]
    pub fn copied(&self) -> FileView<'a>
        ensures { result ≡ self.now }
    {
        FileView {
            stored_file: self.stored_file,
            number: self.number,
        }
    }

    // What is kept of it beside its attributes.
    #[inline(always)]
    pub(crate) fn node(&self) -> &'a Node
        ensures { kind_of result.now ≡ kind_seen self.now }
    {
        &self.stored_file.node
    }

    /// Its number.
    pub fn number(&self) -> Number
        ensures { result.0 ≡ self.now.attributes.fileid }
    {
        self.number
    }

    /// The bytes of this regular file from an offset on: a first run of them, which has one where
    /// there is one. None where this is no regular file.
    pub fn bytes_at(&self, offset: usize) -> &'a [u8]
        ensures { IsFirstChunk result.now (drop offset (bytes_seen self.now)) }
    {
        run_from(self.node(), offset)
    }
}

impl Tree {
    /// The file of a number. `None` where none lives under it.
    #[inline(always)]
    pub fn view(&self, number: Number) -> Option<FileView<'_>>
        ensures some { IfSome result (λ file. IsSeen self.now file) }
        ensures number { IfSome result (λ file. file.attributes.fileid ≡ number.0) }
        ensures none { IfNone result (attributes_at self.now number.0 ≡ None) }
    {
        match self.files.get(number) {
            Some(stored_file) => Some(FileView::new(stored_file, number)),
            None => None,
        }
    }

    /// The file under a name in a directory; `.` is the directory itself and `..` its parent (RFC
    /// 1813, section 3.3.3). `None` where there is no such name or this is no directory.
    #[inline(always)]
    pub fn find_in(&self, dir: &FileView<'_>, name: &[u8]) -> Option<FileView<'_>>
        requires { IsSeen self.now dir.now }
        ensures some { IfSome result (λ file. IsSeen self.now file) }
        ensures found { IfSome result (λ file. number_under self.now dir.now.attributes.fileid name.now ≡ Some file.attributes.fileid) }
        ensures none { IfNone result (number_under self.now dir.now.attributes.fileid name.now ≡ None) }
    {
        self.law();
        match under_name(dir.node(), dir.number(), name) {
            Some(number) => match self.view(number) {
                Some(file) => Some(file),
                None => unreachable!(),
            },
            None => None,
        }
    }

    /// The handle of a file that lives (RFC 1813, section 2.6, nfs_fh3), without a search.
    pub fn handle(&self, file: &FileView<'_>) -> [u8; 24]
        requires { IsSeen self.now file.now }
        ensures { handle_at (numbered_files self.now) file.now.attributes.fileid ≡ Some result }
    {
        self.files.handle(file.number())
    }
}
