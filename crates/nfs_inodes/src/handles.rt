//! Handles of the files of a tree.
ghost use Rattle.std.specs.Prelude.{◌≡◌, ℕ, IfOk, IfErr};
ghost use Rattle.nfs_handles.specs.Handles.{handle_at, reading, reading_without};
ghost use Rattle.nfs_inodes.specs.Reading.{numbered_files};
ghost use Rattle.nfs_inodes.specs.Views.{IsNamedBy};

use crate::tree::Tree;
use crate::view::FileView;
use nfs_handles::number::Number;
use nfs_handles::reading::{NoFile, Reading};

impl Tree {
    /// The handle of a file (RFC 1813, section 2.6, nfs_fh3). `None` where none lives under the
    /// number.
    pub fn handle_of(&self, number: u64) -> Option<[u8; 24]>
        ensures { result ≡ handle_at (numbered_files self.now) number }
    {
        self.files.handle_of(Number::new(number))
    }

    /// What the bytes of a handle say.
    pub fn read_handle(&self, handle: &[u8]) -> Reading
        ensures { result ≡ reading (numbered_files self.now) handle.now }
    {
        self.files.read(handle)
    }

    /// The file that a handle names, by one search. `Stale` and `Bad` as the handle reads.
    #[inline(always)]
    pub fn find(&self, handle: &[u8]) -> Result<FileView<'_>, NoFile>
        ensures found { IfOk result (λ file. IsNamedBy self.now handle.now file) }
        ensures none { IfErr result (λ why. reading (numbered_files self.now) handle.now ≡ reading_without why) }
    {
        match self.files.find(handle) {
            Ok((number, stored_file)) => Ok(FileView::new(stored_file, number)),
            Err(why) => Err(why),
        }
    }

    /// The key of the server, which is in every handle.
    pub fn key(&self) -> [u8; 8]
        ensures { result ≡ self.now.key }
    {
        self.files.key()
    }
}
