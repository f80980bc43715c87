//! Volumes as they are read.
ghost use Rattle.std.specs.Prelude.{◌≡◌, ℕ, bytes_eq, length, slice_get, option_copied, option_map};
ghost use Rattle.std.specs.Prelude.{map};
ghost use Rattle.nfs_inodes.specs.Tree.{Volume};
ghost use Rattle.nfs_inodes.specs.Storage.{volume_of};
ghost use Rattle.nfs_inodes.specs.Reading.{index_where, volume_named, totals_at};
ghost use Rattle.nfs_inodes.specs.Views.{volume_seen};

use crate::stored_volume::StoredVolume;
use crate::tree::Tree;
use nfs_handles::number::Number;

/// A volume: a tree of directories with limits of its own.
#[derive(Clone, Copy, Debug)]
pub struct VolumeView<'a> {
    /// The path that it is exported under.
    pub path: &'a [u8],
    /// How many bytes its regular files may have in all.
    pub max_bytes: u64,
    /// How many files it may have.
    pub max_files: u64,
    /// Its root directory.
    pub root: Number,
}

/// What the files of a volume have in all.
#[derive(Clone, Copy, Debug, PartialEq)]
pub struct Totals {
    /// The bytes of its regular files.
    pub bytes: u64,
    /// How many files it has, its root too.
    pub files: u64,
}

impl Tree {
    /// How many volumes there are.
    pub fn volumes(&self) -> usize
        ensures { result ≡ length self.now.volumes }
    {
        self.volumes.len()
    }

    /// The volume of this index, from 0. `None` where there is none.
    pub fn volume(&self, index: usize) -> Option<VolumeView<'_>>
        ensures { option_map volume_seen result ≡ slice_get self.now.volumes index }
    {
        match stored_volume_at(self.volumes.as_slice(), index) {
            Some(stored_volume) => Some(view_of(stored_volume)),
            None => None,
        }
    }

    /// The index of the volume of this path. `None` where there is none.
    pub fn volume_named(&self, path: &[u8]) -> Option<usize>
        ensures { result ≡ volume_named self.now path.now }
    {
        index_of(self.volumes.as_slice(), path)
    }

    /// What the files of the volume of this index have in all, found without a walk. `None` where
    /// there is none.
    pub fn totals(&self, index: usize) -> Option<Totals>
        ensures { result ≡ totals_at self.now index }
    {
        match stored_volume_at(self.volumes.as_slice(), index) {
            Some(stored_volume) => Some(Totals {
                bytes: stored_volume.bytes,
                files: stored_volume.files,
            }),
            None => None,
        }
    }
}

pub(crate) fn stored_volume_at(volumes: &[StoredVolume], index: usize) -> Option<&StoredVolume>
    ensures { option_copied result ≡ slice_get volumes.now index }
{
    volumes.get(index)
}

fn view_of(stored_volume: &StoredVolume) -> VolumeView<'_>
    ensures { volume_seen result ≡ volume_of stored_volume.now }
{
    VolumeView {
        path: stored_volume.path.as_slice(),
        max_bytes: stored_volume.max_bytes,
        max_files: stored_volume.max_files,
        root: stored_volume.root,
    }
}

fn index_of(volumes: &[StoredVolume], path: &[u8]) -> Option<usize>
    ensures { result ≡ index_where (λ (v : Volume). bytes_eq v.path path.now) (map volume_of volumes.now) }
{
    for index in 0..volumes.len() {
        if volumes[index].path.as_slice() == path {
            return Some(index);
        }
    }
    None
}
