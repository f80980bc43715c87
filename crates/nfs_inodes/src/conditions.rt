//! What may be added: tests for the conditions of the operations that a description asks for.
ghost use Rattle.std.specs.Prelude.{◌↔◌, ◌+◌, ◌<◌, ◌≤◌, IsTrue};
ghost use Rattle.nfs_inodes.specs.StepConditions.{TakesName, TakesFile, TakesLinkIn};
ghost use Rattle.nfs_inodes.specs.StepConditions.{MayGainLink, HasRoomIn};
ghost use Rattle.nfs_inodes.specs.Conditions.{MayMake, MayMakeDirectory, MayMakeLink, MayLink};
ghost use Rattle.nfs_inodes.specs.Conditions.{MayAddVolume};

use crate::limits::{Limits, MAX_VOLUME_BYTES, MAX_VOLUME_PATH_BYTES, MAX_VOLUMES};
use crate::name::is_name;
use crate::stored_file::{Node, StoredFile};
use crate::stored_volume::StoredVolume;
use crate::tree::Tree;
use crate::volumes::stored_volume_at;
use nfs_handles::number::Number;

impl Tree {
    /// Whether a volume of this path, and for so many bytes and files, may be added.
    pub fn may_add_volume(&self, path: &[u8], max_bytes: u64, max_files: u64) -> bool
        ensures { IsTrue result ↔ MayAddVolume self.now path.now max_bytes max_files }
    {
        if self.volumes() >= MAX_VOLUMES || path.len() > MAX_VOLUME_PATH_BYTES {
            return false;
        }
        if self.next_number() >= u64::MAX || max_files < 1 {
            return false;
        }
        if max_bytes > MAX_VOLUME_BYTES || max_files > self.limits().files {
            return false;
        }
        self.volume_named(path).is_none()
    }

    /// Whether a regular file of so many bytes may be made under this name in directory `dir`.
    pub fn may_make(&self, dir: Number, name: &[u8], size: usize) -> bool
        ensures { IsTrue result ↔ MayMake self.now dir.0 name.now size }
    {
        match self.files.get(dir) {
            Some(stored_file) => self.takes_file(stored_file, name, size),
            None => false,
        }
    }

    /// Whether a directory may be made under this name in directory `dir`.
    pub fn may_mkdir(&self, dir: Number, name: &[u8]) -> bool
        ensures { IsTrue result ↔ MayMakeDirectory self.now dir.0 name.now }
    {
        match self.files.get(dir) {
            Some(stored_file) => {
                if !has_link_left(stored_file, self.limits()) {
                    return false;
                }
                self.takes_file(stored_file, name, 0)
            }
            None => false,
        }
    }

    /// Whether a link with this path may be made under this name in directory `dir`.
    pub fn may_make_link(&self, dir: Number, name: &[u8], path: &[u8]) -> bool
        ensures { IsTrue result ↔ MayMakeLink self.now dir.0 name.now path.now }
    {
        if path.len() > self.limits().link_path {
            return false;
        }
        self.may_make(dir, name, 0)
    }

    /// Whether directory `dir` may have an entry of this name for the file `number`.
    pub fn may_link(&self, number: Number, dir: Number, name: &[u8]) -> bool
        ensures { IsTrue result ↔ MayLink self.now number.0 dir.0 name.now }
    {
        match self.files.get(dir) {
            Some(stored_file) => {
                if !self.may_gain_link(number, stored_file.volume) {
                    return false;
                }
                takes_entry(stored_file, name)
            }
            None => false,
        }
    }

    // Whether a kept file is a directory that takes a new file of so many bytes under this name.
    fn takes_file(&self, stored_file: &StoredFile, name: &[u8], size: usize) -> bool
        ensures { IsTrue result ↔ TakesFile self.now stored_file.now name.now size }
    {
        if self.files.next() >= u64::MAX || size > self.limits().file_size {
            return false;
        }
        if !self.has_room(stored_file.volume as usize, size as u64) {
            return false;
        }
        takes_entry(stored_file, name)
    }

    // Whether the file `number` may have one link more, from the volume of this index.
    fn may_gain_link(&self, number: Number, index: u8) -> bool
        ensures { IsTrue result ↔ MayGainLink self.now number.0 index }
    {
        match self.files.get(number) {
            Some(stored_file) => takes_link(stored_file, index, self.limits()),
            None => false,
        }
    }

    // Whether the volume of this index may have one file more, with so many bytes.
    fn has_room(&self, index: usize, size: u64) -> bool
        ensures { IsTrue result ↔ HasRoomIn self.now index size }
    {
        match stored_volume_at(self.volumes.as_slice(), index) {
            Some(stored_volume) => {
                if stored_volume.files >= stored_volume.max_files {
                    return false;
                }
                takes_size(stored_volume, size)
            }
            None => false,
        }
    }
}

// Whether so many bytes more are within a volume's limit.
fn takes_size(stored_volume: &StoredVolume, size: u64) -> bool
    ensures { IsTrue result ↔ (stored_volume.now.bytes + size ≤ stored_volume.now.max_bytes) }
{
    stored_volume.bytes <= stored_volume.max_bytes
        && size <= stored_volume.max_bytes - stored_volume.bytes
}

// Whether a kept file is no directory, of the volume of this index, and may have a link more.
fn takes_link(stored_file: &StoredFile, index: u8, limits: Limits) -> bool
    ensures { IsTrue result ↔ TakesLinkIn limits stored_file.now index }
{
    !stored_file.is_directory() && stored_file.volume == index && has_link_left(stored_file, limits)
}

// Whether a kept file may have a link more.
fn has_link_left(stored_file: &StoredFile, limits: Limits) -> bool
    ensures { IsTrue result ↔ (stored_file.now.nlink < limits.links) }
{
    stored_file.nlink < limits.links
}

// Whether a kept file is a directory that takes an entry of this name.
fn takes_entry(stored_file: &StoredFile, name: &[u8]) -> bool
    ensures { IsTrue result ↔ TakesName stored_file.now name.now }
{
    match &stored_file.node {
        Node::Directory { entries, .. } => {
            if entries.next() >= u64::MAX {
                return false;
            }
            if !is_name(name) {
                return false;
            }
            entries.number(name).is_none()
        }
        _ => false,
    }
}
