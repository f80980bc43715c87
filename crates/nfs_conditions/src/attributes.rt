//! What attributes report of a file.
ghost use Rattle.std.specs.Prelude.{◌≡◌, ◌-◌};
ghost use Rattle.nfs_inodes.specs.Reading.{is_directory_type};

use nfs_attrs::fattr::Fattr;
use nfs_attrs::file_type::FileType;

pub(crate) fn is_directory(file: &Fattr) -> bool
    ensures { result ≡ is_directory_type file.now.file_type }
{
    match file.file_type {
        FileType::Directory => true,
        _ => false,
    }
}

/// The index of its volume, from 0.
pub(crate) fn volume_index(file: &Fattr) -> usize
    ensures { result ≡ file.now.fsid - 1 }
{
    file.fsid.saturating_sub(1) as usize
}
