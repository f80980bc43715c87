//! When a file takes bytes, or a size.
ghost use Rattle.std.specs.Prelude.{◌≡◌, ◌↔◌, IsTrue};
ghost use Rattle.nfs_conditions.specs.Parts.{TakesBytes};
ghost use Rattle.nfs_conditions.specs.Parts as part;
ghost use Rattle.nfs_inodes.specs.Conditions.{MayWrite, MayResize};

use crate::attributes::volume_index;
use nfs_attrs::fattr::Fattr;
use nfs_attrs::file_type::FileType;
use nfs_handles::number::Number;
use nfs_inodes::tree::Tree;

/// Whether so many bytes may be put at an offset of the file `number`: no bytes at any offset of a
/// regular file.
pub fn may_write(tree: &Tree, number: Number, offset: usize, count: usize) -> bool
    ensures { IsTrue result ↔ MayWrite tree.now number.0 offset count }
{
    tree.law();
    match tree.attributes(number) {
        Some(file) => {
            if !takes_bytes(tree, &file, offset, count) {
                return false;
            }
            if count == 0 {
                return true;
            }
            let end = (offset + count) as u64;
            has_space(tree, volume_index(&file), end.saturating_sub(file.size))
        }
        None => false,
    }
}

/// Whether the file `number` is regular and may have this size.
pub fn may_resize(tree: &Tree, number: Number, size: usize) -> bool
    ensures { IsTrue result ↔ MayResize tree.now number.0 size }
{
    match tree.attributes(number) {
        Some(file) => {
            if !takes_bytes(tree, &file, 0, size) {
                return false;
            }
            let growth = (size as u64).saturating_sub(file.size);
            has_space(tree, volume_index(&file), growth)
        }
        None => false,
    }
}

// Whether a file is regular, and so many bytes at an offset, if any, are within the limit.
fn takes_bytes(tree: &Tree, file: &Fattr, offset: usize, count: usize) -> bool
    ensures { IsTrue result ↔ TakesBytes tree.now.limits file.now offset count }
{
    let most = tree.limits().file_size;
    if count > 0 && (offset > most || count > most - offset) {
        return false;
    }
    match file.file_type {
        FileType::Regular => true,
        _ => false,
    }
}

// Whether the volume of this index may have so many bytes more.
fn has_space(tree: &Tree, index: usize, bytes: u64) -> bool
    ensures { result ≡ part.has_space tree.now index bytes }
{
    match (tree.volume(index), tree.totals(index)) {
        (Some(volume), Some(totals)) => {
            totals.bytes <= volume.max_bytes && bytes <= volume.max_bytes - totals.bytes
        }
        _ => false,
    }
}
