//! The paths of volumes, and their roots.
ghost use Rattle.std.specs.Prelude.{◌≡◌, ◌<◌, ◌≤◌, length, Some};
ghost use Rattle.nfs_mount.specs.MountAnswers.{path_at, root_at};

use nfs_inodes::tree::Tree;

/// The path of the volume of this index; where there is none, no bytes.
pub(crate) fn path_at(tree: &Tree, index: usize) -> &[u8]
    ensures path { result.now ≡ path_at tree.entry.now index }
    ensures bound { length result.now ≤ 255 }
{
    tree.law();
    match tree.volume(index) {
        Some(volume) => volume.path,
        None => &[],
    }
}

/// The handle of the root of the volume of this index.
pub(crate) fn root_handle(tree: &Tree, volume: usize) -> [u8; 24]
    requires { volume < length tree.now.volumes }
    ensures { root_at tree.now volume ≡ Some result }
{
    tree.law();
    let root = match tree.volume(volume) {
        Some(volume) => volume.root,
        None => unreachable!(),
    };
    match tree.view(root) {
        Some(file) => tree.handle(&file),
        None => unreachable!(),
    }
}
