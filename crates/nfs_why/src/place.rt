//! Where paths lead, from the paths of volumes on.

use nfs_handles::number::Number;
use nfs_inodes::tree::Tree;
use nfs_text::chunks::Chunks;

/// A volume, and the rest of a path that goes on after the volume's own.
#[derive(Clone, Copy)]
pub struct InVolume<'a> {
    /// The place of the volume, from 0.
    pub volume: usize,
    /// Its root.
    pub root: Number,
    /// What stands after the volume's path.
    pub rest: &'a [u8],
}

/// The volume in which a path lies: of those whose path it goes on from, the one with the longest.
pub(crate) fn volume_holding<'a>(tree: &Tree, path: &'a [u8]) -> Option<InVolume<'a>> {
    let mut found: Option<InVolume<'a>> = None;
    for place in 0..tree.volumes() {
        if let Some(volume) = tree.volume(place) {
            if let Some(rest) = rest_after(volume.path, path) {
                let is_longest = match found {
                    Some(other) => rest.len() < other.rest.len(),
                    None => true,
                };
                if is_longest {
                    found = Some(InVolume {
                        volume: place,
                        root: volume.root,
                        rest,
                    });
                }
            }
        }
    }
    found
}

// What stands after a volume's path in a path that goes on from it.
fn rest_after<'a>(volume: &[u8], path: &'a [u8]) -> Option<&'a [u8]> {
    if volume == b"/".as_slice() {
        return path.strip_prefix(b"/");
    }
    let rest = path.strip_prefix(volume)?;
    if rest.is_empty() || rest.starts_with(b"/") {
        Some(rest)
    } else {
        None
    }
}

/// A path without its last name, and that name. `None` where it has no name.
pub(crate) fn split_last(rest: &[u8]) -> Option<(&[u8], &[u8])> {
    let path = rest.strip_suffix(b"/").unwrap_or(rest);
    let mut start = 0usize;
    let mut end = 0usize;
    for name in Chunks::new(path, b'/') {
        start = end;
        end = end.saturating_add(name.len()).saturating_add(1);
    }
    let (way, name) = path.split_at(start.min(path.len()));
    if name.is_empty() {
        return None;
    }
    Some((way, name))
}
