//! Where paths lead, from the paths of volumes on.
ghost use Rattle.std.specs.Prelude.{◌≡◌, option_map, slice_get};
ghost use Rattle.nfs_client.specs.Places.{place_at, file_at, after, rest_after, nearer, volume_way, way_from, place_after};
ghost use Rattle.nfs_client.specs.Places as spec;
ghost use Rattle.nfs_client.specs.Ways.{place_seen, way_seen};
ghost use Rattle.nfs_text.specs.Chunks.{chunks};

use nfs_handles::number::Number;
use nfs_inodes::tree::Tree;
use nfs_text::chunks::Chunks;

/// A directory, and a name in it, where a file may be or not.
#[derive(Clone, Copy)]
pub struct ResolvedPath<'a> {
    /// The directory.
    pub dir: Number,
    /// The name.
    pub name: &'a [u8],
}

// The root of a volume, and what stands after the volume's path.
#[derive(Clone, Copy)]
struct Way<'a> {
    root: Number,
    rest: &'a [u8],
}

/// The place that a path ends at, in the volume with the longest path that it goes on from; the name is
/// `.` where nothing stands after the volume's path. `None` where there is no such volume, or a name on
/// the way is not there.
pub fn find_place<'a>(tree: &Tree, path: &'a [u8]) -> Option<ResolvedPath<'a>>
    ensures { option_map place_seen result ≡ place_at tree.now path.entry.now }
{
    place_in(tree, find_way(tree, path)?)
}

/// The file that a path names. `None` where there is none.
pub fn find_file(tree: &Tree, path: &[u8]) -> Option<Number>
    ensures { option_map (λ n. n.0) result ≡ file_at tree.now path.now }
{
    let place = find_place(tree, path)?;
    tree.lookup(place.dir, place.name)
}

fn find_way<'a>(tree: &Tree, path: &'a [u8]) -> Option<Way<'a>>
    ensures { option_map way_seen result ≡ way_from None tree.now.volumes path.entry.now }
{
    let mut found = None;
    for index in 0..tree.volumes() {
        found = nearest(found, way_in(tree, index, path));
    }
    found
}

// Of two ways the one with less left to go.
fn nearest<'a>(found: Option<Way<'a>>, other: Option<Way<'a>>) -> Option<Way<'a>>
    ensures { option_map way_seen result ≡ nearer (option_map way_seen found.entry) (option_map way_seen other.entry) }
{
    match (found, other) {
        (Some(way), Some(next)) if next.rest.len() >= way.rest.len() => Some(way),
        (Some(way), None) => Some(way),
        _ => other,
    }
}

// By the volume of this index.
fn way_in<'a>(tree: &Tree, index: usize, path: &'a [u8]) -> Option<Way<'a>>
    ensures { option_map way_seen result ≡ volume_way (slice_get tree.now.volumes index) path.entry.now }
{
    let volume = tree.volume(index)?;
    let rest = rest_of(volume.path, path)?;
    Some(Way {
        root: volume.root,
        rest,
    })
}

/// What stands after a volume's path in a path that goes on from it.
pub fn rest_of<'a>(volume: &[u8], path: &'a [u8]) -> Option<&'a [u8]>
    ensures { option_map (λ rest. rest.now) result ≡ rest_after volume.now path.entry.now }
{
    let rest = strip(volume, path)?;
    if volume == b"/".as_slice() || goes_on(rest) {
        Some(rest)
    } else {
        None
    }
}

fn goes_on(rest: &[u8]) -> bool
    ensures { result ≡ spec.goes_on rest.now }
{
    match rest.first() {
        Some(byte) => *byte == b'/',
        None => true,
    }
}

// What stands after a text at the front of another.
fn strip<'a>(front: &[u8], text: &'a [u8]) -> Option<&'a [u8]>
    ensures { option_map (λ rest. rest.now) result ≡ after front.now text.entry.now }
{
    if text.len() < front.len() {
        return None;
    }
    let (start, rest) = text.split_at(front.len());
    if start == front { Some(rest) } else { None }
}

fn place_in<'a>(tree: &Tree, way: Way<'a>) -> Option<ResolvedPath<'a>>
    ensures { option_map place_seen result ≡ place_after tree.now way.entry.root.0 spec.dot (chunks 47 way.entry.rest.now) }
{
    let mut names = Chunks::new(way.rest, b'/');
    let mut name = b".".as_slice();
    let mut dir = way.root;
    while let Some(next) = names.next() {
        if !next.is_empty() {
            dir = tree.lookup(dir, name)?;
            name = next;
        }
    }
    Some(ResolvedPath { dir, name })
}
