//! How the names of a tree are written.
ghost use Rattle.std.specs.Prelude.{◌≡◌, true};
ghost use Rattle.std.specs.List.{list_all};
ghost use Rattle.nfs_inodes.specs.Reading.{path_at};
ghost use Rattle.nfs_inodes.specs.Tree.{on_some};
ghost use Rattle.nfs_load.specs.Names.{is_plain};
ghost use Rattle.nfs_describe.specs.Lines.{is_shown};
ghost use Rattle.nfs_describe.specs.Lines as lines;
ghost use Rattle.nfs_describe.specs.Places.{walks_of};
ghost use Rattle.nfs_describe.specs.Places as spec;

use crate::file_path::FilePath;
use nfs_handles::number::Number;
use nfs_inodes::limits::MAX_PATH_BYTES as MAX_TARGET_BYTES;
use nfs_inodes::tree::Tree;
use nfs_load::limits::MAX_PATH_BYTES;
use nfs_load::name_form::NameForm;

/// How the names of these walks are written: as they are, where each path and each link's target can
/// stand in a line, and else with escapes.
pub(crate) fn form_for(tree: &Tree, walks: &[Vec<FilePath>]) -> NameForm
    ensures { result ≡ spec.form_for tree.now (walks_of walks.now) }
{
    for walk in walks {
        if !are_plain(tree, walk.as_slice()) {
            return NameForm::Percent;
        }
    }
    NameForm::Plain
}

// Whether all places of a walk can stand in lines as they are.
fn are_plain(tree: &Tree, walk: &[FilePath]) -> bool
    ensures { result ≡ spec.are_plain tree.now walk.now }
{
    for place in walk {
        if !is_plain_place(tree, place) {
            return false;
        }
    }
    true
}

// Whether a place can: its path, and what it holds if it is a link.
fn is_plain_place(tree: &Tree, place: &FilePath) -> bool
    ensures { result ≡ spec.is_plain_place tree.now place.now }
{
    is_plain_path(place.path.as_slice()) && holds_target(tree, place.number)
}

// Whether a path can: at most 1,024 bytes from `!` to `~`, none `%`.
fn is_plain_path(path: &[u8]) -> bool
    ensures { result ≡ spec.is_plain_path path.now }
{
    path.len() <= MAX_PATH_BYTES && are_plain_bytes(path)
}

// Whether a file is no link, or one that holds what can stand in a line.
fn holds_target(tree: &Tree, number: Number) -> bool
    ensures { result ≡ on_some (path_at tree.now number.0) true lines.is_target }
{
    match tree.link_path(number) {
        Some(target) => is_target(target),
        None => true,
    }
}

// Whether what a link holds can: bytes from `!` to `~`, at least one, and at most as many as a tree may
// take.
fn is_target(target: &[u8]) -> bool
    ensures { result ≡ lines.is_target target.now }
{
    !target.is_empty() && target.len() <= MAX_TARGET_BYTES && are_shown(target)
}

fn are_plain_bytes(text: &[u8]) -> bool
    ensures { result ≡ list_all is_plain text.now }
{
    for byte in text {
        if !byte.is_ascii_graphic() || *byte == b'%' {
            return false;
        }
    }
    true
}

fn are_shown(text: &[u8]) -> bool
    ensures { result ≡ list_all is_shown text.now }
{
    for byte in text {
        if !byte.is_ascii_graphic() {
            return false;
        }
    }
    true
}
