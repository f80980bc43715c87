//! When an entry may go.
ghost use Rattle.std.specs.Prelude.{◌≡◌, ◌↔◌, IsTrue, [], option_map};
ghost use Rattle.nfs_inodes.specs.Conditions.{MayUnlink};
ghost use Rattle.nfs_inodes.specs.Reading.{entries_at, entry_at};

use nfs_handles::number::Number;
use nfs_inodes::name::is_name;
use nfs_inodes::tree::Tree;

// The cookie of `..`, after which the entries of a directory stand.
const LAST_DOT_COOKIE: u64 = 2;

/// Whether directory `dir` has an entry of this name that may go: for a file, or for a directory
/// without entries.
pub fn may_unlink(tree: &Tree, dir: Number, name: &[u8]) -> bool
    ensures { IsTrue result ↔ MayUnlink tree.now dir.0 name.now }
{
    tree.law();
    match entry(tree, dir, name) {
        Some(number) => is_empty(tree, number),
        None => false,
    }
}

/// Whether a file has no entries, as none has that is no directory; so too where none lives under
/// the number.
pub fn is_empty(tree: &Tree, number: Number) -> bool
    ensures { IsTrue result ↔ (entries_at tree.now number.0 ≡ []) }
{
    tree.law();
    tree.entry_after(number, LAST_DOT_COOKIE).is_none()
}

// The file that the entry of a name in directory `dir` names; `.` and `..` are no entries.
pub(crate) fn entry(tree: &Tree, dir: Number, name: &[u8]) -> Option<Number>
    ensures { option_map (λ n. n.0) result ≡ option_map (λ e. e.number) (entry_at tree.now dir.0 name.now) }
{
    tree.law();
    if !is_name(name) {
        return None;
    }
    tree.lookup(dir, name)
}
