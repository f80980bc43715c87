//! What a description holds, in one line.
ghost use Rattle.std.specs.Prelude.{◌≡◌, ◌+◌, ◌<◌, IfOk, length};
ghost use Rattle.nfs_inodes.specs.Tree.{bytes_of, files_of};
ghost use Rattle.nfs_commands.specs.Totals as spec;
ghost use Rattle.nfs_commands.specs.Totals.{at_most};

use nfs_inodes::tree::Tree;
use nfs_inodes::volumes::Totals;
use nfs_words::text::Text;
use std::alloc::{AllocError, Global};

/// The line `ok volumes=V files=F bytes=B`: how many volumes there are, and what they have together:
/// files with their roots, and bytes of regular files.
pub(crate) fn totals_line(alloc: Global, tree: &Tree) -> Result<Vec<u8>, AllocError>
    ensures { IfOk result (λ line. line.items ≡ spec.totals_line tree.now) }
{
    let Totals { bytes, files } = totals_of(tree);
    let mut line = Text::new(alloc);
    line.put(b"ok");
    line.put_field(b" volumes=", tree.volumes() as u64);
    line.put_field(b" files=", files);
    line.put_field(b" bytes=", bytes);
    line.put(b"\n");
    line.into_bytes()
}

// What all volumes have together.
fn totals_of(tree: &Tree) -> Totals
    ensures { result ≡ spec.totals_of tree.now }
{
    let mut all = Totals { bytes: 0, files: 0 };
    for index in 0..tree.volumes() {
        all = with_volume(all, tree, index);
    }
    all
}

// The same with what one volume more has.
fn with_volume(all: Totals, tree: &Tree, index: usize) -> Totals
    requires { index < length tree.now.volumes }
    ensures bytes { result.bytes ≡ at_most (all.bytes + bytes_of index tree.now.files) }
    ensures files { result.files ≡ at_most (all.files + files_of index tree.now.files) }
{
    match tree.totals(index) {
        Some(totals) => Totals {
            bytes: all.bytes.saturating_add(totals.bytes),
            files: all.files.saturating_add(totals.files),
        },
        None => all,
    }
}
