//! A tree as text.
ghost use Rattle.std.specs.Prelude.{◌≡◌, true, ◌≤◌, All, length, OnErr, OnOk};
ghost use Rattle.nfs_xdr.specs.Known.{Grows, GrowsByPart};
ghost use Rattle.nfs_inodes.specs.Tree.{entries_in};
ghost use Rattle.nfs_inodes.specs.Views.{kind_seen};
ghost use Rattle.nfs_load.specs.Listings.{listing_text, text_at, view_text};

use crate::listing_line::{put_entry, put_file};
use nfs_handles::number::{Hint, Number};
use nfs_inodes::tree::Tree;
use nfs_inodes::view::FileView;
use nfs_text::line::Line;
use nfs_xdr::device::{ByteOut, DeviceFault, write_all};
use thiserror::Error;

/// The writer failed.
#[derive(Clone, Copy, Debug, PartialEq, Eq, Error)]
#[error("the writer failed")]
pub struct WriteFault;

impl From<DeviceFault> for WriteFault {
    fn from(_fault: DeviceFault) -> WriteFault {
        WriteFault
    }
}

/// Writes the files of a tree by rising number: a line for each, and under a directory one for each
/// of its entries. `WriteFault` where the writer fails; then the first part of the text was written.
pub fn listing<W: ByteOut>(tree: &Tree, out: &mut W) -> Result<(), WriteFault>
    ensures ok { OnOk result (Grows (W.contents out.old) (listing_text tree.now) (W.contents out.new)) }
    ensures part { OnErr result (GrowsByPart (W.contents out.old) (listing_text tree.now) (W.contents out.new)) }
    ensures fault { OnErr result (W.failed out.new ≡ true) }
    ensures alive { OnOk result (W.failed out.new ≡ W.failed out.old) }
{
    let mut line = Line::new();
    for number in 1..tree.next_number() {
        write_number(tree, Number(number, Hint::NONE), &mut line, out)?;
    }
    Ok(())
}

// The lines of a number, none where no file lives under it, each put together in `line`.
fn write_number<W: ByteOut>(
    tree: &Tree,
    number: Number,
    line: &mut Line,
    out: &mut W,
) -> Result<(), WriteFault>
    ensures ok { OnOk result (Grows (W.contents out.old) (text_at tree.now number.0) (W.contents out.new)) }
    ensures part { OnErr result (GrowsByPart (W.contents out.old) (text_at tree.now number.0) (W.contents out.new)) }
    ensures fault { OnErr result (W.failed out.new ≡ true) }
    ensures alive { OnOk result (W.failed out.new ≡ W.failed out.old) }
{
    tree.law();
    match tree.view(number) {
        Some(file) => write_file(&file, line, out),
        None => Ok(()),
    }
}

// The lines of a file.
fn write_file<W: ByteOut>(
    file: &FileView<'_>,
    line: &mut Line,
    out: &mut W,
) -> Result<(), WriteFault>
    requires { All (λ e. length e.name ≤ 255) (entries_in (kind_seen file.now)) }
    ensures ok { OnOk result (Grows (W.contents out.old) (view_text file.now) (W.contents out.new)) }
    ensures part { OnErr result (GrowsByPart (W.contents out.old) (view_text file.now) (W.contents out.new)) }
    ensures fault { OnErr result (W.failed out.new ≡ true) }
    ensures alive { OnOk result (W.failed out.new ≡ W.failed out.old) }
{
    put_file(line, &file.attributes());
    write_all(out, line.as_slice())?;
    let mut entries = file.entries();
    while let Some(entry) = entries.next() {
        put_entry(line, &entry);
        write_all(out, line.as_slice())?;
    }
    Ok(())
}
