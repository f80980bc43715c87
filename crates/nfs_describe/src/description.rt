//! The description of a tree with its exports.
ghost use Rattle.std.specs.Prelude.{◌≡◌, ℕ, List, [], ◌++◌, OnOk, slice_get};
ghost use Rattle.std.specs.List.{flat_map};
ghost use Rattle.nfs_describe.specs.Lines.{export_line};
ghost use Rattle.nfs_describe.specs.Texts.{Says, root_text, volume_text};
ghost use Rattle.nfs_describe.specs.Outputs.{Takes};
ghost use Rattle.nfs_inodes.specs.Changes.{with_key};
ghost use Rattle.nfs_inodes.specs.Reading.{attributes_at};
ghost use Rattle.nfs_inodes.specs.Tree.{Volume, on_some};
ghost use Rattle.nfs_inodes.specs.Views.{volume_seen};

use crate::export_line::put_export;
use crate::fault::DescribeFault;
use crate::file_path::FilePath;
use crate::files::{given_of, put_files};
use crate::form::form_for;
use crate::lines::{put_head, put_volume_line};
use crate::output::Output;
use crate::times::put_times;
use crate::walk::walks;
use nfs_exports::export_table::{Export, ExportTable};
use nfs_inodes::tree::Tree;
use nfs_inodes::volumes::VolumeView;
use nfs_load::name_form::NameForm;
use std::alloc::Global;

/// Writes the description of a tree under a key, with its exports: the key, the limits that are not the
/// defaults, how names are written, and each volume with its limits, its exports and its files,
/// directory by directory, each by its first name and then `hard` for the others; then the times of
/// each file by its first name, unless all three are 0. The mode of a link isn't described, and neither
/// are the numbers of files.
///
/// Names and what links hold are written as they are, if all of them can stand in lines so. Else a line
/// says it, and `%` and two digits stand for each byte outside `!` to `~` and for `%`; a link that holds
/// nothing has `%` alone.
///
/// The faults of the output; `Memory`.
pub fn describe<O: Output>(
    alloc: Global,
    out: &mut O,
    tree: &Tree,
    table: &ExportTable,
    key: [u8; 8],
) -> Result<(), DescribeFault>
    ensures { OnOk result ((text : List ℕ) × Says (with_key tree.now key) table.now text × Takes O.has out.old text out.new) }
{
    let walks = walks(alloc, tree)?;
    let form = form_for(tree, walks.as_slice());
    put_head(alloc, out, key, tree.limits(), form)?;
    let described = Described { tree, table, form };
    for place in 0..walks.len() {
        put_volume(alloc, described, place, walks[place].as_slice(), out)?;
    }
    Ok(())
}

// What is described, and how its names are written.
#[derive(Clone, Copy)]
struct Described<'a> {
    tree: &'a Tree,
    table: &'a ExportTable,
    form: NameForm,
}

// The lines of the volume at a place, with its files in the order of a walk.
fn put_volume<O: Output>(
    alloc: Global,
    described: Described<'_>,
    place: usize,
    walk: &[FilePath],
    out: &mut O,
) -> Result<(), DescribeFault>
    ensures { OnOk result (Takes O.has out.old (on_some (slice_get described.entry.tree.now.volumes place) []
        (λ (v : Volume). volume_text described.entry.form described.entry.tree.now described.entry.table.now place v walk.now)) out.new) }
{
    let Described { tree, table, form } = described;
    let Some(volume) = tree.volume(place) else {
        return Ok(());
    };
    put_root(tree, &volume, out)?;
    put_exports(table.patterns(place), out)?;
    let firsts = put_files(alloc, tree, form, walk, out)?;
    put_times(tree, form, firsts.as_slice(), out)
}

// The line of a volume.
fn put_root<O: Output>(
    tree: &Tree,
    volume: &VolumeView<'_>,
    out: &mut O,
) -> Result<(), DescribeFault>
    ensures { OnOk result (Takes O.has out.old (root_text (volume_seen volume.now) (attributes_at tree.now volume.now.root.0)) out.new) }
{
    match tree.attributes(volume.root) {
        Some(root) => {
            let VolumeView {
                path,
                max_bytes,
                max_files,
                ..
            } = *volume;
            put_volume_line(out, path, max_bytes, max_files, given_of(&root))
        }
        None => Ok(()),
    }
}

// The lines of some exports.
fn put_exports<O: Output>(exports: &[Export], out: &mut O) -> Result<(), DescribeFault>
    ensures { OnOk result (Takes O.has out.old (flat_map export_line exports.now) out.new) }
{
    for export in exports {
        put_export(out, export)?;
    }
    Ok(())
}
