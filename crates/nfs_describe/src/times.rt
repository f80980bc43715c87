//! The times of the files of a volume.
ghost use Rattle.std.specs.Prelude.{◌≡◌, ◌++◌, OnOk};
ghost use Rattle.std.specs.List.{flat_map};
ghost use Rattle.nfs_describe.specs.Lines.{path_text};
ghost use Rattle.nfs_describe.specs.Outputs.{Takes};
ghost use Rattle.nfs_describe.specs.Texts as spec;
ghost use Rattle.nfs_describe.specs.Texts.{file_times, lent, place_times};

use crate::fault::DescribeFault;
use crate::file_path::FilePath;
use crate::lines::put_times_line;
use crate::output::Output;
use nfs_attrs::fattr::Fattr;
use nfs_attrs::moment::Moment;
use nfs_inodes::tree::Tree;
use nfs_load::name_form::NameForm;

/// A line for each of these places whose file has times that aren't all 0.
pub(crate) fn put_times<O: Output>(
    tree: &Tree,
    form: NameForm,
    places: &[&FilePath],
    out: &mut O,
) -> Result<(), DescribeFault>
    ensures { OnOk result (Takes O.has out.old (flat_map (place_times form tree.now) (lent places.now)) out.new) }
{
    for place in places {
        put_place_times(tree, form, place, out)?;
    }
    Ok(())
}

// The line of the times of the file at a place.
fn put_place_times<O: Output>(
    tree: &Tree,
    form: NameForm,
    place: &FilePath,
    out: &mut O,
) -> Result<(), DescribeFault>
    ensures { OnOk result (Takes O.has out.old (place_times form tree.now place.now) out.new) }
{
    match tree.attributes(place.number) {
        Some(attributes) => put_file_times(form, place.path.as_slice(), &attributes, out),
        None => Ok(()),
    }
}

// The line of a file's times; none where all are 0.
fn put_file_times<O: Output>(
    form: NameForm,
    path: &[u8],
    attributes: &Fattr,
    out: &mut O,
) -> Result<(), DescribeFault>
    ensures { OnOk result (Takes O.has out.old (file_times (path_text form path.now) attributes.now) out.new) }
{
    let a = *attributes;
    if is_start(a.atime) && (is_start(a.mtime) && is_start(a.ctime)) {
        return Ok(());
    }
    put_times_line(out, form, path_or_root(path), a.atime, a.mtime, a.ctime)
}

fn is_start(moment: Moment) -> bool
    ensures { result ≡ spec.is_start moment }
{
    moment.seconds == 0 && moment.nanos == 0
}

fn path_or_root(path: &[u8]) -> &[u8]
    ensures { result.now ≡ spec.path_or_root path.entry.now }
{
    if path.is_empty() { b"/" } else { path }
}
