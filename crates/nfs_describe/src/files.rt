//! The lines of the files of a volume.
ghost use Rattle.std.specs.Prelude.{◌≡◌, ℕ, ◌≤◌, [], ◌∷◌, ◌++◌, Some, None, IfOk, OnOk, cond, length, nat_eq};
ghost use Rattle.std.specs.Option.{option_or};
ghost use Rattle.nfs_inodes.specs.Limits.{max_file_bytes};
ghost use Rattle.nfs_inodes.specs.Views.{bytes_seen};
ghost use Rattle.nfs_describe.specs.Lines.{link_line, path_text, target_text};
ghost use Rattle.nfs_describe.specs.Outputs.{Takes};
ghost use Rattle.nfs_describe.specs.Texts.{files_text, first_here, first_places, given_of, kept_name, lent, named_text, node_line, own_text};

use crate::fault::DescribeFault;
use crate::file_path::FilePath;
use crate::lines::{put_dir, put_file, put_hard, put_link};
use crate::output::Output;
use nfs_attrs::fattr::Fattr;
use nfs_attrs::file_type::FileType;
use nfs_inodes::tree::Tree;
use nfs_inodes::view::FileView;
use nfs_load::name_form::NameForm;
use nfs_load::statement::Given;
use std::alloc::{AllocError, Global};
use std::collections::BTreeMap;

/// A line for each place after the root: the file by its first name, and a `hard` line for each
/// other name. Gives the places that come first of all that their file has.
pub(crate) fn put_files<'a, O: Output>(
    alloc: Global,
    tree: &Tree,
    form: NameForm,
    places: &'a [FilePath],
    out: &mut O,
) -> Result<Vec<&'a FilePath>, DescribeFault>
    ensures written { OnOk result (Takes O.has out.old (files_text form tree.now [] places.entry.now) out.new) }
    ensures firsts { IfOk result (λ firsts. lent firsts.items ≡ first_places [] places.entry.now) }
{
    let mut first_names = BTreeMap::new(alloc);
    let mut firsts = Vec::new(alloc);
    for place in places {
        put_place(alloc, tree, form, place, &mut first_names, &mut firsts, out)?;
    }
    Ok(firsts)
}

// The line of a file by one of its names. Its first name is kept, and its first place.
fn put_place<'a, O: Output>(
    alloc: Global,
    tree: &Tree,
    form: NameForm,
    place: &'a FilePath,
    first_names: &mut BTreeMap<u64, &'a [u8]>,
    firsts: &mut Vec<&'a FilePath>,
    out: &mut O,
) -> Result<(), DescribeFault>
    ensures written { OnOk result (Takes O.has out.old (named_text form tree.now place.entry.now (kept_name first_names.old.entries place.entry.now.number)) out.new) }
    ensures names { OnOk result ((n : ℕ) → kept_name first_names.new.entries n ≡
        option_or (kept_name first_names.old.entries n) (cond (nat_eq place.entry.now.number n) (Some place.entry.now.path) None)) }
    ensures firsts { OnOk result (lent firsts.new.items ≡ lent firsts.old.items ++
        first_here place.entry.now (kept_name first_names.old.entries place.entry.now.number)) }
{
    match first_names.get(&place.number.0).copied() {
        Some(first) => put_hard(out, form, place.path.as_slice(), first),
        None => {
            put_own(alloc, tree, form, place, out)?;
            keep_first(place, first_names, firsts)?;
            Ok(())
        }
    }
}

// Keeps the path and the place of a file that had none.
fn keep_first<'a>(
    place: &'a FilePath,
    first_names: &mut BTreeMap<u64, &'a [u8]>,
    firsts: &mut Vec<&'a FilePath>,
) -> Result<(), AllocError>
    requires { kept_name first_names.old.entries place.now.number ≡ None }
    ensures names { OnOk result ((n : ℕ) → kept_name first_names.new.entries n ≡
        option_or (kept_name first_names.old.entries n) (cond (nat_eq place.entry.now.number n) (Some place.entry.now.path) None)) }
    ensures firsts { OnOk result (lent firsts.new.items ≡ lent firsts.old.items ++ place.entry.now ∷ []) }
{
    first_names.insert(place.number.0, place.path.as_slice())?;
    firsts.push(place)?;
    Ok(())
}

// The line of a file by its first name; none for a root.
fn put_own<O: Output>(
    alloc: Global,
    tree: &Tree,
    form: NameForm,
    place: &FilePath,
    out: &mut O,
) -> Result<(), DescribeFault>
    ensures { OnOk result (Takes O.has out.old (own_text form tree.now place.now) out.new) }
{
    let path = place.path.as_slice();
    if path.is_empty() {
        return Ok(());
    }
    tree.law();
    let Some(file) = tree.view(place.number) else {
        return Ok(());
    };
    match tree.link_path(place.number) {
        Some(target) => put_target(form, path, &file.attributes(), target, out),
        None => put_node(alloc, form, path, &file, out),
    }
}

// The line of a symbolic link that holds this target.
fn put_target<O: Output>(
    form: NameForm,
    path: &[u8],
    attributes: &Fattr,
    target: &[u8],
    out: &mut O,
) -> Result<(), DescribeFault>
    ensures { OnOk result (Takes O.has out.old (link_line (path_text form path.now) attributes.now.uid attributes.now.gid (target_text form target.now)) out.new) }
{
    put_link(out, form, path, attributes.uid, attributes.gid, target)
}

// The line of a directory or a regular file.
fn put_node<O: Output>(
    alloc: Global,
    form: NameForm,
    path: &[u8],
    file: &FileView<'_>,
    out: &mut O,
) -> Result<(), DescribeFault>
    requires { length (bytes_seen file.now) ≤ max_file_bytes }
    ensures { OnOk result (Takes O.has out.old (node_line (path_text form path.now) file.now) out.new) }
{
    let attributes = file.attributes();
    let given = given_of(&attributes);
    if attributes.file_type == FileType::Directory {
        put_dir(out, form, path, given)
    } else {
        put_file(alloc, out, form, path, given, file)
    }
}

/// What a line gives a file with these attributes.
pub(crate) fn given_of(attributes: &Fattr) -> Given
    ensures { result ≡ given_of attributes.now }
{
    Given {
        mode: attributes.mode,
        uid: attributes.uid,
        gid: attributes.gid,
    }
}
