//! What a line does to the tree.
ghost use Rattle.std.specs.Prelude.{◌≡◌};
ghost use Rattle.std.specs.Result.{result_map_both};
ghost use Rattle.nfs_load.specs.Statements.{file_line_of, link_line_of, times_line_of, volume_line_of};
ghost use Rattle.nfs_load.specs.Effects.{AddsName, AddsVolume, MakesDir, MakesFile, MakesLink, SetsTimes};
ghost use Rattle.nfs_load.specs.Effects.{attributes, link_attributes, link_end, links_found, timed_file};

use crate::cause::Cause;
use crate::name_form::{Name, TargetBytes};
use crate::path::Path;
use crate::path_end::{PathEnd, find_file, find_file_or_root, find_free_end, is_directory};
use crate::refusal::Refusal;
use crate::statement::{DirLine, FileLine, Given, HardLine, LinkLine, TimesLine, VolumeLine};
use nfs_attrs::moment::Moment;
use nfs_content::content::Content;
use nfs_handles::number::Number;
use nfs_inodes::given_attributes::GivenAttributes;
use nfs_inodes::new_file::{NewContent, NewFile};
use nfs_inodes::tree::Tree;

// The time of everything that a description makes.
const START: Moment = Moment {
    seconds: 0,
    nanos: 0,
};

// The mode of every symbolic link.
const LINK_MODE: u32 = 0o777;

/// A `volume` line: one volume more, with its root. The first of these: `VolumeTwice` where one of
/// this path is there, `Full` where no more may be added, `Memory`.
pub fn add_volume(tree: &mut Tree, line: &VolumeLine<'_>) -> Result<(), Refusal>
    ensures { AddsVolume tree.old (volume_line_of line.now) result tree.new }
{
    if tree.volume_named(line.path).is_some() {
        return Err(Refusal::Fault(Cause::VolumeTwice));
    }
    if !tree.may_add_volume(line.path, line.max_bytes, line.max_files) {
        return Err(Refusal::Fault(Cause::Full));
    }
    let given = attributes_of(line.given);
    tree.add_volume(line.path, line.max_bytes, line.max_files, &given, START)?;
    Ok(())
}

/// A `dir` line, in the volume of this root: a new directory. The first of these: `NoParent`,
/// `NameTaken`, `Full` where no directory may be made there, `Memory`.
pub fn mkdir(tree: &mut Tree, root: Number, line: &DirLine<'_>) -> Result<(), Refusal>
    ensures { MakesDir tree.old root.0 line.now result tree.new }
{
    let end = find_free_end(tree, root, &line.path)?;
    let mut room = Name::new();
    let name = end.name.bytes(&mut room);
    if !tree.may_mkdir(end.dir, name) {
        return Err(Refusal::Fault(Cause::Full));
    }
    tree.mkdir(end.dir, name, &attributes_of(line.given), START)?;
    Ok(())
}

/// A `file` line, in the volume of this root: a new regular file, whose content becomes the
/// line's. The first of these: `NoParent`, `NameTaken`, `Full` where no file of this content may be
/// made there, `Memory`.
pub fn make_file(tree: &mut Tree, root: Number, line: FileLine<'_>) -> Result<(), Refusal>
    ensures { MakesFile tree.old root.0 (file_line_of line.entry) result tree.new }
{
    let FileLine {
        path,
        given,
        content,
    } = line;
    let end = find_free_end(tree, root, &path)?;
    let mut room = Name::new();
    let name = end.name.bytes(&mut room);
    if !tree.may_make(end.dir, name, content.len()) {
        return Err(Refusal::Fault(Cause::Full));
    }
    let given = attributes_of(given);
    let content = NewContent {
        pages: content,
        verifier: None,
    };
    tree.make_file(end.dir, name, content, &given, START)?;
    Ok(())
}

/// A `link` line, in the volume of this root: a new symbolic link. The first of these: `NoParent`,
/// `NameTaken`, `Full` where no link may be made there, `Memory`.
pub fn make_link(tree: &mut Tree, root: Number, line: &LinkLine<'_>) -> Result<(), Refusal>
    ensures { MakesLink tree.old root.0 (link_line_of line.now) result tree.new }
{
    let end = find_free_end(tree, root, &line.path)?;
    let mut room = Name::new();
    let name = end.name.bytes(&mut room);
    let mut target_room = TargetBytes::new();
    let target = line.target.bytes(&mut target_room);
    if !tree.may_make_link(end.dir, name, target) {
        return Err(Refusal::Fault(Cause::Full));
    }
    let given = attributes_of_link(line.uid, line.gid);
    tree.make_link(end.dir, name, target, &given, START)?;
    Ok(())
}

/// A `hard` line, in the volume of this root: a hard link of a file. The first of these:
/// `NoParent`, `NameTaken`, `NoTarget` where the other path names no file or a directory, `Full`
/// where no such name may be added, `Memory`.
pub(crate) fn add_name(tree: &mut Tree, root: Number, line: &HardLine<'_>) -> Result<(), Refusal>
    ensures { AddsName tree.old root.0 line.now result tree.new }
{
    let (end, file) = find_link_end(tree, root, &line.path, &line.old)?;
    let mut room = Name::new();
    let name = end.name.bytes(&mut room);
    if !tree.may_link(file, end.dir, name) {
        return Err(Refusal::Fault(Cause::Full));
    }
    tree.link(file, end.dir, name, START)?;
    Ok(())
}

/// A `times` line, in the volume of this root: a file has these times. `NoTarget` where its path
/// names none.
pub(crate) fn set_times(tree: &mut Tree, root: Number, line: &TimesLine<'_>) -> Result<(), Refusal>
    ensures { SetsTimes tree.old root.0 (times_line_of line.now) result tree.new }
{
    let file = find_timed_file(tree, root, line)?;
    let given = GivenAttributes {
        mode: None,
        uid: None,
        gid: None,
        atime: Some(line.atime),
        mtime: Some(line.mtime),
    };
    tree.set(file, &given, line.ctime);
    Ok(())
}

// The file of a `times` line.
fn find_timed_file(tree: &Tree, root: Number, line: &TimesLine<'_>) -> Result<Number, Cause>
    ensures { result_map_both (λ n. n.0) (λ cause. cause) result ≡ timed_file tree.now root.0 (times_line_of line.now) }
{
    match find_file_or_root(tree, root, &line.path) {
        Some(file) if tree.attributes(file).is_some() => Ok(file),
        _ => Err(Cause::NoTarget),
    }
}

// The free end of a path, and a file that is no directory.
fn find_link_end<'a>(
    tree: &Tree,
    root: Number,
    path: &Path<'a>,
    old: &Path<'_>,
) -> Result<(PathEnd<'a>, Number), Cause>
    ensures { links_found result ≡ link_end tree.now root.0 path.now old.now }
{
    let end = find_free_end(tree, root, path)?;
    let Some(file) = find_file(tree, root, old) else {
        return Err(Cause::NoTarget);
    };
    if is_directory(tree, file) {
        return Err(Cause::NoTarget);
    }
    Ok((end, file))
}

// The attributes of a new file.
fn attributes_of(given: Given) -> NewFile
    ensures { result ≡ attributes given }
{
    NewFile {
        mode: given.mode,
        uid: given.uid,
        gid: given.gid,
        atime: START,
        mtime: START,
    }
}

// The attributes of a new symbolic link.
fn attributes_of_link(uid: u32, gid: u32) -> NewFile
    ensures { result ≡ link_attributes uid gid }
{
    attributes_of(Given {
        mode: LINK_MODE,
        uid,
        gid,
    })
}
