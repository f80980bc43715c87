//! The rules of each procedure after those of its handles, in the order of the table. What a rule has
//! found is answered where the procedure goes on with it.
ghost use Rattle.std.specs.Prelude.{◌≡◌, true, Some, IfOk, min, option_map};
ghost use Rattle.nfs_args.specs.Sizes.{max_page};
ghost use Rattle.nfs_dirs.specs.Opening.{IsOpen};
ghost use Rattle.nfs_dirs.specs.Pages.{left_after, plus_bytes};
ghost use Rattle.nfs_inodes.specs.Reading.{is_directory_type, number_under};
ghost use Rattle.nfs_inodes.specs.Views.{IsSeen};
ghost use Rattle.nfs_rules.specs.Judging.{Judges};
ghost use Rattle.nfs_rules.specs.Rights.{may};
ghost use Rattle.nfs_rules.specs.Table as table;
ghost use Rattle.nfs_rules.specs.Tests.{found};

use crate::entry_rules::{must_be_directory, must_not_be_directory};
use crate::move_rules::move_rules;
use crate::name_rules::{
    name_must_be_formed, name_must_be_short, name_must_not_be_dot, name_must_not_be_dot_dot,
    name_must_not_be_dots,
};
use crate::rights::Right;
use crate::rule::Rule;
use crate::subject::Subject;
use nfs_args::create::{Create, CreateHow};
use nfs_args::readdir::{Readdir, Readdirplus};
use nfs_args::rename::Rename;
use nfs_args::setattr::Setattr;
use nfs_args::write::Write;
use nfs_dirs::open_page::{OpenPage, OpenPagePlus};
use nfs_inodes::view::FileView;

/// SETATTR (RFC 1813, section 3.3.2).
pub fn setattr_rules(file: &Subject<'_>, args: &Setattr<'_>) -> Result<(), Rule>
    ensures { Judges result (table.setattr_rules file.now args.now) }
{
    let given = &args.attributes;
    file.must_not_be_read_only()?;
    file.must_match_guard(args.guard)?;
    file.must_allow_mode(given)?;
    file.must_allow_uid(given)?;
    file.must_allow_gid(given)?;
    file.must_allow_size(given)?;
    file.must_be_writable_for_size(given.size)?;
    file.must_allow_client_time(given)?;
    file.must_allow_server_time(given)?;
    file.must_have_room_for_size(given.size)
}

/// LOOKUP (RFC 1813, section 3.3.3), and the file under the name.
pub fn lookup_rules<'a>(dir: &Subject<'a>, name: &[u8]) -> Result<FileView<'a>, Rule>
    ensures rules { Judges result (table.lookup_rules dir.now name.now) }
    ensures found { IfOk result (λ f. found dir.now name.now ≡ Some f.attributes) }
    ensures seen { IfOk result (λ f. IsSeen dir.now.tree f) }
    ensures number { IfOk result (λ f. number_under dir.now.tree dir.now.file.fileid name.now ≡ Some f.attributes.fileid) }
{
    dir.must_be_directory()?;
    dir.must_be_searchable()?;
    name_must_be_short(name)?;
    name_must_be_formed(name)?;
    dir.must_find(name)
}

/// READ (RFC 1813, section 3.3.6).
pub fn read_rules(file: &Subject<'_>) -> Result<(), Rule>
    ensures { Judges result (table.read_rules file.now) }
{
    file.must_be_regular()?;
    file.must_be_readable()
}

/// WRITE (RFC 1813, section 3.3.7).
pub fn write_rules(file: &Subject<'_>, args: &Write<'_>) -> Result<(), Rule>
    ensures { Judges result (table.write_rules file.now args.now) }
{
    file.must_not_be_read_only()?;
    file.must_be_regular()?;
    file.must_be_writable()?;
    file.must_have_room_for_bytes(args.offset, args.content.bytes().len())
}

/// CREATE (RFC 1813, section 3.3.8), and the file that is there, if one is taken.
pub fn create_rules<'a>(dir: &Subject<'a>, args: &Create<'_>) -> Result<Option<FileView<'a>>, Rule>
    ensures rules { Judges result (table.create_rules dir.now args.now) }
    ensures found { IfOk result (λ o. option_map (λ f. f.attributes) o ≡ found dir.now args.now.place.name) }
{
    let name = args.place.name.bytes();
    dir.must_not_be_read_only()?;
    dir.must_be_directory()?;
    name_must_be_short(name)?;
    name_must_be_formed(name)?;
    dir.must_be_searchable()?;
    let present = dir.must_be_free_or_taken(name, &args.how)?;
    match &present {
        None => new_file_rules(dir, size_in(&args.how))?,
        Some(file) => present_file_rules(&dir.beside(file), &args.how)?,
    }
    Ok(present)
}

// CREATE of a name that is not there.
fn new_file_rules(dir: &Subject<'_>, size: Option<u64>) -> Result<(), Rule>
    ensures { Judges result (table.new_file_rules dir.now size) }
{
    dir.must_be_changeable()?;
    dir.must_have_file_left()?;
    dir.must_not_be_too_big(size)?;
    dir.must_have_space(size)?;
    dir.must_have_number_left()
}

// CREATE of a file that is there, which may get a size.
fn present_file_rules(file: &Subject<'_>, how: &CreateHow) -> Result<(), Rule>
    ensures { Judges result (table.present_file_rules file.now how.now) }
{
    match how {
        CreateHow::Unchecked(given) => {
            file.must_be_writable_for_size(given.size)?;
            file.must_have_room_for_size(given.size)
        }
        _ => Ok(()),
    }
}

fn size_in(how: &CreateHow) -> Option<u64>
    ensures { result ≡ table.size_in how.now }
{
    match how {
        CreateHow::Unchecked(given) | CreateHow::Guarded(given) => given.size,
        CreateHow::Exclusive(_) => None,
    }
}

/// MKDIR (RFC 1813, section 3.3.9).
pub fn mkdir_rules(dir: &Subject<'_>, name: &[u8]) -> Result<(), Rule>
    ensures { Judges result (table.mkdir_rules dir.now name.now) }
{
    dir.must_not_be_read_only()?;
    dir.must_be_directory()?;
    name_must_be_short(name)?;
    name_must_be_formed(name)?;
    dir.must_be_searchable()?;
    dir.must_be_free(name)?;
    dir.must_be_changeable()?;
    dir.must_have_file_left()?;
    dir.must_have_link_left()?;
    dir.must_have_number_left()
}

/// SYMLINK (RFC 1813, section 3.3.10).
pub fn symlink_rules(dir: &Subject<'_>, name: &[u8], path: &[u8]) -> Result<(), Rule>
    ensures { Judges result (table.symlink_rules dir.now name.now path.now) }
{
    dir.must_not_be_read_only()?;
    dir.must_be_directory()?;
    name_must_be_short(name)?;
    name_must_be_formed(name)?;
    dir.must_be_searchable()?;
    dir.link_path_must_be_short(path)?;
    dir.must_be_free(name)?;
    dir.must_be_changeable()?;
    dir.must_have_file_left()?;
    dir.must_have_number_left()
}

/// REMOVE (RFC 1813, section 3.3.12), and the file that the name names.
pub fn remove_rules<'a>(dir: &Subject<'a>, name: &[u8]) -> Result<FileView<'a>, Rule>
    ensures rules { Judges result (table.remove_rules dir.now name.now) }
    ensures found { IfOk result (λ f. found dir.now name.now ≡ Some f.attributes) }
{
    dir.must_not_be_read_only()?;
    dir.must_be_directory()?;
    name_must_not_be_dots(name)?;
    name_must_be_short(name)?;
    name_must_be_formed(name)?;
    dir.must_be_searchable()?;
    let found = dir.must_find(name)?;
    dir.must_be_changeable()?;
    let file = found.attributes();
    dir.must_let_go(&file)?;
    must_not_be_directory(&file)?;
    Ok(found)
}

/// RMDIR (RFC 1813, section 3.3.13), and the directory that the name names.
pub fn rmdir_rules<'a>(dir: &Subject<'a>, name: &[u8]) -> Result<FileView<'a>, Rule>
    ensures rules { Judges result (table.rmdir_rules dir.now name.now) }
    ensures found { IfOk result (λ f. found dir.now name.now ≡ Some f.attributes) }
{
    dir.must_not_be_read_only()?;
    dir.must_be_directory()?;
    name_must_not_be_dot(name)?;
    name_must_not_be_dot_dot(name)?;
    name_must_be_short(name)?;
    name_must_be_formed(name)?;
    dir.must_be_searchable()?;
    let found = dir.must_find(name)?;
    dir.must_be_changeable()?;
    let target = found.attributes();
    dir.must_let_go(&target)?;
    must_be_directory(&target)?;
    dir.must_be_empty(&found)?;
    Ok(found)
}

/// RENAME (RFC 1813, section 3.3.14): of the directories of the old name and of the new one. The file
/// that is moved, and what the new name names, if it names something.
pub fn rename_rules<'a>(
    from: &Subject<'a>,
    to: &Subject<'a>,
    args: &Rename<'_>,
) -> Result<(FileView<'a>, Option<FileView<'a>>), Rule>
    ensures rules { Judges result (table.rename_rules from.now to.now args.now) }
    ensures moved { IfOk result (λ f. found from.now args.now.from.name ≡ Some f.0.attributes) }
    ensures replaced { IfOk result (λ f. option_map (λ o. o.attributes) f.1 ≡ found to.now args.now.to.name) }
{
    let (name, new_name) = (args.from.name.bytes(), args.to.name.bytes());
    from.must_not_be_read_only()?;
    from.must_be_directory()?;
    to.must_be_directory()?;
    name_must_not_be_dots(name)?;
    name_must_not_be_dots(new_name)?;
    name_must_be_short(name)?;
    name_must_be_short(new_name)?;
    name_must_be_formed(name)?;
    name_must_be_formed(new_name)?;
    rename_entry_rules(from, to, args)
}

// Those of RENAME after those of what its directories and names are like.
#[inline(always)]
fn rename_entry_rules<'a>(
    from: &Subject<'a>,
    to: &Subject<'a>,
    args: &Rename<'_>,
) -> Result<(FileView<'a>, Option<FileView<'a>>), Rule>
    requires { is_directory_type to.now.file.file_type ≡ true }
    ensures rules { Judges result (table.rename_entry_rules from.now to.now args.now) }
    ensures moved { IfOk result (λ f. found from.now args.now.from.name ≡ Some f.0.attributes) }
    ensures replaced { IfOk result (λ f. option_map (λ o. o.attributes) f.1 ≡ found to.now args.now.to.name) }
{
    let (name, new_name) = (args.from.name.bytes(), args.to.name.bytes());
    from.must_be_searchable()?;
    to.must_be_searchable()?;
    let moved = from.must_find(name)?;
    from.must_be_changeable()?;
    to.must_be_changeable()?;
    let replaced = to.found(new_name);
    move_rules(from, to, &moved, &replaced)?;
    Ok((moved, replaced))
}

/// LINK (RFC 1813, section 3.3.15): of the file and the directory that takes the hard link.
pub fn link_rules(file: &Subject<'_>, dir: &Subject<'_>, name: &[u8]) -> Result<(), Rule>
    ensures { Judges result (table.link_rules file.now dir.now name.now) }
{
    file.must_not_be_read_only()?;
    file.must_not_be_directory()?;
    dir.must_be_directory()?;
    name_must_be_short(name)?;
    name_must_be_formed(name)?;
    dir.must_be_searchable()?;
    dir.must_be_free(name)?;
    dir.must_be_changeable()?;
    file.must_have_link_left()?;
    dir.must_have_cookie_left()
}

/// READDIR (RFC 1813, section 3.3.16), and the page, with its first entry.
pub fn readdir_rules<'a>(dir: &Subject<'a>, args: &Readdir<'_>) -> Result<OpenPage<'a>, Rule>
    ensures rules { Judges result (table.readdir_rules dir.now args.now) }
    ensures open { IfOk result (IsOpen (left_after dir.now.tree dir.now.file.fileid args.now.cookie) (min args.now.count max_page) 0) }
{
    dir.must_be_directory()?;
    dir.must_be_listable()?;
    dir.first_must_fit(args.cookie, args.count)
}

/// READDIRPLUS (RFC 1813, section 3.3.17), and the page, with its first entry.
pub fn readdirplus_rules<'a>(
    dir: &Subject<'a>,
    args: &Readdirplus<'_>,
) -> Result<OpenPagePlus<'a>, Rule>
    ensures rules { Judges result (table.readdirplus_rules dir.now args.now) }
    ensures open { IfOk result (λ p. IsOpen (left_after dir.now.tree dir.now.file.fileid args.now.cookie) (min args.now.maxcount max_page)
        (plus_bytes (may dir.now.ids dir.now.file Right.Execute)) p.page) }
    ensures searchable { IfOk result (λ p. p.searchable ≡ may dir.now.ids dir.now.file Right.Execute) }
{
    dir.must_be_directory()?;
    dir.must_be_listable()?;
    dir.first_must_fit_plus(args.cookie, args.maxcount)
}
