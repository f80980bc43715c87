//! The lines of a description, written one after another.
ghost use Rattle.std.specs.Prelude.{◌≡◌, ◌≤◌, ◌+◌, ◌++◌, OnOk, length};
ghost use Rattle.arrayvec.specs.ArrayVec.{array_vec_len};
ghost use Rattle.nfs_inodes.specs.Limits.{max_file_bytes};
ghost use Rattle.nfs_inodes.specs.Views.{bytes_seen};
ghost use Rattle.nfs_load.specs.Names.{name_text};
ghost use Rattle.nfs_describe.specs.Lines.{content_text, dir_line, file_line, limit_text, limits_line, limits_text, line_of_limits, link_line, names_line, path_text, server_line, target_text, times_line, volume_line};
ghost use Rattle.nfs_describe.specs.Outputs.{Takes};
ghost use Rattle.nfs_describe.specs.Texts.{hard_text};

use crate::fault::DescribeFault;
use crate::numbers::{put_given, put_moment};
use crate::output::Output;
use nfs_attrs::moment::Moment;
use nfs_inodes::limits::Limits;
use nfs_inodes::view::FileView;
use nfs_load::name_form::{NameForm, name_byte};
use nfs_load::statement::Given;
use nfs_text::line::{Line, put, put_number};
use std::alloc::Global;

// The line of the server's key.
fn put_server<O: Output>(alloc: Global, out: &mut O, key: [u8; 8]) -> Result<(), DescribeFault>
    ensures { OnOk result (Takes O.has out.old (server_line key) out.new) }
{
    let digits = hex::encode(alloc, key.as_slice())?;
    out.put(b"server ")?;
    out.put(digits.as_bytes())?;
    out.put(b"\n")
}

/// The line of the server's key, that of the limits that are not their defaults, and that of how names
/// are written, where it is not as they are.
pub fn put_head<O: Output>(
    alloc: Global,
    out: &mut O,
    key: [u8; 8],
    limits: Limits,
    names: NameForm,
) -> Result<(), DescribeFault>
    ensures { OnOk result (Takes O.has out.old (server_line key ++ limits_line limits ++ names_line names) out.new) }
{
    put_server(alloc, out, key)?;
    put_limits(out, limits)?;
    put_names(out, names)
}

// The line of how names are written; none where it is as they are.
fn put_names<O: Output>(out: &mut O, names: NameForm) -> Result<(), DescribeFault>
    ensures { OnOk result (Takes O.has out.old (names_line names) out.new) }
{
    match names {
        NameForm::Plain => Ok(()),
        NameForm::Percent => out.put(b"names percent\n"),
    }
}

// The line of the limits that are not their defaults; none where all are.
fn put_limits<O: Output>(out: &mut O, limits: Limits) -> Result<(), DescribeFault>
    ensures { OnOk result (Takes O.has out.old (limits_line limits) out.new) }
{
    let mut line = Line::new();
    put_limit_fields(&mut line, limits);
    put_line_of_limits(out, line.as_slice())
}

fn put_limit_fields(line: &mut Line, limits: Limits)
    ensures { line.new.items ≡ limits_text limits }
{
    let default = Limits::standard();
    line.clear();
    put_limit(
        line,
        b" file-size=",
        default.file_size as u64,
        limits.file_size as u64,
    );
    put_limit(
        line,
        b" links=",
        u64::from(default.links),
        u64::from(limits.links),
    );
    put_limit(
        line,
        b" link-path=",
        default.link_path as u64,
        limits.link_path as u64,
    );
    put_limit(line, b" files=", default.files, limits.files);
}

fn put_line_of_limits<O: Output>(out: &mut O, limits: &[u8]) -> Result<(), DescribeFault>
    ensures { OnOk result (Takes O.has out.old (line_of_limits limits.now) out.new) }
{
    if limits.is_empty() {
        return Ok(());
    }
    out.put(b"limits")?;
    out.put(limits)?;
    out.put(b"\n")
}

// A limit, unless it is its default.
fn put_limit(line: &mut Line, name: &[u8], default: u64, number: u64)
    requires { array_vec_len line.old + length name.now + 20 ≤ 1024 }
    ensures items { line.new.items ≡ line.old.items ++ limit_text name.now default number }
    ensures len { array_vec_len line.new ≤ array_vec_len line.old + length name.now + 20 }
{
    if number != default {
        put_number(line, name, number);
    }
}

/// The line of a volume, with what is given of its root.
pub fn put_volume_line<O: Output>(
    out: &mut O,
    path: &[u8],
    max_bytes: u64,
    max_files: u64,
    given: Given,
) -> Result<(), DescribeFault>
    ensures { OnOk result (Takes O.has out.old (volume_line path.now max_bytes max_files given) out.new) }
{
    let mut line = Line::new();
    put_number(&mut line, b" ", max_bytes);
    put_number(&mut line, b" ", max_files);
    put_given(&mut line, given);
    put(&mut line, b"\n");
    put_words(out, NameForm::Plain, b"volume ", path, line.as_slice())
}

/// The line of a directory.
pub(crate) fn put_dir<O: Output>(
    out: &mut O,
    form: NameForm,
    path: &[u8],
    given: Given,
) -> Result<(), DescribeFault>
    ensures { OnOk result (Takes O.has out.old (dir_line (path_text form path.now) given) out.new) }
{
    let mut line = Line::new();
    put_given(&mut line, given);
    put(&mut line, b"\n");
    put_words(out, form, b"dir ", path, line.as_slice())
}

/// The line of a regular file.
pub(crate) fn put_file<O: Output>(
    alloc: Global,
    out: &mut O,
    form: NameForm,
    path: &[u8],
    given: Given,
    file: &FileView<'_>,
) -> Result<(), DescribeFault>
    requires { length (bytes_seen file.now) ≤ max_file_bytes }
    ensures { OnOk result (Takes O.has out.old (file_line (path_text form path.now) given (bytes_seen file.now)) out.new) }
{
    let mut line = Line::new();
    put_given(&mut line, given);
    put(&mut line, b" ");
    put_words(out, form, b"file ", path, line.as_slice())?;
    put_content(alloc, out, file)?;
    out.put(b"\n")
}

/// The line of a symbolic link.
pub(crate) fn put_link<O: Output>(
    out: &mut O,
    form: NameForm,
    path: &[u8],
    uid: u32,
    gid: u32,
    target: &[u8],
) -> Result<(), DescribeFault>
    ensures { OnOk result (Takes O.has out.old (link_line (path_text form path.now) uid gid (target_text form target.now)) out.new) }
{
    let mut line = Line::new();
    put_number(&mut line, b" ", u64::from(uid));
    put_number(&mut line, b" ", u64::from(gid));
    put(&mut line, b" ");
    put_words(out, form, b"link ", path, line.as_slice())?;
    put_target_text(out, form, target)?;
    out.put(b"\n")
}

/// The line of a hard link of a file, beside its first one.
pub(crate) fn put_hard<O: Output>(
    out: &mut O,
    form: NameForm,
    path: &[u8],
    first: &[u8],
) -> Result<(), DescribeFault>
    ensures { OnOk result (Takes O.has out.old (hard_text form path.now first.now) out.new) }
{
    put_words(out, form, b"hard ", path, b" ")?;
    put_path_text(out, form, first)?;
    out.put(b"\n")
}

/// The line of a file's times.
pub(crate) fn put_times_line<O: Output>(
    out: &mut O,
    form: NameForm,
    path: &[u8],
    atime: Moment,
    mtime: Moment,
    ctime: Moment,
) -> Result<(), DescribeFault>
    ensures { OnOk result (Takes O.has out.old (times_line (path_text form path.now) atime mtime ctime) out.new) }
{
    let mut line = Line::new();
    put_moment(&mut line, atime);
    put_moment(&mut line, mtime);
    put_moment(&mut line, ctime);
    put(&mut line, b"\n");
    put_words(out, form, b"times ", path, line.as_slice())
}

// A keyword, a path, and what stands after it.
fn put_words<O: Output>(
    out: &mut O,
    form: NameForm,
    keyword: &[u8],
    path: &[u8],
    after: &[u8],
) -> Result<(), DescribeFault>
    ensures { OnOk result (Takes O.has out.old (keyword.now ++ path_text form path.now ++ after.now) out.new) }
{
    out.put(keyword)?;
    put_path_text(out, form, path)?;
    out.put(after)
}

// A path, as it stands in a line.
fn put_path_text<O: Output>(out: &mut O, form: NameForm, path: &[u8]) -> Result<(), DescribeFault>
    ensures { OnOk result (Takes O.has out.old (path_text form path.now) out.new) }
{
    match form {
        NameForm::Plain => out.put(path),
        NameForm::Percent => put_escaped(out, path),
    }
}

// What a symbolic link holds, as it stands in a line.
fn put_target_text<O: Output>(
    out: &mut O,
    form: NameForm,
    target: &[u8],
) -> Result<(), DescribeFault>
    ensures { OnOk result (Takes O.has out.old (target_text form target.now) out.new) }
{
    match form {
        NameForm::Plain => out.put(target),
        NameForm::Percent if target.is_empty() => out.put(b"%"),
        NameForm::Percent => put_escaped(out, target),
    }
}

// Bytes with escapes.
fn put_escaped<O: Output>(out: &mut O, bytes: &[u8]) -> Result<(), DescribeFault>
    ensures { OnOk result (Takes O.has out.old (name_text bytes.now) out.new) }
{
    for byte in bytes {
        out.put(name_byte(*byte).as_slice())?;
    }
    Ok(())
}

// The bytes of a regular file, run by run: two digits each, or `-` for none.
fn put_content<O: Output>(
    alloc: Global,
    out: &mut O,
    file: &FileView<'_>,
) -> Result<(), DescribeFault>
    requires { length (bytes_seen file.now) ≤ max_file_bytes }
    ensures { OnOk result (Takes O.has out.old (content_text (bytes_seen file.now)) out.new) }
{
    let mut run = file.bytes_at(0);
    if run.is_empty() {
        return out.put(b"-");
    }
    let mut done = 0;
    while !run.is_empty() {
        let digits = hex::encode(alloc, run)?;
        out.put(digits.as_bytes())?;
        done += run.len();
        run = file.bytes_at(done);
    }
    Ok(())
}
