//! The lines of a listing, each put together before it is written.
ghost use Rattle.std.specs.Prelude.{◌≡◌, ◌+◌, ◌*◌, ◌≤◌, ◌++◌, length};
ghost use Rattle.arrayvec.specs.ArrayVec.{array_vec_len};
ghost use Rattle.nfs_inodes.specs.Views.{entry_seen};
ghost use Rattle.nfs_load.specs.Listings.{entry_line, file_line, octal};
ghost use Rattle.nfs_load.specs.Names.{name_text};
ghost use Rattle.nfs_load.specs.Listings as spec;

use crate::name_form::name_byte;
use nfs_attrs::fattr::Fattr;
use nfs_attrs::file_type::FileType;
use nfs_inodes::directory::EntryView;
use nfs_text::line::{Line, put, put_number};

/// The line of a file.
pub(crate) fn put_file(line: &mut Line, file: &Fattr)
    ensures { line.new.items ≡ file_line file.now }
{
    line.clear();
    put(line, type_word(file.file_type));
    put_number(line, b" ", file.fileid);
    put(line, b" mode=");
    put_octal(line, file.mode);
    put_number(line, b" uid=", u64::from(file.uid));
    put_number(line, b" gid=", u64::from(file.gid));
    put_number(line, b" nlink=", u64::from(file.nlink));
    put_number(line, b" size=", file.size);
    put(line, b"\n");
}

/// The line of an entry.
pub(crate) fn put_entry(line: &mut Line, entry: &EntryView<'_>)
    requires { length entry.now.name.now ≤ 255 }
    ensures { line.new.items ≡ entry_line (entry_seen entry.now) }
{
    line.clear();
    put_number(line, b" ", entry.cookie);
    put(line, b" ");
    put_name(line, entry.name);
    put_number(line, b" ", entry.number.0);
    put(line, b"\n");
}

fn type_word(file_type: FileType) -> &'static [u8]
    ensures { result.now ≡ spec.type_word file_type }
{
    match file_type {
        FileType::Directory => b"dir",
        FileType::SymbolicLink => b"link",
        _ => b"file",
    }
}

fn put_octal(line: &mut Line, mode: u32)
    requires { array_vec_len line.old + 4 ≤ 1024 }
    ensures items { line.new.items ≡ line.old.items ++ octal mode }
    ensures len { array_vec_len line.new ≡ array_vec_len line.old + 4 }
{
    let digit = |place: u32| b'0' + (mode / place % 8) as u8;
    put(line, &[digit(512), digit(64), digit(8), digit(1)]);
}

fn put_name(line: &mut Line, name: &[u8])
    requires { array_vec_len line.old + 3 * length name.now ≤ 1024 }
    ensures items { line.new.items ≡ line.old.items ++ name_text name.now }
    ensures len { array_vec_len line.new ≤ array_vec_len line.old + 3 * length name.now }
{
    for byte in name {
        put(line, name_byte(*byte).as_slice());
    }
}
