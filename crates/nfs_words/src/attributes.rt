//! The attributes of a file, in words.

use crate::items::put_moment;
use crate::text::Text;
use nfs_attrs::fattr::Fattr;
use nfs_attrs::file_type::FileType;

/// Puts the attributes of a file, as a listing has them.
pub fn put_attributes(out: &mut Text, file: &Fattr) {
    out.put(type_word(file.file_type));
    out.put_field(b" ", file.fileid);
    out.put(b" mode=");
    out.put_mode(file.mode);
    out.put_field(b" uid=", u64::from(file.uid));
    out.put_field(b" gid=", u64::from(file.gid));
    out.put_field(b" nlink=", u64::from(file.nlink));
    out.put_field(b" size=", file.size);
    out.put_field(b" used=", file.used);
    if file.rdev.specdata1 > 0 || file.rdev.specdata2 > 0 {
        out.put_field(b" rdev=", u64::from(file.rdev.specdata1));
        out.put_field(b",", u64::from(file.rdev.specdata2));
    }
    out.put_field(b" fsid=", file.fsid);
    put_moment(out, b" atime=", file.atime);
    put_moment(out, b" mtime=", file.mtime);
    put_moment(out, b" ctime=", file.ctime);
}

fn type_word(file_type: FileType) -> &'static [u8] {
    match file_type {
        FileType::Regular => b"file",
        FileType::Directory => b"dir",
        FileType::BlockDevice => b"block",
        FileType::CharacterDevice => b"char",
        FileType::SymbolicLink => b"link",
        FileType::Socket => b"socket",
        FileType::Fifo => b"fifo",
    }
}
