//! What is asked for.

use crate::file_request::FileRequest;
use crate::name_request::NameRequest;

/// What is asked for, beside the path that it is asked of.
#[derive(Clone, Copy)]
pub enum Request<'a> {
    /// Something of a file.
    File(FileRequest<'a>),
    /// Something of a name in a directory.
    Name(NameRequest<'a>),
    /// RENAME, of the name to this path.
    Rename(&'a [u8]),
    /// LINK, of the file under this path.
    Link(&'a [u8]),
    /// MNT.
    Mount,
    /// UMNT.
    Unmount,
}
