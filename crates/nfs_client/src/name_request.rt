//! What is asked of a name in a directory.
ghost use Rattle.std.specs.Prelude.{◌≡◌, ◌≤◌, ◌<◌, ◌^◌, length};
ghost use Rattle.nfs_xdr.specs.Written.{Appends};
ghost use Rattle.nfs_client.specs.Requests.{name_procedure, name_text, target_of};

use nfs_args::procedure::Procedure;
use nfs_attrs::sattr::{Sattr, write_sattr};
use nfs_xdr::output::Output;

/// What is asked of a name in a directory, where a file may be or not.
#[derive(Clone, Copy)]
pub enum NameRequest<'a> {
    /// LOOKUP.
    Lookup,
    /// CREATE, unchecked.
    Create(Sattr),
    /// MKDIR.
    Mkdir(Sattr),
    /// SYMLINK, of a link that holds this path.
    Symlink(&'a [u8]),
    /// MKNOD, of a named pipe.
    Mknod,
    /// REMOVE.
    Remove,
    /// RMDIR.
    Rmdir,
}

// The type of a named pipe.
const FIFO: u32 = 7;

impl<'a> NameRequest<'a> {
    /// Its procedure.
    pub fn procedure(self) -> Procedure
        ensures { result ≡ name_procedure self.entry }
    {
        match self {
            NameRequest::Lookup => Procedure::Lookup,
            NameRequest::Create(_) => Procedure::Create,
            NameRequest::Mkdir(_) => Procedure::Mkdir,
            NameRequest::Symlink(_) => Procedure::Symlink,
            NameRequest::Mknod => Procedure::Mknod,
            NameRequest::Remove => Procedure::Remove,
            NameRequest::Rmdir => Procedure::Rmdir,
        }
    }

    /// The path that a link is to hold; of another request none.
    pub(crate) fn target(self) -> &'a [u8]
        ensures { result.now ≡ target_of self.entry }
    {
        match self {
            NameRequest::Symlink(path) => path,
            _ => &[],
        }
    }

    /// Writes the arguments of its procedure, for a name in the directory of this handle.
    pub(crate) fn write(self, out: &mut Output, dir: &[u8], name: &[u8])
        requires dir { length dir.now ≤ 64 }
        requires name { length name.now < 2 ^ 32 }
        requires target { length (target_of self) < 2 ^ 32 }
        requires room { length (name_text self dir.now name.now) ≤ out.old.room }
        ensures { Appends (name_text self.entry dir.now name.now) out.old out.new }
    {
        out.opaque(dir);
        out.opaque(name);
        match self {
            NameRequest::Lookup | NameRequest::Remove | NameRequest::Rmdir => {}
            NameRequest::Create(attributes) => {
                out.u32(0);
                write_sattr(out, &attributes);
            }
            NameRequest::Mkdir(attributes) => write_sattr(out, &attributes),
            NameRequest::Symlink(path) => {
                out.numbers([0, 0, 0, 0, 0, 0]);
                out.opaque(path);
            }
            NameRequest::Mknod => {
                out.u32(FIFO);
                out.numbers([0, 0, 0, 0, 0, 0]);
            }
        }
    }
}
