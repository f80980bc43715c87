//! What is asked of a file.
ghost use Rattle.std.specs.Prelude.{◌≡◌, ◌≤◌, ◌<◌, ◌^◌, length};
ghost use Rattle.nfs_xdr.specs.Written.{Appends};
ghost use Rattle.nfs_client.specs.Requests.{digits_of, file_procedure, file_text};

use nfs_args::procedure::Procedure;
use nfs_attrs::sattr::{Sattr, write_sattr};
use nfs_xdr::output::Output;

/// What is asked of a file, beside its handle.
#[derive(Clone, Copy)]
pub enum FileRequest<'a> {
    /// GETATTR.
    Stat,
    /// SETATTR, without a guard.
    Set(Sattr),
    /// ACCESS, for all rights.
    Access,
    /// READLINK.
    Readlink,
    /// READ.
    Read {
        /// Where the bytes begin.
        offset: u64,
        /// How many they are at most.
        count: u32,
    },
    /// WRITE, as safe as the server likes.
    Write {
        /// Where the bytes begin.
        offset: u64,
        /// The bytes, in hexadecimal digits.
        digits: &'a [u8],
    },
    /// READDIR, of the entries after this cookie.
    List(u64),
    /// READDIRPLUS, of the entries after this cookie.
    ListPlus(u64),
    /// FSSTAT.
    Room,
    /// FSINFO.
    Limits,
    /// PATHCONF.
    PathLimits,
    /// COMMIT, of the whole file.
    Commit,
}

// All rights that ACCESS knows.
const ALL_RIGHTS: u32 = 0x3f;

// How many bytes a page of a directory has at most.
const PAGE_BYTES: u32 = 4_096;

impl<'a> FileRequest<'a> {
    /// Its procedure.
    pub fn procedure(self) -> Procedure
        ensures { result ≡ file_procedure self.entry }
    {
        match self {
            FileRequest::Stat => Procedure::Getattr,
            FileRequest::Set(_) => Procedure::Setattr,
            FileRequest::Access => Procedure::Access,
            FileRequest::Readlink => Procedure::Readlink,
            FileRequest::Read { .. } => Procedure::Read,
            FileRequest::Write { .. } => Procedure::Write,
            FileRequest::List(_) => Procedure::Readdir,
            FileRequest::ListPlus(_) => Procedure::Readdirplus,
            FileRequest::Room => Procedure::Fsstat,
            FileRequest::Limits => Procedure::Fsinfo,
            FileRequest::PathLimits => Procedure::Pathconf,
            FileRequest::Commit => Procedure::Commit,
        }
    }

    /// The digits of a WRITE; of another request none.
    pub(crate) fn digits(self) -> &'a [u8]
        ensures { result.now ≡ digits_of self.entry }
    {
        match self {
            FileRequest::Write { digits, .. } => digits,
            _ => &[],
        }
    }

    /// Writes the arguments of its procedure, for a file of this handle and with these bytes.
    pub(crate) fn write(self, out: &mut Output, file: &[u8], content: &[u8])
        requires handle { length file.now ≤ 64 }
        requires content { length content.now < 2 ^ 32 }
        requires room { length (file_text self file.now content.now) ≤ out.old.room }
        ensures { Appends (file_text self.entry file.now content.now) out.old out.new }
    {
        out.opaque(file);
        match self {
            FileRequest::Stat
            | FileRequest::Readlink
            | FileRequest::Room
            | FileRequest::Limits
            | FileRequest::PathLimits => {}
            FileRequest::Set(attributes) => {
                write_sattr(out, &attributes);
                out.u32(0);
            }
            FileRequest::Access => out.u32(ALL_RIGHTS),
            FileRequest::Read { offset, count } => {
                out.u64(offset);
                out.u32(count);
            }
            FileRequest::Write { offset, .. } => {
                out.u64(offset);
                out.numbers([content.len() as u32, 0]);
                out.opaque(content);
            }
            FileRequest::List(cookie) => {
                out.u64(cookie);
                out.numbers([0, 0, PAGE_BYTES]);
            }
            FileRequest::ListPlus(cookie) => {
                out.u64(cookie);
                out.numbers([0, 0, PAGE_BYTES, PAGE_BYTES]);
            }
            FileRequest::Commit => out.numbers([0, 0, 0]),
        }
    }
}
