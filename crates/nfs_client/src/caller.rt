//! Who sends a call on files whose handles are known.
ghost use Rattle.std.specs.Prelude.{◌≡◌, ◌≤◌, ◌<◌, ◌^◌, vec_len, false, Some, IfOk, IfErr, length};
ghost use Rattle.hex.specs.Hex.{decode_of};
ghost use Rattle.nfs_client.specs.declared.fault.CallFault.TheVariants.{Memory};
ghost use Rattle.nfs_client.specs.Records.{exports_call, file_call, head_of, link_call, mount_record, name_call, rename_call, sent_of};
ghost use Rattle.nfs_client.specs.Records.{OnlyWithout, is_long, is_long_content, ok_of};
ghost use Rattle.nfs_client.specs.Requests.{digits_of, target_of};

use crate::call_header::{CallHeader, MAX_HEAD_BYTES, write_head};
use crate::credential::{MAX_AUTH_SYS_BYTES, write_auth_sys};
use crate::fault::{CallFault, Part};
use crate::file_request::FileRequest;
use crate::name_request::NameRequest;
use nfs_args::procedure::{MountProcedure, Procedure};
use nfs_args::program::{MOUNT_PROGRAM, NFS_PROGRAM};
use nfs_rpc::auth_sys::Cred;
use nfs_xdr::output::Output;
use std::alloc::Global;

/// Who sends a call with which number. Records have no mark; the credential is AUTH_SYS with the stamp 0 and a
/// machine without a name. Calls of other numbers are no retransmissions of each other.
#[derive(Clone, Copy)]
pub struct Caller<'a> {
    /// Where memory is from.
    pub alloc: Global,
    /// The call's number.
    pub xid: u32,
    /// Who calls.
    pub cred: &'a Cred,
}

/// A name in a directory.
#[derive(Clone, Copy)]
pub struct DirName<'a> {
    /// The directory's handle.
    pub dir: &'a [u8],
    /// The name.
    pub name: &'a [u8],
}

/// The longest path, name or content that is asked for.
pub const MAX_WORD_BYTES: usize = 262_144;

/// The most bytes of a handle (RFC 1813, section 2.4).
pub const MAX_HANDLE_BYTES: usize = 64;

// The most bytes of what stands beside some opaque data (its length and its padding), of a handle after its
// length, and of sattr3 with the words beside it.
const OPAQUE_BYTES: usize = 8;

const HANDLE_BYTES: usize = 4 + MAX_HANDLE_BYTES;

const ATTRIBUTES_BYTES: usize = 64;

// The most bytes of arguments beside the names and the data in them.
const FILE_BYTES: usize = HANDLE_BYTES + ATTRIBUTES_BYTES + OPAQUE_BYTES;

const NAME_BYTES: usize = HANDLE_BYTES + OPAQUE_BYTES + ATTRIBUTES_BYTES + OPAQUE_BYTES;

const TWO_PLACES_BYTES: usize = 2 * (HANDLE_BYTES + OPAQUE_BYTES);

impl<'a> Caller<'a> {
    /// A call on the file of a handle. `BadDigits` and `TooLong` as they say of the bytes of a WRITE, `Memory`.
    pub fn file(self, file: &[u8], request: FileRequest<'_>) -> Result<Output, CallFault>
        requires { length file.now ≤ 64 }
        ensures text { IfOk result (λ out. file_call (sent_of self.entry) file.now request.entry ≡ Some out.bytes) }
        ensures fault { IfErr result (OnlyWithout (file_call (sent_of self.entry) file.now request.entry)
            (is_long_content (decode_of (digits_of request.entry)))) }
    {
        let content = self.content_of(request.digits())?;
        let room = FILE_BYTES + content.len();
        let mut out = self.begin(NFS_PROGRAM, request.procedure().number(), room)?;
        request.write(&mut out, file, content.as_slice());
        Ok(out)
    }

    /// A call on a name in a directory. `TooLong` where a link would hold a longer path, `Memory`.
    pub fn name(self, place: DirName<'_>, request: NameRequest<'_>) -> Result<Output, CallFault>
        requires dir { length place.dir.now ≤ 64 }
        requires name { length place.name.now ≤ 262144 }
        ensures text { IfOk result (λ out. name_call (sent_of self.entry) place.entry.dir.now place.entry.name.now request.entry ≡ out.bytes) }
        ensures fault { IfErr result (OnlyWithout (Some place.entry.name.now) (is_long (target_of request.entry))) }
    {
        let target = request.target();
        if target.len() > MAX_WORD_BYTES {
            return Err(CallFault::TooLong(Part::AfterPath));
        }
        let room = NAME_BYTES + place.name.len() + target.len();
        let mut out = self.begin(NFS_PROGRAM, request.procedure().number(), room)?;
        request.write(&mut out, place.dir, place.name);
        Ok(out)
    }

    /// A RENAME. `Memory`.
    pub fn rename(self, from: DirName<'_>, to: DirName<'_>) -> Result<Output, CallFault>
        requires from { length from.dir.now ≤ 64 }
        requires from_name { length from.name.now ≤ 262144 }
        requires to { length to.dir.now ≤ 64 }
        requires to_name { length to.name.now ≤ 262144 }
        ensures text { IfOk result (λ out. rename_call (sent_of self.entry) from.entry.dir.now from.entry.name.now to.entry.dir.now to.entry.name.now ≡ out.bytes) }
        ensures fault { IfErr result (λ fault. fault ≡ Memory) }
    {
        let room = TWO_PLACES_BYTES + from.name.len() + to.name.len();
        let mut out = self.begin(NFS_PROGRAM, Procedure::Rename.number(), room)?;
        out.opaque(from.dir);
        out.opaque(from.name);
        out.opaque(to.dir);
        out.opaque(to.name);
        Ok(out)
    }

    /// A LINK. `Memory`.
    pub fn link(self, file: &[u8], to: DirName<'_>) -> Result<Output, CallFault>
        requires file { length file.now ≤ 64 }
        requires dir { length to.dir.now ≤ 64 }
        requires name { length to.name.now ≤ 262144 }
        ensures text { IfOk result (λ out. link_call (sent_of self.entry) file.now to.entry.dir.now to.entry.name.now ≡ out.bytes) }
        ensures fault { IfErr result (λ fault. fault ≡ Memory) }
    {
        let room = TWO_PLACES_BYTES + to.name.len();
        let mut out = self.begin(NFS_PROGRAM, Procedure::Link.number(), room)?;
        out.opaque(file);
        out.opaque(to.dir);
        out.opaque(to.name);
        Ok(out)
    }

    /// An MNT or a UMNT, of a path as it stands. `TooLong`, `Memory`.
    pub fn volume(self, procedure: MountProcedure, path: &[u8]) -> Result<Output, CallFault>
        ensures text { IfOk result (λ out. mount_record (sent_of self.entry) procedure path.now ≡ out.bytes) }
        ensures fault { IfErr result (OnlyWithout (Some path.now) (is_long path.now)) }
    {
        if path.len() > MAX_WORD_BYTES {
            return Err(CallFault::TooLong(Part::Path));
        }
        let mut out = self.begin(MOUNT_PROGRAM, procedure.number(), OPAQUE_BYTES + path.len())?;
        out.opaque(path);
        Ok(out)
    }

    /// An EXPORT. `Memory`.
    pub fn exports(self) -> Result<Output, CallFault>
        ensures text { IfOk result (λ out. exports_call (sent_of self.entry) ≡ out.bytes) }
        ensures fault { IfErr result (λ fault. fault ≡ Memory) }
    {
        self.begin(MOUNT_PROGRAM, MountProcedure::Export.number(), 0)
    }

    // An output with the head of a call, and with this room after it.
    fn begin(self, program: u32, procedure: u32, room: usize) -> Result<Output, CallFault>
        requires { room < 2 ^ 32 }
        ensures text { IfOk result (λ out. out.bytes ≡ head_of (sent_of self.entry) program procedure) }
        ensures room { IfOk result (λ out. room ≤ out.room) }
        ensures fault { IfErr result (λ fault. fault ≡ Memory) }
    {
        let mut credential = Output::new(self.alloc, MAX_AUTH_SYS_BYTES)?;
        write_auth_sys(&mut credential, self.cred);
        let call = CallHeader {
            xid: self.xid,
            program,
            procedure,
        };
        let mut out = Output::new(self.alloc, MAX_HEAD_BYTES + room)?;
        write_head(&mut out, call, credential.bytes());
        Ok(out)
    }

    // The bytes that digits say.
    fn content_of(self, digits: &[u8]) -> Result<Vec<u8>, CallFault>
        ensures bytes { IfOk result (λ content. decode_of digits.now ≡ Ok content.items) }
        ensures bound { IfOk result (λ content. vec_len content ≤ 262144) }
        ensures fault { IfErr result (OnlyWithout (ok_of (decode_of digits.now)) (is_long_content (decode_of digits.now))) }
    {
        match hex::decode(self.alloc, digits) {
            Ok(content) if content.len() <= MAX_WORD_BYTES => Ok(content),
            Ok(_) => Err(CallFault::TooLong(Part::Bytes)),
            Err(hex::FromHexError::OutOfMemory) => Err(CallFault::Memory),
            Err(_) => Err(CallFault::BadDigits),
        }
    }
}
