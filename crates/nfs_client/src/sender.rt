//! Who sends a call, and over which tree.
ghost use Rattle.std.specs.Prelude.{◌≡◌, false, ◌≤◌, Some, IfOk, IfErr, length};
ghost use Rattle.nfs_client.specs.Records.{handle_of_path, name_of_path, named_seen, sent_by, record_in};
ghost use Rattle.nfs_client.specs.Records.{file_record, name_record, rename_record, link_record, mount_record, sent_of};
ghost use Rattle.nfs_client.specs.Records.{OnlyWithout, IsFileFault, IsNameFault, IsRenameFault, IsLinkFault, IsNamedFault, IsRecordFault};
ghost use Rattle.nfs_client.specs.Records.{is_long};

use crate::caller::{Caller, DirName, MAX_WORD_BYTES};
use crate::fault::{CallFault, Part};
use crate::file_request::FileRequest;
use crate::name_request::NameRequest;
use crate::request::Request;
use crate::resolved_path::{find_file, find_place};
use nfs_args::procedure::MountProcedure;
use nfs_inodes::tree::Tree;
use nfs_rpc::auth_sys::Cred;
use nfs_xdr::output::Output;
use std::alloc::Global;

/// Who sends a call with which number, over which tree.
#[derive(Clone, Copy)]
pub struct Sender<'a> {
    /// Where memory is from.
    pub alloc: Global,
    /// The tree, in which the paths lead to files.
    pub tree: &'a Tree,
    /// The call's number.
    pub xid: u32,
    /// Who calls.
    pub cred: &'a Cred,
}

// The handle of a directory, and a name in it.
#[derive(Clone, Copy)]
struct Named<'a> {
    handle: [u8; 24],
    name: &'a [u8],
}

impl<'b> Named<'b> {
    fn place(&self) -> DirName<'_>
        ensures dir { result.dir.now ≡ self.now.handle }
        ensures name { result.name.now ≡ self.now.name.now }
    {
        DirName {
            dir: &self.handle,
            name: self.name,
        }
    }
}

impl<'a> Sender<'a> {
    /// The record of a call, without a mark, by AUTH_SYS with the stamp 0 and a machine without a name, and
    /// with the handles that the paths have in the tree. Calls of other numbers are no retransmissions of each other.
    /// `NoFile` where a path leads to none, `BadDigits` and `TooLong` as they say, and `Memory` where there is
    /// none; nothing is changed in any case.
    pub fn record(self, path: &[u8], request: Request<'_>) -> Result<Vec<u8>, CallFault>
        ensures text { IfOk result (λ bytes. record_in self.entry.tree.now (sent_by self.entry) path.now request.entry ≡ Some bytes.items) }
        ensures fault { IfErr result (IsRecordFault self.entry.tree.now (sent_by self.entry) path.now request.entry) }
    {
        let out = self.written(path, request)?;
        let mut bytes = Vec::new(self.alloc);
        bytes.extend_from_slice(out.bytes())?;
        Ok(bytes)
    }

    fn written(self, path: &[u8], request: Request<'_>) -> Result<Output, CallFault>
        ensures text { IfOk result (λ out. record_in self.entry.tree.now (sent_by self.entry) path.now request.entry ≡ Some out.bytes) }
        ensures fault { IfErr result (IsRecordFault self.entry.tree.now (sent_by self.entry) path.now request.entry) }
    {
        match request {
            Request::File(request) => self.file(path, request),
            Request::Name(request) => self.name(path, request),
            Request::Rename(to) => self.rename(path, to),
            Request::Link(name) => self.link(path, name),
            Request::Mount => self.volume(MountProcedure::Mount, path),
            Request::Unmount => self.volume(MountProcedure::Unmount, path),
        }
    }

    // Who calls.
    fn caller(self) -> Caller<'a>
        ensures { sent_of result ≡ sent_by self.entry }
    {
        Caller {
            alloc: self.alloc,
            xid: self.xid,
            cred: self.cred,
        }
    }

    // A call on a file.
    fn file(self, path: &[u8], request: FileRequest<'_>) -> Result<Output, CallFault>
        ensures text { IfOk result (λ out. file_record self.entry.tree.now (sent_by self.entry) path.now request.entry ≡ Some out.bytes) }
        ensures fault { IfErr result (IsFileFault self.entry.tree.now (sent_by self.entry) path.now request.entry) }
    {
        let file = self.handle_of(path)?;
        self.caller().file(&file, request)
    }

    // A call on a name.
    fn name(self, path: &[u8], request: NameRequest<'_>) -> Result<Output, CallFault>
        ensures text { IfOk result (λ out. name_record self.entry.tree.now (sent_by self.entry) path.now request.entry ≡ Some out.bytes) }
        ensures fault { IfErr result (IsNameFault self.entry.tree.now (sent_by self.entry) path.now request.entry) }
    {
        let named = self.named(path, Part::Path)?;
        self.caller().name(named.place(), request)
    }

    // A RENAME.
    fn rename(self, path: &[u8], to: &[u8]) -> Result<Output, CallFault>
        ensures text { IfOk result (λ out. rename_record self.entry.tree.now (sent_by self.entry) path.now to.now ≡ Some out.bytes) }
        ensures fault { IfErr result (IsRenameFault self.entry.tree.now (sent_by self.entry) path.now to.now) }
    {
        let from = self.named(path, Part::Path)?;
        let to = self.named(to, Part::AfterPath)?;
        self.caller().rename(from.place(), to.place())
    }

    // A LINK.
    fn link(self, path: &[u8], name: &[u8]) -> Result<Output, CallFault>
        ensures text { IfOk result (λ out. link_record self.entry.tree.now (sent_by self.entry) path.now name.now ≡ Some out.bytes) }
        ensures fault { IfErr result (IsLinkFault self.entry.tree.now (sent_by self.entry) path.now name.now) }
    {
        let file = self.handle_of(path)?;
        let to = self.named(name, Part::AfterPath)?;
        self.caller().link(&file, to.place())
    }

    // An MNT or a UMNT, of a path as it stands.
    fn volume(self, procedure: MountProcedure, path: &[u8]) -> Result<Output, CallFault>
        ensures text { IfOk result (λ out. mount_record (sent_by self.entry) procedure path.now ≡ out.bytes) }
        ensures fault { IfErr result (OnlyWithout (Some path.now) (is_long path.now)) }
    {
        self.caller().volume(procedure, path)
    }

    // The handle of the file that a path names.
    fn handle_of(self, path: &[u8]) -> Result<[u8; 24], CallFault>
        ensures handle { IfOk result (λ handle. handle_of_path self.entry.tree.now path.now ≡ Some handle) }
        ensures fault { IfErr result (OnlyWithout (handle_of_path self.entry.tree.now path.now) false) }
    {
        let Some(file) = find_file(self.tree, path) else {
            return Err(CallFault::NoFile(Part::Path));
        };
        match self.tree.handle_of(file.0) {
            Some(handle) => Ok(handle),
            None => Err(CallFault::NoFile(Part::Path)),
        }
    }

    // The directory that a path ends in, by its handle, and the name that it ends with.
    fn named<'b>(self, path: &'b [u8], part: Part) -> Result<Named<'b>, CallFault>
        ensures place { IfOk result (λ named. name_of_path self.entry.tree.now path.entry.now ≡ Some (named_seen named)) }
        ensures bound { IfOk result (λ named. length named.name.now ≤ 262144) }
        ensures fault { IfErr result (IsNamedFault self.entry.tree.now path.entry.now) }
    {
        let Some(place) = find_place(self.tree, path) else {
            return Err(CallFault::NoFile(part));
        };
        let Some(handle) = self.tree.handle_of(place.dir.0) else {
            return Err(CallFault::NoFile(part));
        };
        if place.name.len() > MAX_WORD_BYTES {
            return Err(CallFault::TooLong(part));
        }
        Ok(Named {
            handle,
            name: place.name,
        })
    }
}
