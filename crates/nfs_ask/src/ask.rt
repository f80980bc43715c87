//! A call that is asked for in words.
ghost use Rattle.std.specs.Prelude.{◌≡◌, Some, IfOk, IfErr};
ghost use Rattle.nfs_ask.specs.Asks as asks;
ghost use Rattle.nfs_ask.specs.Asks.{AsksBy, IsWanted, passed_by, record_of, has_long_word, sent_request};
ghost use Rattle.nfs_ask.specs.Faults.{OnlyWithout};
ghost use Rattle.nfs_ask.specs.Words.{Takes, value_at};
ghost use Rattle.nfs_ask.specs.Words as spec;
ghost use Rattle.nfs_ask.specs.declared.fault.Wanted.TheVariants as wanted;
ghost use Rattle.nfs_rpc.specs.AuthSys.{credential_of};
ghost use Rattle.nfs_text.specs.Words.{words_left};

use crate::fault::{AskFault, Wanted, fault_of};
use crate::fields::Fields;
use crate::operation::Operation;
use crate::request::read_request;
use crate::user::user_of;
use nfs_client::name_request::NameRequest;
use nfs_client::request::Request;
use nfs_client::resolved_path::find_file;
use nfs_client::sender::Sender;
use nfs_inodes::tree::Tree;
use nfs_rpc::auth_sys::Cred;
use nfs_text::words::Words;
use std::alloc::Global;

/// Who asks for what of which path.
#[derive(Drop)]
pub struct Ask<'a> {
    /// The call's number, where the words give it.
    pub xid: Option<u32>,
    /// Who asks.
    pub cred: Cred,
    /// The path, from a volume's path on.
    pub path: &'a [u8],
    /// What is asked for.
    pub request: Request<'a>,
}

impl<'a> Ask<'a> {
    /// What these words ask for, `[xid=N] UID:GID[,GID..] OPERATION PATH ..`. The first word that isn't what
    /// is wanted there is the fault.
    pub fn read(words: Words<'a>) -> Result<Ask<'a>, AskFault>
        ensures asks { IfOk result (AsksBy (words_left words.entry)) }
        ensures fault { IfErr result (IsWanted (passed_by (words_left words.entry))) }
    {
        let mut fields = Fields::new(words);
        let xid = fields.xid()?;
        let cred = user(&mut fields)?;
        let word = fields.word(Wanted::Operation)?;
        let Some(operation) = Operation::of(word) else {
            return Err(fields.fault(Wanted::Operation));
        };
        let path = fields.word(Wanted::Path)?;
        let request = read_request(operation, &mut fields)?;
        fields.end()?;
        Ok(Ask {
            xid,
            cred,
            path,
            request,
        })
    }

    /// The record of the call, without a mark, by AUTH_SYS with the stamp 0 and a machine without a name, and with
    /// the handles that the paths have in this tree. Its number is the one that the words give, or else this one;
    /// calls of other numbers are no retransmissions of each other. Where a path names no file that the call is on,
    /// the record is that of a LOOKUP of its name. A fault where a path's directory is none, digits are none or a
    /// word is too long, and where there is no memory; nothing is changed in any case.
    pub fn record(&self, alloc: Global, tree: &Tree, xid: u32) -> Result<Vec<u8>, AskFault>
        ensures text { IfOk result (λ bytes. record_of tree.now self.now xid ≡ Some bytes.items) }
        ensures fault { IfErr result (OnlyWithout (record_of tree.now self.now xid) (has_long_word tree.now self.now)) }
    {
        let sender = Sender {
            alloc,
            tree,
            xid: self.xid.unwrap_or(xid),
            cred: &self.cred,
        };
        match sender.record(self.path, self.request_in(tree)) {
            Ok(record) => Ok(record),
            Err(fault) => Err(fault_of(fault, self.xid.is_some())),
        }
    }

    // What is sent over a tree: the LOOKUP of a name stands for what is asked of a file that isn't there.
    fn request_in(&self, tree: &Tree) -> Request<'a>
        ensures { result ≡ sent_request tree.now self.now }
    {
        if needs_file(self.request) && find_file(tree, self.path).is_none() {
            Request::Name(NameRequest::Lookup)
        } else {
            self.request
        }
    }
}

// Whether a request is one of the file that its path names.
fn needs_file(request: Request<'_>) -> bool
    ensures { result ≡ asks.needs_file request.entry }
{
    match request {
        Request::File(_) | Request::Link(_) => true,
        Request::Name(_) | Request::Rename(_) | Request::Mount | Request::Unmount => false,
    }
}

fn user(fields: &mut Fields<'_>) -> Result<Cred, AskFault>
    ensures { Takes credential_of fields.new result (value_at wanted.User spec.user_of fields.old) }
{
    let word = fields.word(Wanted::User)?;
    match user_of(word) {
        Some(cred) => Ok(cred),
        None => Err(fields.fault(Wanted::User)),
    }
}
