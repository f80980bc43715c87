//! The rules of RPC, which come before those of a procedure (RFC 5531, section 9).
ghost use Rattle.std.specs.Prelude.{◌≡◌, ◌≤◌, true, false, length};
ghost use Rattle.nfs_rpc.specs.Calls.{call_of};
ghost use Rattle.std.specs.List.{find};
ghost use Rattle.nfs_server.specs.Requests.{is_nfs, is_null};
ghost use Rattle.nfs_server.specs.RpcRules.{caller_rules, fails_rpc, rpc_name, rpc_status};
ghost use Rattle.nfs_server.specs.RpcAnswers.{Admits, Identifies};

use nfs_args::procedure::{MountProcedure, Procedure};
use nfs_args::program::{MOUNT_PROGRAM, NFS_PROGRAM, PROGRAM_VERSION};
use nfs_rpc::auth_sys::{Cred, read_auth_sys};
use nfs_rpc::call::{CallHead, RPC_VERSION};

/// A rule of RPC, in the order in which they are looked at.
#[derive(Clone, Copy, Debug, PartialEq, Eq)]
pub enum RpcRule {
    /// RPC has version 2.
    Version,
    /// The program is NFS or MOUNT.
    Program,
    /// Both programs have version 3.
    ProgramVersion,
    /// The program has this procedure.
    Procedure,
    /// The credential is of AUTH_NONE or AUTH_SYS.
    Flavor,
    /// A credential of AUTH_SYS can be read.
    Credential,
    /// A call of NFS has a credential of AUTH_SYS.
    WeakCredential,
    /// The arguments can be read.
    Arguments,
}

impl RpcRule {
    /// The name by which audit lines speak of the rule.
    pub fn name(self) -> &'static str
        ensures name { result.now ≡ rpc_name self }
        ensures short { length result.now ≤ 16 }
    {
        match self {
            RpcRule::Version => "version",
            RpcRule::Program => "program",
            RpcRule::ProgramVersion => "program-version",
            RpcRule::Procedure => "procedure",
            RpcRule::Flavor => "flavor",
            RpcRule::Credential => "credential",
            RpcRule::WeakCredential => "weak-credential",
            RpcRule::Arguments => "arguments",
        }
    }

    /// The name by which audit lines speak of the reply to a call that fails the rule.
    pub(crate) fn status_name(self) -> &'static str
        ensures name { result.now ≡ rpc_status self }
        ensures short { length result.now ≤ 16 }
    {
        match self {
            RpcRule::Version => "rpc-mismatch",
            RpcRule::Program => "prog-unavail",
            RpcRule::ProgramVersion => "prog-mismatch",
            RpcRule::Procedure => "proc-unavail",
            RpcRule::Flavor => "rejectedcred",
            RpcRule::Credential => "badcred",
            RpcRule::WeakCredential => "tooweak",
            RpcRule::Arguments => "garbage-args",
        }
    }
}

// The number of NULL in both programs (RFC 1813, section 3.3.0, and appendix I, section 5.2.0).
const NULL: u32 = 0;

/// What a call is for that keeps the first four rules of RPC.
#[derive(Clone, Copy)]
pub enum Admitted {
    /// Procedure 0 of a program, which does nothing.
    Null,
    /// Another procedure of NFS.
    Nfs(Procedure),
    /// Another procedure of MOUNT.
    Mount(MountProcedure),
}

/// The flavor of a credential that says nothing (RFC 5531, section 8.2).
pub const AUTH_NONE: u32 = 0;

/// The flavor of a credential with ids of a user and its groups (RFC 5531, section 8.2).
pub const AUTH_SYS: u32 = 1;

/// What a call is for, or the first of the rules version, program, program-version and procedure
/// that it fails.
#[inline(always)]
pub fn admit(head: &CallHead<'_>) -> Result<Admitted, RpcRule>
    ensures { Admits (call_of head.now) head.now.args result }
{
    if head.rpcvers != RPC_VERSION {
        return Err(RpcRule::Version);
    }
    if head.prog != NFS_PROGRAM && head.prog != MOUNT_PROGRAM {
        return Err(RpcRule::Program);
    }
    if head.vers != PROGRAM_VERSION {
        return Err(RpcRule::ProgramVersion);
    }
    if head.proc == NULL {
        return Ok(Admitted::Null);
    }
    if head.prog == NFS_PROGRAM {
        return match Procedure::of(head.proc) {
            Some(procedure) => Ok(Admitted::Nfs(procedure)),
            None => Err(RpcRule::Procedure),
        };
    }
    match MountProcedure::of(head.proc) {
        Some(procedure) => Ok(Admitted::Mount(procedure)),
        None => Err(RpcRule::Procedure),
    }
}

/// Reads who calls a procedure of NFS other than NULL, or answers the first of the rules flavor,
/// credential and weak-credential that the call fails; what is read then may be any.
#[inline(always)]
pub(crate) fn identify(head: &CallHead<'_>, cred: &mut Cred) -> Result<(), RpcRule>
    requires nfs { is_nfs (call_of head.now) ≡ true }
    requires null { is_null (call_of head.now) ≡ false }
    ensures { Identifies (call_of head.now) head.now.args cred.new result }
{
    if head.flavor != AUTH_NONE && head.flavor != AUTH_SYS {
        return Err(RpcRule::Flavor);
    }
    if head.flavor == AUTH_NONE {
        return Err(RpcRule::WeakCredential);
    }
    match cred.read(head.body) {
        Ok(()) => Ok(()),
        Err(_) => Err(RpcRule::Credential),
    }
}

/// The first of the rules flavor and credential that the call of a procedure of MOUNT other than NULL
/// fails. Who calls is not answered, since no procedure asks for it.
pub(crate) fn caller_failure(head: &CallHead<'_>) -> Option<RpcRule>
    requires mount { is_nfs (call_of head.now) ≡ false }
    requires null { is_null (call_of head.now) ≡ false }
    ensures { result ≡ find (fails_rpc (call_of head.now) head.now.args) caller_rules }
{
    if head.flavor == AUTH_NONE {
        return None;
    }
    if head.flavor != AUTH_SYS {
        return Some(RpcRule::Flavor);
    }
    match read_auth_sys(head.body) {
        Ok(_) => None,
        Err(_) => Some(RpcRule::Credential),
    }
}
