//! What it means that a call was denied.

use nfs_server::audit_line::DenialReason;
use nfs_server::rpc_rules::RpcRule;
use nfs_why::meaning::meaning;

/// What is so of a call that was denied for this reason.
pub(crate) fn sentence_of(reason: DenialReason) -> &'static str {
    match reason {
        DenialReason::Rpc(rule) => sentence_of_rpc(rule),
        DenialReason::Rule(rule, _) => meaning(rule),
        DenialReason::Memory => "the server had no memory for it",
    }
}

fn sentence_of_rpc(rule: RpcRule) -> &'static str {
    match rule {
        RpcRule::Version => "the call is not of version 2 of RPC",
        RpcRule::Program => "the program is neither NFS nor MOUNT",
        RpcRule::ProgramVersion => "only version 3 of the program is served",
        RpcRule::Procedure => "the program has no procedure of this number",
        RpcRule::Flavor => "the credential is neither of AUTH_NONE nor of AUTH_SYS",
        RpcRule::Credential => "the credential can't be read",
        RpcRule::WeakCredential => "a call of NFS needs a credential of AUTH_SYS",
        RpcRule::Arguments => "the arguments can't be read",
    }
}
