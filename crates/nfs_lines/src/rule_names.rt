//! Rules by their names.

use nfs_rules::rule::Rule;
use nfs_server::audit_line::DenialReason;
use nfs_server::rpc_rules::RpcRule;

// Every rule of a procedure.
const RULES: [Rule; 42] = [
    Rule::BadHandle,
    Rule::StaleHandle,
    Rule::Export,
    Rule::CrossVolume,
    Rule::ReadOnly,
    Rule::NotRegular,
    Rule::NotLink,
    Rule::NotDirectory,
    Rule::Guard,
    Rule::OwnerMode,
    Rule::OwnerUid,
    Rule::OwnerGid,
    Rule::SizeType,
    Rule::WriteRight,
    Rule::ReadRight,
    Rule::OwnerTime,
    Rule::TimeRight,
    Rule::TooBig,
    Rule::Space,
    Rule::Search,
    Rule::DirectoryRead,
    Rule::DirectoryWrite,
    Rule::Sticky,
    Rule::NameLong,
    Rule::NameForm,
    Rule::DotName,
    Rule::DotDot,
    Rule::PathLong,
    Rule::MountPath,
    Rule::NoEntry,
    Rule::Exists,
    Rule::IsDirectory,
    Rule::TargetNotDirectory,
    Rule::NotEmpty,
    Rule::Incompatible,
    Rule::IntoItself,
    Rule::LinkDirectory,
    Rule::Files,
    Rule::Links,
    Rule::Numbers,
    Rule::NoMknod,
    Rule::TooSmall,
];

// Every rule of RPC.
const RPC_RULES: [RpcRule; 8] = [
    RpcRule::Version,
    RpcRule::Program,
    RpcRule::ProgramVersion,
    RpcRule::Procedure,
    RpcRule::Flavor,
    RpcRule::Credential,
    RpcRule::WeakCredential,
    RpcRule::Arguments,
];

// What a line says where there is no memory.
const MEMORY: &str = "memory";

/// The name by which the line of a denied call gives its reason.
pub fn name_of(reason: DenialReason) -> &'static str {
    match reason {
        DenialReason::Rpc(rule) => rule.name(),
        DenialReason::Rule(rule, _) => rule.name(),
        DenialReason::Memory => MEMORY,
    }
}

/// Whether a name is one of those that commas separate.
pub fn is_named_in(name: &str, names: &str) -> bool {
    for other in names.split(',') {
        if other == name {
            return true;
        }
    }
    false
}

/// The first of some names, which commas separate, that is the name of no rule.
pub fn first_unknown(names: &str) -> Option<&str> {
    for name in names.split(',') {
        if !is_known(name) {
            return Some(name);
        }
    }
    None
}

fn is_known(name: &str) -> bool {
    name == MEMORY || is_rule(name) || is_rpc_rule(name)
}

fn is_rule(name: &str) -> bool {
    for rule in &RULES {
        if rule.name() == name {
            return true;
        }
    }
    false
}

fn is_rpc_rule(name: &str) -> bool {
    for rule in &RPC_RULES {
        if rule.name() == name {
            return true;
        }
    }
    false
}
