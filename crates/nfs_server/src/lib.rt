//! Calls from record bytes to reply bytes: the steps of a server, its runs, and its connections.
#![tactic(auto)]

pub mod arguments;
pub mod audit_line;
pub mod audit_out;
pub mod call_counts;
pub mod connection;
pub mod entry;
pub mod event;
pub mod journal_out;
pub mod laws;
pub mod moments;
mod mount;
mod nfs_call;
pub mod notes;
mod reply;
pub mod reply_buf;
pub mod reply_out;
pub mod rpc_rules;
pub mod serve_fault;
pub mod server;
pub mod session_fault;
pub mod sessions;
pub mod settle_fault;
pub mod stream;
pub mod taking;
