//! ONC RPC version 2 (RFC 5531): the records of a stream, call heads and reply heads.
#![tactic(auto)]

pub mod auth_sys;
pub mod call;
pub mod framer;
pub mod laws;
pub mod record;
pub mod reply;
