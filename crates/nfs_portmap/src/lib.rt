//! A client of the portmapper, which tells other machines at which port a program is served (RFC 1833, section 3).
#![tactic(auto)]

pub mod call;
pub mod fault;
pub mod portmapper;
pub mod reply;
