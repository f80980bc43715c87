//! The lives of one server, one after another: the key that its handles have, and with which
//! numbers a life begins.
#![tactic(auto)]

pub mod laws;
pub mod opening;
pub mod path_digest;
pub mod path_row;
