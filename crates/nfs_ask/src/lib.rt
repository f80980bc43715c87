//! Calls in words: what the words of an `ask` ask for; and how a script of calls can fail.
#![tactic(auto)]

pub mod ask;
pub mod fault;
mod fields;
pub mod operation;
mod request;
pub mod script_fault;
pub mod user;
