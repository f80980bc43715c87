//! A server over TCP: many clients at once, on one thread.
#![tactic(auto)]

pub mod clock;
pub mod keys;
pub mod line_file;
pub mod network;
pub mod self_call;
pub mod service_fault;
pub mod socket;
mod unwaiting;
