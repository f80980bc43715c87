//! Scripts of calls, run against a server of their own, and what is printed of them.
#![tactic(auto)]

mod captured;
mod connection;
pub mod fault;
mod heard;
mod hexadecimal;
mod line_bytes;
pub mod line_fault;
pub mod live;
pub mod printing;
pub mod queued_call;
pub mod replay;
mod results;
mod script;
mod sent;
pub mod shown;
