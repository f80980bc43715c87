//! The client's side of a call: what is asked of a file or a name, and the record that says so.
#![tactic(auto)]

mod call_header;
pub mod caller;
mod credential;
pub mod fault;
pub mod file_request;
pub mod laws;
pub mod name_request;
pub mod request;
pub mod resolved_path;
pub mod sender;
