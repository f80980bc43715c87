//! The socket by which a running service is asked and stopped, and the client of it.
#![tactic(auto)]

mod answering;
pub mod asking;
pub mod attending;
mod clients;
mod denied;
pub mod figures;
mod file_paths;
mod http;
mod metrics;
pub mod metrics_socket;
mod mounts;
mod reloading;
mod resident;
mod sentences;
pub mod socket;
pub mod status;
mod unsaved;
mod visit;
mod visits;
pub mod watch;
pub mod words;
