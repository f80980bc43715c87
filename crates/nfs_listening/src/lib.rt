//! What a service has of the system beside its clients: the sockets at which it listens, the entry of the portmapper
//! for them, and the files to which its lines go.
#![tactic(auto)]

pub mod addresses;
pub mod line_files;
pub mod listening;
pub mod registration;
