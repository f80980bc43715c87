//! What handles name from one life of a server to the next: laws about runs.
#![tactic(auto)]

pub mod laws;
