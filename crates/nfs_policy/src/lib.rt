//! What clients may change and read, whatever the rules are: laws about runs.
#![tactic(auto)]

pub mod handling;
pub mod laws;
