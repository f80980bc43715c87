//! That whatever clients do, the tree stays one that a description says: laws about runs.
#![tactic(auto)]

pub mod handling;
pub mod laws;
