//! That the lines of a description are read back as what they were written for: laws over the
//! definitions alone.
#![tactic(auto)]

pub mod laws;
