//! That the description of a tree loads, and is that tree again: a law over the definitions alone.
#![tactic(auto)]

pub mod laws;
