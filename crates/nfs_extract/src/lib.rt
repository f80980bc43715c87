//! A tree, written as a directory on disk.
#![tactic(auto)]

mod attributes;
pub mod extract;
mod fault;
mod skipped;
