//! A directory on disk as a volume: what stands in it, and the tree that has the same.
#![tactic(auto)]

pub mod building;
mod content;
pub mod fault;
pub mod found;
pub mod head;
pub mod needs;
mod queue;
pub mod survey;
mod tally;
pub mod warning;
