//! The tree that the word TREE of the command line names, a description or directories on disk, and the life of its server.
#![tactic(auto)]

mod filling;
pub mod life;
pub mod named;
pub mod shared;
pub mod skipped;
