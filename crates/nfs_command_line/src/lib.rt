//! The words of the command line.
#![tactic(auto)]

mod arguments;
pub mod invocation;
pub mod journal;
mod questions;
mod rows;
mod runs;
pub mod serve;
pub mod sharing;
mod span;
pub mod trees;
mod usage;
mod values;
pub mod words;
