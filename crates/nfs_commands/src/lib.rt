//! The commands that ask something of a tree, run a script, or make a description or a directory.
#![tactic(auto)]

pub mod check;
pub mod describing;
pub mod exports;
pub mod extracting;
mod live;
pub mod replay;
mod totals;
pub mod why;
