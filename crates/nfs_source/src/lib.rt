//! The texts that words of the command line name, and the faults that end the program, with what
//! stands after their lines.
#![tactic(auto)]

pub mod description;
pub mod diagnostic;
pub mod fault;
pub mod heads;
pub mod journal_fault;
mod kept_lines;
mod open_line;
pub mod output;
pub mod sharing_fault;
pub mod source;
