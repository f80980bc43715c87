//! Rows of text, each a question and the answer that is wanted of it.
#![tactic(auto)]

pub mod answers;
mod definitions;
pub mod sheet;
pub mod stutter;
pub mod stutter_link;
pub mod words;
