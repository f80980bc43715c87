//! The parts of a text: chunks, words, lines and numbers, lent from the text; and lines that are put
//! together.
#![tactic(auto)]

pub mod chunks;
pub mod line;
pub mod lines;
pub mod number;
pub mod words;
