//! How a server begins, from a tree and the file of its journal, and what is asked of such a file.
#![tactic(auto)]

mod beginning;
mod difference;
mod exposure;
mod journal;
mod journal_file;
pub mod journal_work;
pub mod lending;
mod life_text;
mod recovering;
