//! The description of a tree with its exports, written as a text that loads.
#![tactic(auto)]

pub mod description;
mod export_line;
pub mod fault;
pub mod file_path;
mod files;
mod form;
pub mod lines;
mod numbers;
pub mod output;
mod times;
mod walk;
