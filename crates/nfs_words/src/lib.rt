//! Single items in words: numbers, names and handles, times and attributes, and statuses.
#![tactic(auto)]

pub mod attributes;
pub mod items;
pub mod status;
pub mod text;
