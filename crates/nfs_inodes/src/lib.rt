//! The tree of files: volumes, files by their numbers, and the entries that name them.
#![tactic(auto)]

pub mod ancestry;
pub mod attributes;
pub mod conditions;
pub mod content_reader;
mod copied;
pub mod directory;
pub mod examples;
pub mod given_attributes;
pub mod handles;
pub mod laws;
pub mod limits;
pub mod name;
pub mod new_file;
pub mod removal;
pub mod renaming;
mod stored_file;
mod stored_files;
mod stored_volume;
pub mod tree;
pub mod view;
pub mod volumes;
