//! The entries of a directory: by rising cookie, and by name.
#![tactic(auto)]

pub mod directory_entries;
pub mod entry_data;
pub mod entry_name;
