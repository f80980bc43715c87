//! How the tree of a server is saved to a file, under which key, and where and when.
#![tactic(auto)]

pub mod copies;
pub mod digested;
pub mod key;
pub mod saved_file;
pub mod saving;
