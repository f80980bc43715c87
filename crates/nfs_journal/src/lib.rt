//! The journal of a server: its head, its entries, how it is kept in a file, and how a server becomes again
//! what it was by running its journal again.
#![tactic(auto)]

pub mod block;
pub mod blocks;
pub mod broken_entry;
pub mod entry;
mod fields;
pub mod file_journal;
pub mod head;
pub mod laws;
pub mod next_block;
pub mod recovering;
pub mod recovery;
pub mod scan;
pub mod sync_file;
