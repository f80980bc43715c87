//! The content of a regular file: bytes, whole or in pages.
#![tactic(auto)]

mod blocks;
mod chunks;
pub mod content;
pub mod limits;
mod page;
mod page_table;
pub mod pages;
mod rows;
