//! Replies in words: what the bytes of a reply say, item by item.
#![tactic(auto)]

mod directory;
mod granted;
mod limits;
mod mounting;
pub mod reply;
mod results;
