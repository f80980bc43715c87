//! Pages of directories: which entries READDIR and READDIRPLUS answer (RFC 1813, sections 3.3.16 and
//! 3.3.17), written one after another, without a list of them.
#![tactic(auto)]

pub mod answer;
pub mod examples;
pub mod laws;
pub mod limits;
mod listed;
pub mod open_page;
pub mod readdir;
pub mod readdirplus;
