//! CRC-32C, a checksum of bytes.
#![tactic(auto)]

pub mod checksum;
pub mod laws;
mod tables;
