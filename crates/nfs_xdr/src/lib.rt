//! XDR items (RFC 4506) read from and written to lists of bytes, and byte devices.
#![tactic(auto)]

pub mod chunks;
pub mod device;
pub mod fault;
pub mod input;
pub mod laws;
pub mod link;
pub mod output;
