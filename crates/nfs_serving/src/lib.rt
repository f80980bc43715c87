//! Clients of a server, each on a link that never waits, served in turns.
#![tactic(auto)]

pub mod buffer;
pub mod channel;
pub mod client;
pub mod laws;
pub mod receive_size;
pub mod traffic;
pub mod turn;
pub mod turn_buffers;
