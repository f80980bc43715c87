//! A service that gives its clients turns, over whatever network there is.
#![tactic(auto)]

pub mod addresses;
pub mod attendant;
mod call_rate;
mod ends;
mod housekeeping;
mod joins;
pub mod limits;
mod lines_reported;
pub mod member;
pub mod network;
mod refused_peers;
pub mod report;
mod rounds;
pub mod service;
pub mod serving_fault;
mod silence;
pub mod turn_times;
pub mod view;
mod watches;
