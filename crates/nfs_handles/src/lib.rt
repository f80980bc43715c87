//! Numbered files, and the handles that name them (RFC 1813, section 2.6).
#![tactic(auto)]

pub mod fault;
pub mod files;
pub mod laws;
pub mod number;
pub mod number_slot;
pub mod number_slots;
pub mod reading;
pub mod room;
pub mod slots;
