//! MOUNT (RFC 1813, appendix I): who may mount which volume, and which clients did.
#![tactic(auto)]

pub mod examples;
pub mod exports;
pub mod laws;
pub mod limits;
pub mod mount;
pub mod mount_list;
pub mod outcome;
mod replies;
pub mod rules;
mod volumes;
