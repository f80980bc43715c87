//! File attributes of NFS version 3 (RFC 1813), read from and written to lists of bytes.
#![tactic(auto)]

pub mod fattr;
pub mod file_type;
pub mod laws;
pub mod moment;
pub mod pre_attr;
pub mod sattr;
pub mod time_setting;
pub mod wcc;
