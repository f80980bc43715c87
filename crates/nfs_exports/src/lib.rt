//! Who may reach which volume, and as whom (exports(5)).
#![tactic(auto)]

pub mod addr;
pub mod export_table;
pub mod limits;
pub mod options;
pub mod pattern;
pub mod setting;
pub mod settings;
pub mod squash;
