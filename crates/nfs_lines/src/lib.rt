//! The lines that a server writes while it serves: of denied calls, and of connections that ended.
#![tactic(auto)]

pub mod denials;
pub mod denied_lines;
pub mod line_out;
pub mod line_queue;
pub mod lines;
pub mod names;
pub mod rule_names;
pub mod subject;
pub mod timestamp;
pub mod wording;
