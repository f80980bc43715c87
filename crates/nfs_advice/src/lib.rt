//! What stands after a faulty line of a description or a script: where it is faulty, and what would be
//! right; and what a description in order says that its writer may not have meant.
#![tactic(auto)]

pub mod advice;
pub mod bytes;
pub mod contents;
pub mod counts;
pub mod description;
pub mod earlier;
pub mod every;
pub mod field;
mod grouped;
pub mod keys;
pub mod keywords;
pub mod limit_fields;
pub mod limits;
mod line_kind;
pub mod name_forms;
pub mod nearest;
pub mod numbers;
pub mod options;
pub mod order;
pub mod paths;
pub mod patterns;
pub mod script;
pub mod skipped;
pub mod span;
pub mod warnings;
