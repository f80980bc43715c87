//! The rules of the procedures: which call is granted, and the rule that denies another.
#![tactic(auto)]

pub mod caller;
pub mod entry_rules;
pub mod exported_file;
pub mod exported_pair;
pub mod file_rules;
pub mod limit_rules;
pub mod move_rules;
pub mod name_rules;
pub mod order;
pub mod page_rules;
pub mod rights;
pub mod rule;
pub mod setting_rules;
pub mod subject;
pub mod table;
pub mod verdict;
