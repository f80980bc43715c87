//! Descriptions of volumes, files and exports, and the listing of a tree.
#![tactic(auto)]

pub mod cause;
pub mod changes;
pub mod description;
pub mod field;
pub mod fields;
pub mod limit_fields;
pub mod limits;
pub mod line;
pub mod listing;
mod listing_line;
pub mod load_error;
pub mod loaded;
pub mod loading;
mod moment;
pub mod name_form;
pub mod path;
pub mod path_end;
pub mod refusal;
pub mod statement;
pub mod target;
