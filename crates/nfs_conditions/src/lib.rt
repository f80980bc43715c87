//! What may be done to a tree, over what anybody reads of it: tests for the conditions of operations, by
//! which tests and measures choose what they do. The product judges its calls by nfs_rules.
#![tactic(auto)]

mod attributes;
pub mod bytes;
pub mod entries;
pub mod moves;
