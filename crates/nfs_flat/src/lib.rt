//! For tests: the content of a regular file in one vector.
#![tactic(auto)]

pub mod flat;
#[cfg(test)]
mod refused;
