//! Tests of what no row of text can show: each growth refused in turn, and devices that fail.
#![tactic(auto)]

#[cfg(test)]
mod calls;
#[cfg(test)]
mod described;
#[cfg(test)]
mod devices;
#[cfg(test)]
mod journals;
#[cfg(test)]
mod makers;
#[cfg(test)]
mod mounts;
#[cfg(test)]
mod readers;
#[cfg(test)]
mod serving;
#[cfg(test)]
mod streams;
#[cfg(test)]
mod tree;

/// More rounds than there are blocks of ballast.
#[cfg(test)]
const ROUNDS: u32 = 200_000;
