//! Graphs that are filled, read and listed. This crate has tests alone.
#![tactic(auto)]

#[cfg(test)]
mod listings;
#[cfg(test)]
mod stores;
