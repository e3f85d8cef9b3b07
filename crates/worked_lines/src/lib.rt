//! The dump and the shape of small graphs. This crate has tests alone.
#![tactic(auto)]

#[cfg(test)]
mod small_graphs;
