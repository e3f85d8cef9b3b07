//! Terms, lines of N-Triples, and the outside, on inputs whose answers were worked out by hand. This crate has tests alone.
#![tactic(auto)]

#[cfg(test)]
mod levels;
#[cfg(test)]
mod lines;
#[cfg(test)]
mod outside;
#[cfg(test)]
mod terminals;
