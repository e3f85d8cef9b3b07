//! Numbers under hashes, terms under Ids, and positions of slices. This crate has tests alone.
#![tactic(auto)]

#[cfg(test)]
mod cases;
#[cfg(test)]
mod numbers;
#[cfg(test)]
mod terms;
