//! Lists of patterns of triples: their common keys and the rows that they have. This crate has tests alone.
#![tactic(auto)]

#[cfg(test)]
mod common_keys;
#[cfg(test)]
mod distinct_rows;
#[cfg(test)]
mod listed_rows;
