//! Maps of edges made, read and taken apart again. This crate has tests alone.
#![tactic(auto)]

#[cfg(test)]
mod maps;
