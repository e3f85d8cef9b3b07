//! Scripts that read files in memory or make larger graphs, and what a watch is shown. This crate has tests alone.
#![tactic(auto)]

#[cfg(test)]
mod files;
#[cfg(test)]
mod harness;
#[cfg(test)]
mod large;
#[cfg(test)]
mod single;
#[cfg(test)]
mod watching;
