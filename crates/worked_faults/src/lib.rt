//! Scripts of which a read or a write fails, and scripts that are cut off. This crate has tests alone.
#![tactic(auto)]

#[cfg(test)]
mod cuts;
#[cfg(test)]
mod reads;
#[cfg(test)]
mod tables;
#[cfg(test)]
mod writes;
