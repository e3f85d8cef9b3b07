//! Scripts that mean harm or whose answers nobody reads, files of which a read fails, and a graph that loses its half.
//! This crate has tests alone.
#![tactic(auto)]

#[cfg(test)]
mod dry;
#[cfg(test)]
mod files;
#[cfg(test)]
mod halves;
#[cfg(test)]
mod hostile;
#[cfg(test)]
mod tables;
