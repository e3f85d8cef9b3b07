//! Scripts with their answers, run over sources and sinks in memory. This crate has tests alone.
#![tactic(auto)]

#[cfg(test)]
mod cases;
#[cfg(test)]
mod harness;
#[cfg(test)]
mod queries;
#[cfg(test)]
mod shapes;
#[cfg(test)]
mod words;
