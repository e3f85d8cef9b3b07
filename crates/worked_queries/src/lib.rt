//! The tokens of queries, queries and plans, and the texts of words and answers. This crate has tests alone.
#![tactic(auto)]

#[cfg(test)]
mod answers;
#[cfg(test)]
mod plans;
#[cfg(test)]
mod readings;
#[cfg(test)]
mod settings;
#[cfg(test)]
mod tokens;
