//! Rows, nodes and holds, and small graphs kept as tables, changed, read through views and joined. This crate has tests
//! alone.
#![tactic(auto)]

#[cfg(test)]
mod changes;
#[cfg(test)]
mod holds;
#[cfg(test)]
mod logs;
#[cfg(test)]
mod nodes;
#[cfg(test)]
mod reads;
#[cfg(test)]
mod retained;
#[cfg(test)]
mod rows;
#[cfg(test)]
mod views;
