//! Graphs that are kept under Ids, with the dictionary of their terms. What everything that reads them rests on is said
//! once, by the types: `TablesView` knows that the tables are kept and that no two Ids have one term, and `GraphView`,
//! one graph of these tables, that its root is there and that the dictionary has its Ids (`specs/Read.antt`).
#![tactic(auto)]

mod graph;
mod look_up;
mod tables;

pub use graph::GraphView;
pub use look_up::{has, is_used};
pub use tables::TablesView;
