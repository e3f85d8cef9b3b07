//! Slices of a graph's tables, read in place: a slice is a place in the tables, and fixing a key is a walk along edges.
//! `specs/Places.antt` says which set a place stands for and what is known of it.
#![tactic(auto)]

mod location;
mod operand;
mod sub;

pub use sub::Sub;
