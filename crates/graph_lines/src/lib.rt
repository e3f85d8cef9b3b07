//! The lines of a graph that is kept under Ids: the triples of its dump, and the rows of its shape. The terms are read
//! through the dictionary where they lie, and each list of lines is sorted by its bytes.
#![tactic(auto)]

mod dumping;
mod members;
mod row_lines;
mod shape;
mod sorted;
mod style;
mod triple_lines;

pub use dumping::dump;
pub use shape::shape_lines;
