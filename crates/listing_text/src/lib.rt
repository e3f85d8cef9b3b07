//! Writes the answer of a query, row by row, as its listing gives the rows. No memory is taken.
#![tactic(auto)]

mod rows;

pub use rows::put_listing;
