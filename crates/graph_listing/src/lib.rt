//! The answers of a query over a graph that is kept under Ids, listed row by row. A query's constants are found in the
//! dictionary and fixed first; what is left of its patterns is joined by `bag_list`, and each value of a row is read back.
//! Contracts see a listing as the rows of terms that it may still give (`Listings` of `bag_model`), and `solution_model`
//! says which rows answer a query.
#![tactic(auto)]

mod listing;
mod starts;

pub use listing::{Listing, whole_listings};
