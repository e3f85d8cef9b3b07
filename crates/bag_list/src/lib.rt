//! The rows of a basic graph pattern, listed one by one. One label is fixed after another, each at the keys that all
//! patterns with it have in common; no memory is taken after `make`. `bag_model` says which rows answer a query, and
//! which are still to come of a listing.
#![tactic(auto)]

mod join;
mod labels;
mod level;
mod lister;
mod operands;
mod search;
mod through;
mod track;

pub use lister::{Lister, whole_listings};
pub use track::Start;
