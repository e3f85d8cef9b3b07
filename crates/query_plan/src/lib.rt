//! The form of a query: columns, triple patterns over numbered labels and terms, and the modifiers of its rows (SPARQL 1.1,
//! sections 5, 15 and 18.2.1); and how the label is chosen that is fixed next.
#![tactic(auto)]

mod choice;
mod columns;
mod patterns;
mod query;

pub use choice::choose;
pub use columns::{Column, Columns};
pub use patterns::{Pattern, Patterns, Place};
pub use query::Query;
