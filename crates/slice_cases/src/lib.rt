//! The eleven ways to slice a set of tuples at a mask of positions: which positions are taken, in which
//! order, and which are left. `specs/Cases.antt` says what each row of the table has to be. `fix_entry` tells
//! whether a tuple has a key at each position of a mask.
#![tactic(auto)]

mod cases;
mod fixed;
mod totals;

pub use cases::{CASES, Case, order};
pub use fixed::fix_entry;
pub use totals::facts;
