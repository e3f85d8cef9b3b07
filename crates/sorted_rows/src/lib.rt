//! Writes the answer of a query in the order of the bytes of its rows' texts. The texts are gathered and sorted first; once
//! that is done, no memory is taken.
#![tactic(auto)]

mod cut;
mod order;
mod texts;

pub use cut::{Cut, uncut};
pub use order::{put_sorted, sorted_texts};
