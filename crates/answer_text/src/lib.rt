//! The texts of answers (docs/SCRIPT.md): the lines of refusals and of what was done. Each call puts its text exactly, or a
//! front of it where the sink fails.
#![tactic(auto)]

mod pieces;
mod reply;
mod row;

pub use pieces::put_lines;
pub use reply::{Figures, Refusal, Reply, ok, put_figures, refused};
pub use row::{end_row, field, header};
