//! What a change did to the tables, step by step, so that it can be taken back without memory, or settled.
//!
//! A change hands its holds on: rows that it replaces keep theirs in the log. `specs/Log.antt` says what each step did
//! and what it keeps, and `specs/Logged.antt` what the tables have when some steps are done.
#![tactic(auto)]

mod log;
mod settle;
mod step;
mod undo;

pub use log::Log;
pub use step::{RowStep, Step};
