//! Carries out a script over a graph, from the bytes that come in to the bytes that go out.
#![tactic(auto)]

mod block;
mod dry;
mod laws;
mod outcome;
mod question;
mod running;
mod tools;

pub use dry::dry_run;
pub use laws::{law_of_complete_runs, law_of_sorted_calls};
pub use running::{Status, run};
