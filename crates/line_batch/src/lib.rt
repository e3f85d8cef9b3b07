//! Lines that change a graph, as one batch: they are judged as they come, and all of them are carried out, or none.
#![tactic(auto)]

mod answer;
mod batch;
mod counts;
mod file_lines;
mod generated_lines;

pub use answer::Answer;
pub use batch::Batch;
pub use counts::Counts;
pub use file_lines::load;
pub use generated_lines::generate;
