//! The lines of files that are read by pieces: a file is never held whole.
#![tactic(auto)]

mod reader;

pub use reader::{FileFault, FileReader};
