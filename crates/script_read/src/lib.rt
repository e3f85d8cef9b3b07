//! Reads a script: its lines, and what each of them commands.
#![tactic(auto)]

mod blanks;
mod form;
mod reading;
mod script;
#[cfg(test)]
mod tests;
mod words;

pub use form::Command;
pub use reading::{command, skipped};
pub use script::{Script, ScriptFault};
