//! Reads SELECT queries over a basic graph pattern (SPARQL 1.1, sections 4, 5, 15 and 19). What a text means is
//! `query_of` of `query_grammar`.
#![tactic(auto)]

mod block;
mod brackets;
mod column;
mod fault;
mod lexemes;
mod limit;
mod name;
mod outline;
mod pattern;
mod place;
mod prefixes;
mod reader;
mod role;
mod sound;
mod term;

pub use fault::ReadFault;
pub use reader::read;
