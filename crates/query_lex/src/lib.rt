//! The tokens of a query's text, one after the other.
#![tactic(auto)]

mod classes;
mod gap;
mod lexer;
mod state;
mod step;
mod token;

pub use lexer::Lexer;
pub use token::{LexFault, Token, TokenKind};
