//! What the tokens of a query stand for: the signs of its grammar, IRIs, strings, names and numbers (SPARQL 1.1, sections
//! 4.1, 19.7 and 19.8).
#![tactic(auto)]

mod characters;
mod escape;
mod lexeme;
mod meaning;
mod name;
mod sign;

pub use lexeme::Lexeme;
pub use meaning::{iri_text, string_text};
pub use name::{behind_one, behind_two, local_text, lowered, prefix_and_local};
pub use sign::Sign;
