//! Terms and their Ids: a finite map from Ids to terms, one to one.
#![tactic(auto)]

mod dict;
mod joined;
mod places;
mod term_slot;
#[cfg(test)]
mod tests;
mod text_hash;

pub use dict::Dict;
