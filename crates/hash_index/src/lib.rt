//! Numbers under 32-bit hashes, so that what has a hash is found by one look-up.
//!
//! Contracts see a finite map from each number to the hash under which it is listed, and nothing of buckets.
#![tactic(auto)]

mod bucket;
mod entry;
mod index;
mod place;
mod short;

pub use entry::Entry;
pub use index::HashIndex;
pub use short::short_hash;
