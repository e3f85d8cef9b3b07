//! Parts of a change that opens rows in place, each logged: a key set replaced, a map of edges to key sets changed, a row
//! of pairs or of triples taken out, stored again, or replaced by a copy. Holds are handed on: what is replaced keeps
//! its own in the log, so that nothing that another holds is copied or given up.
#![tactic(auto)]

mod graph;
mod keys;
mod pair_map;
mod pairs;
mod reopened;
mod triple_map;
mod triples;

pub use graph::reopen_triples;
