//! A batch of triples put into a graph, or taken out of it. A change goes down by the depth: that of the graph makes
//! those of its slices by one key, and these make those of their key sets. Each changed node is copied, changed and
//! stored once; what is not changed is shared.
//!
//! `specs/Batches.antt` says which sets batches are, and `specs/Changes.antt` what a change makes of a set.
#![tactic(auto)]

mod batch;
mod change;
mod graph;
mod hand;
mod hash;
mod keys;
mod levels;
mod pair_map;
mod pairs;
mod runs;
mod triple_map;
mod triples;

pub use batch::{pairs_by_key, triples_by_key};
pub use change::{Change, changed_size};
pub use graph::change_graph;
pub use hash::{toggled_pairs, toggled_triples};
pub use keys::change_keys;
pub use pairs::{change_pairs, pair_edges, pair_figures, pair_node};
pub use runs::{pair_run, triple_run};
pub use triples::{triple_edges, triple_figures};
