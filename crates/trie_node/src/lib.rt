//! Nodes of the hypertrie: a single pair, or a map of edges for each position, with the size and the
//! hash of the set that the node stands for. `specs/Sets.antt` says which set that is, over the sets of
//! the rows below, and `specs/Forms.antt` in which form each depth keeps it.
#![tactic(auto)]

mod hash;
mod node;

pub use hash::toggled;
pub use node::Node;
