//! What a node became in its table.
use crate::held::Held;
use trie_depth::Level;
use trie_node::Node;

/// A hold on the row that is equal to a node.
pub enum Kept<L: Level> {
    /// The row was made of the node.
    Made(Held<L>),
    /// The row was there, and the node comes back with its edges.
    Found(Held<L>, Node),
}
