//! One thing that a change did to a table.
use edge_map::Edge;
use trie_context::Place;
use trie_depth::{L1, L2, L3, Level};
use trie_node::Node;

/// What was done to a row of the level's table.
pub enum RowStep<L: Level> {
    /// It was taken out, and its edges were handed to the change.
    Opened(Place<L>, Node),
    /// It was made of a changed node.
    Made(usize),
    /// It was found to have a changed node, which is here with its edges.
    Found(usize, Node),
    /// An edge to a row was handed over, and that in its place is kept here.
    Replaced(Option<Edge>, Option<Edge>),
}

/// What was done to a row of one of the tables.
pub enum Step {
    Keys(RowStep<L1>),
    Pairs(RowStep<L2>),
    Triples(RowStep<L3>),
}
