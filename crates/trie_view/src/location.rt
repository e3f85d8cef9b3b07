//! Where the tables of a graph keep a set of tuples, and the keys of such a set at one position.
use edge_map::EdgeMap;
use trie_depth::{Id, Pair, Trip};
use trie_node::Node;

/// A single tuple, or the node or the map that the tables keep for two or more. `There` is the one tuple of no key.
#[derive(Clone, Copy)]
pub enum Location<'a> {
    Triple(Trip),
    Triples(&'a Node),
    Pair(Pair),
    Pairs(&'a Node),
    Key(Id),
    Keys(&'a EdgeMap),
    There,
}

/// The keys at a position: the one of a single tuple, or those of a map.
#[derive(Clone, Copy)]
pub enum KeysAt<'a> {
    One(Id),
    Of(&'a EdgeMap),
}
