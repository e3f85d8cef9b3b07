//! A node of any depth.
ghost use Rattle.std.specs.Prelude.{◌≡◌, ◌<◌, option_map};
ghost use Rattle.trie_node.specs.Sets.{map_at, size_of, hash_of_node};

use edge_map::EdgeMap;
use trie_depth::{Id, Mix, Pair, Same};

/// One type serves all depths; the level stands in the calls that take a node. `Single` is a set of one
/// pair. In `Full` each map stands for one position, and a map past the depth is empty.
///
/// A node may be dropped as a value: what its edges hold is said by the calls that take nodes.
#[derive(Drop)]
pub enum Node {
    Single(Pair),
    Full {
        size: u64,
        hash: u64,
        first: EdgeMap,
        second: EdgeMap,
        third: EdgeMap,
    },
}

impl Node {
    /// The edges of a position; `Single` has none.
    pub fn map(&self, pos: usize) -> Option<&EdgeMap>
        requires { pos < 3 }
        ensures { option_map (λ m. m.now) result ≡ map_at self.now pos }
    {
        match self {
            Node::Single(_) => None,
            Node::Full {
                first,
                second,
                third,
                ..
            } => match pos {
                0 => Some(first),
                1 => Some(second),
                _ => Some(third),
            },
        }
    }

    /// How many tuples the node stands for.
    pub fn size(&self) -> u64
        ensures { result ≡ size_of self.now }
    {
        match self {
            Node::Single(_) => 1,
            Node::Full { size, .. } => *size,
        }
    }

    pub fn hash_of<M: Mix>(&self) -> u64
        ensures { result ≡ hash_of_node M.mixed self.now }
    {
        match self {
            Node::Single(pair) => M::mix(2, pair.0, pair.1, Id(0)),
            Node::Full { hash, .. } => *hash,
        }
    }
}

impl Same for Node {
    fn same(&self, other: &Node) -> bool {
        match (self, other) {
            (Node::Single(pair), Node::Single(other_pair)) => pair == other_pair,
            (
                Node::Full {
                    size,
                    hash,
                    first,
                    second,
                    third,
                },
                Node::Full {
                    size: other_size,
                    hash: other_hash,
                    first: other_first,
                    second: other_second,
                    third: other_third,
                },
            ) => {
                hash == other_hash
                    && size == other_size
                    && first.same(other_first)
                    && second.same(other_second)
                    && third.same(other_third)
            }
            _ => false,
        }
    }
}
