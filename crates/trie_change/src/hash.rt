//! Hashes of changed sets.
ghost use Rattle.std.specs.Prelude.{◌≡◌, bit_xor};
ghost use Rattle.trie_depth.specs.Tuples.{trip_tuple};
ghost use Rattle.trie_node.specs.Sets.{set_hash};
ghost use Rattle.trie_change.specs.Batches.{set_of_entries, IsOnce, pair_rest, trip_rest};

use crate::levels::toggled_all;
use trie_depth::{L1, L2, L3, Mix, Pair, Trip};
use trie_node::toggled;

/// The hash of a set of keys, changed by those behind the first.
pub fn toggled_keys<M: Mix>(hash: u64, run: &[Pair]) -> u64
    requires { IsOnce pair_rest run.now }
    ensures { result ≡ bit_xor hash (set_hash M.mixed 1 (set_of_entries pair_rest run.now)) }
{
    toggled_all!(L1, hash, run, pair => pair.1)
}

/// The hash of a set of pairs, changed by those behind the first key.
pub fn toggled_pairs<M: Mix>(hash: u64, run: &[Trip]) -> u64
    requires { IsOnce trip_rest run.now }
    ensures { result ≡ bit_xor hash (set_hash M.mixed 2 (set_of_entries trip_rest run.now)) }
{
    toggled_all!(L2, hash, run, triple => Pair(triple.1, triple.2))
}

/// The hash of a set of triples, changed by the batch.
pub fn toggled_triples<M: Mix>(hash: u64, batch: &[Trip]) -> u64
    requires { IsOnce trip_tuple batch.now }
    ensures { result ≡ bit_xor hash (set_hash M.mixed 3 (set_of_entries trip_tuple batch.now)) }
{
    toggled_all!(L3, hash, batch, triple => *triple)
}
