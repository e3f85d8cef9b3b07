//! Runs of entries with one first key.
ghost use Rattle.std.specs.Prelude.{◌≡◌, ◌≢◌, ◌<◌, ◌≤◌, length, slice_index_or};
ghost use Rattle.std.specs.List.{All};
ghost use Rattle.std.proofs.Common.{take};
ghost use Rattle.trie_depth.specs.declared.id.Pair.{Pair};
ghost use Rattle.trie_depth.specs.declared.id.Trip.{Trip};

use crate::levels::run_length;
use trie_depth::{Id, Pair, Trip};

/// How many pairs at the front have the key first.
pub fn pair_run(pairs: &[Pair], key: Id) -> usize
    ensures bound { result ≤ length pairs.now }
    ensures run { All (λ p. p.0.0 ≡ key.0) (take result pairs.now) }
    ensures end { (p : Pair) → result < length pairs.now → (slice_index_or pairs.now result p).0.0 ≢ key.0 }
{
    run_length!(pairs, key)
}

/// How many triples at the front have the key first.
pub fn triple_run(triples: &[Trip], key: Id) -> usize
    ensures bound { result ≤ length triples.now }
    ensures run { All (λ t. t.0.0 ≡ key.0) (take result triples.now) }
    ensures end { (t : Trip) → result < length triples.now → (slice_index_or triples.now result t).0.0 ≢ key.0 }
{
    run_length!(triples, key)
}
