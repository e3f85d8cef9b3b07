//! The entries of a batch in the order of a position's keys.
ghost use Rattle.std.specs.Prelude.{◌≡◌, ◌<◌, IfOk, length};
ghost use Rattle.trie_depth.specs.Tuples.{pair_tuple, trip_tuple};
ghost use Rattle.trie_change.specs.Batches.{set_of_entries, AreInOrder, IsOnce, trip_rest, pair_in_front, trip_in_front};
ghost use Rattle.trie_change.specs.After.{triples_of, pairs_of};
ghost use Rattle.trie_change.specs.Named.{BeginsWith};

use crate::levels::by_key;
use std::alloc::Global;
use trie_depth::{Memory, Pair, Trip};

/// The triple with the key of a position first.
fn triple_in_front(triple: Trip, position: usize) -> Trip
    ensures { result ≡ trip_in_front position triple }
{
    match position {
        0 => triple,
        1 => Trip(triple.1, triple.0, triple.2),
        _ => Trip(triple.2, triple.0, triple.1),
    }
}

/// What is left of the triple behind its first key, with the key of a position first.
fn rest_in_front(triple: Trip, position: usize) -> Pair
    ensures { result ≡ pair_in_front position triple }
{
    match position {
        0 => Pair(triple.1, triple.2),
        _ => Pair(triple.2, triple.1),
    }
}

/// The triples with a position's keys first, in order.
pub fn triples_by_key(alloc: Global, batch: &[Trip], position: usize) -> Result<Vec<Trip>, Memory>
    requires position { position < 3 }
    requires once { IsOnce trip_tuple batch.now }
    ensures sorted { IfOk result (λ v. AreInOrder trip_tuple v.items) }
    ensures slices { IfOk result (λ v. BeginsWith (triples_of v.items) (triples_of batch.now) position) }
    ensures len { IfOk result (λ v. length v.items ≡ length batch.now) }
{
    by_key!(alloc, batch, position, triples, triple, triple_in_front)
}

/// What is left of the triples behind their first key, with a position's keys first, in order.
pub fn pairs_by_key(alloc: Global, run: &[Trip], position: usize) -> Result<Vec<Pair>, Memory>
    requires position { position < 2 }
    requires once { IsOnce trip_rest run.now }
    ensures sorted { IfOk result (λ v. AreInOrder pair_tuple v.items) }
    ensures slices { IfOk result (λ v. BeginsWith (pairs_of v.items) (set_of_entries trip_rest run.now) position) }
    ensures len { IfOk result (λ v. length v.items ≡ length run.now) }
{
    by_key!(alloc, run, position, pairs, triple, rest_in_front)
}
