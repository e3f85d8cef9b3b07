//! The three levels: keys, pairs and triples.
ghost use Rattle.std.specs.Prelude.{[], ◌∷◌};

use crate::id::{Id, Pair, Trip};
use crate::level::Level;

/// The level of single keys.
pub struct L1;

/// The level of pairs.
pub struct L2;

/// The level of triples.
pub struct L3;

impl Level for L1 {
    type Entry = Id;

    type Less = ();

    ghost use Rattle.trie_depth.specs.Tuples as at;
    ghost use Rattle.trie_depth.specs.TupleLaws as law;

    const DEPTH: usize = 1;

    ghost DEPTH = { 1 };

    ghost tuple_of = { at.id_tuple };

    ghost less_tuple_of = { λ e. [] };

    ghost key_of = { λ e i. e };

    ghost without_of = { λ e i. tt };

    ghost with_of = { λ e i k. k };

    ghost key_with = { λ e i k h. refl };

    ghost without_with = { λ e i k h. refl };

    ghost with_without = { λ e i h. refl };

    ghost depth_low = { law.one_low };

    ghost depth_high = { law.one_high };

    ghost tuple_length = { λ e. refl };

    ghost tuple_key = { law.id_tuple_key };

    ghost tuple_without = { law.id_tuple_without };

    ghost tuple_with = { law.id_tuple_with };

    ghost tuple_names = { law.id_tuple_names };

    ghost use Rattle.std.specs.Prelude.{refl};

    fn key(e: Id, _pos: usize) -> Id {
        e
    }

    fn without(_e: Id, _pos: usize) {}

    fn with(_e: (), _pos: usize, key: Id) -> Id {
        key
    }
}

impl Level for L2 {
    type Entry = Pair;

    type Less = Id;

    ghost use Rattle.trie_depth.specs.Tuples as at;
    ghost use Rattle.trie_depth.specs.TupleLaws as law;

    const DEPTH: usize = 2;

    ghost DEPTH = { 2 };

    ghost tuple_of = { at.pair_tuple };

    ghost less_tuple_of = { at.id_tuple };

    ghost key_of = { at.pair_key };

    ghost without_of = { at.pair_without };

    ghost with_of = { at.pair_with };

    ghost key_with = { law.pair_key_with };

    ghost without_with = { law.pair_without_with };

    ghost with_without = { law.pair_with_without };

    ghost depth_low = { law.two_low };

    ghost depth_high = { law.two_high };

    ghost tuple_length = { λ e. refl };

    ghost tuple_key = { law.pair_tuple_key };

    ghost tuple_without = { law.pair_tuple_without };

    ghost tuple_with = { law.pair_tuple_with };

    ghost tuple_names = { law.pair_tuple_names };

    ghost use Rattle.std.specs.Prelude.{refl};

    fn key(e: Pair, pos: usize) -> Id {
        if pos == 0 { e.0 } else { e.1 }
    }

    fn without(e: Pair, pos: usize) -> Id {
        if pos == 0 { e.1 } else { e.0 }
    }

    fn with(e: Id, pos: usize, key: Id) -> Pair {
        if pos == 0 { Pair(key, e) } else { Pair(e, key) }
    }
}

impl Level for L3 {
    type Entry = Trip;

    type Less = Pair;

    ghost use Rattle.trie_depth.specs.Tuples as at;
    ghost use Rattle.trie_depth.specs.TupleLaws as law;

    const DEPTH: usize = 3;

    ghost DEPTH = { 3 };

    ghost tuple_of = { at.trip_tuple };

    ghost less_tuple_of = { at.pair_tuple };

    ghost key_of = { at.trip_key };

    ghost without_of = { at.trip_without };

    ghost with_of = { at.trip_with };

    ghost key_with = { law.trip_key_with };

    ghost without_with = { law.trip_without_with };

    ghost with_without = { law.trip_with_without };

    ghost depth_low = { law.three_low };

    ghost depth_high = { law.three_high };

    ghost tuple_length = { λ e. refl };

    ghost tuple_key = { law.trip_tuple_key };

    ghost tuple_without = { law.trip_tuple_without };

    ghost tuple_with = { law.trip_tuple_with };

    ghost tuple_names = { law.trip_tuple_names };

    ghost use Rattle.std.specs.Prelude.{refl};

    fn key(e: Trip, pos: usize) -> Id {
        match pos {
            0 => e.0,
            1 => e.1,
            _ => e.2,
        }
    }

    fn without(e: Trip, pos: usize) -> Pair {
        match pos {
            0 => Pair(e.1, e.2),
            1 => Pair(e.0, e.2),
            _ => Pair(e.0, e.1),
        }
    }

    fn with(e: Pair, pos: usize, key: Id) -> Trip {
        match pos {
            0 => Trip(key, e.0, e.1),
            1 => Trip(e.0, key, e.1),
            _ => Trip(e.0, e.1, key),
        }
    }
}
