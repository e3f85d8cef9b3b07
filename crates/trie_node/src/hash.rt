//! The hash of a set of tuples, one entry at a time.
ghost use Rattle.std.specs.Prelude.{◌≡◌, bit_xor};
ghost use Rattle.trie_node.specs.Sets.{tuple_mix};

use trie_depth::{Id, Level, Mix};

/// The key at a position of the level, and id 0 past its depth.
macro_rules! key_or_zero {
    ($level:ty, $entry:expr, $pos:expr) => {
        if $pos < <$level>::DEPTH {
            <$level>::key($entry, $pos)
        } else {
            Id(0)
        }
    };
}

/// The hash after the entry was put in or taken out: their exclusive or.
pub fn toggled<M: Mix, L: Level>(hash: u64, e: L::Entry) -> u64
    ensures { result ≡ bit_xor hash (tuple_mix M.mixed L.DEPTH (L.tuple_of e)) }
{
    let first = key_or_zero!(L, e, 0);
    let second = key_or_zero!(L, e, 1);
    let third = key_or_zero!(L, e, 2);
    hash ^ M::mix(L::DEPTH as u8, first, second, third)
}
