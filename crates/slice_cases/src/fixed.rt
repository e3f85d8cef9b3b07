//! Whether an entry belongs to a slice.
ghost use Rattle.std.specs.Prelude.{◌≡◌, ◌↔◌, ◌≤◌, IsTrue, true, length, map};
ghost use Rattle.std.specs.Ordering.{nat_cmp};
ghost use Rattle.trie_depth.specs.Masks.{FitsDepth};
ghost use Rattle.hypertrie_model.specs.Slices.{is_at_mask};

use trie_depth::Id;

// For each case, whether the entry has the key at the positions taken.
macro_rules! each_case {
    ($entry:ident, $key:ident, $($depth:literal $mask:literal [$($position:literal),+]),+) => {
        match (D, MASK) {
            $(($depth, $mask) => $($entry[$position] == $key)&&+,)+
            _ => unreachable!(),
        }
    };
}

/// Whether the entry has the key at each position of the mask.
pub fn fix_entry<const D: usize, const MASK: u8>(e: &[Id], key: Id) -> bool
    requires low { 1 ≤ D }
    requires high { D ≤ 3 }
    requires full { length e.now ≡ D }
    requires fits { FitsDepth MASK D }
    ensures { IsTrue result ↔ (is_at_mask nat_cmp MASK key.0 (map (λ i. i.0) e.now) ≡ true) }
{
    each_case!(
        e, key,
        1 1 [0],
        2 1 [0],
        2 2 [1],
        2 3 [1, 0],
        3 1 [0],
        3 2 [1],
        3 4 [2],
        3 3 [1, 0],
        3 5 [2, 0],
        3 6 [2, 1],
        3 7 [2, 1, 0]
    )
}
