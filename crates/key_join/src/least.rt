//! The least key that the triples of a list have at a mask.
ghost use Rattle.std.specs.Prelude.{◌≡◌, ◌<◌, ◌≤◌, ◌^◌, ℕ, IsNone, IfSome};
ghost use Rattle.trie_depth.specs.Masks.{FitsDepth, lowest};
ghost use Rattle.key_join.specs.Least as of;
ghost use Rattle.key_join.specs.Lists.{places_of, n_free, HasKey};

use crate::fixed::Fixed;
use trie_depth::{Id, Mask, Trip};

/// The least key from `from` on at the mask, of the triples that have what is fixed.
pub fn least(list: &[Trip], fixed: Fixed, mask: Mask, from: u64) -> Option<Id>
    requires fits { FitsDepth mask.0 (n_free (places_of fixed)) }
    ensures none { IsNone result → (k : ℕ) → from ≤ k → HasKey list.now fixed mask.0 k → ⊥ }
    ensures there { IfSome result (λ r. HasKey list.now fixed mask.0 r.0) }
    ensures from { IfSome result (λ r. from ≤ r.0) }
    ensures least { IfSome result (λ r. (k : ℕ) → from ≤ k → k < r.0 → HasKey list.now fixed mask.0 k → ⊥) }
{
    let mut best = None;
    for triple in list {
        best = lesser_from(from, fixed.key_of(mask, *triple), best);
    }
    best
}

/// The lesser of two keys, where the first isn't below `from`.
fn lesser_from(from: u64, found: Option<Id>, best: Option<Id>) -> Option<Id>
    ensures { result ≡ of.lesser_from from found best }
{
    match (found, best) {
        (Some(key), None) if from <= u64::from(key.0) => found,
        (Some(key), Some(other)) if from <= u64::from(key.0) && key.0 < other.0 => found,
        _ => best,
    }
}

/// The mask of the lowest position alone.
pub fn lowest_alone(mask: Mask) -> Mask
    ensures { result.0 ≡ 2 ^ lowest mask.0 }
{
    if mask.0 % 2 == 1 {
        Mask(1)
    } else if mask.0 / 2 % 2 == 1 {
        Mask(2)
    } else {
        Mask(4)
    }
}
