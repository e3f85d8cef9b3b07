//! What a join reads: a finite set of tuples of ids, asked for its keys and slices where it lies.
//! `specs/Masks.antt` and `specs/Operands.antt` say what a mask names, and which keys a set admits at it.
ghost use Rattle.std.specs.Prelude.{◌≡◌, ◌↔◌, ◌+◌, ◌<◌, ◌≤◌, ℕ, List, All, IsTrue, true, IsNone, IfSome};
ghost use Rattle.std.specs.Ordering.{nat_cmp};
ghost use Rattle.std.specs.FinSet as set;
ghost use Rattle.hypertrie_model.specs.IdSets.{IdSet};
ghost use Rattle.hypertrie_model.specs.Sets.{has, empty, HasDepth};
ghost use Rattle.hypertrie_model.specs.Slices.{keys, slice_at_mask};
ghost use Rattle.trie_depth.specs.Masks.{FitsDepth, lowest, n_positions};
ghost use Rattle.trie_depth.specs.Operands.{Admits, IsIdTuple};

use crate::id::Id;
use crate::mask::Mask;
use crate::steps::Steps;
use std::sync::ledger::Ledger;

/// A finite set of tuples of one depth from 0 to 3, read in place.
pub trait Operand: Copy {
    ghost depth_of: { Self → ℕ };

    ghost tuples: { Self → IdSet };

    /// How often a call with a mask of one position ticks at most.
    ghost most: { Self → ℕ };

    fn depth(self) -> usize
        ensures { result ≡ depth_of self };

    /// The slice by the key at all positions of the mask.
    fn fix<W: Ledger>(self, mask: Mask, key: Id, reads: &mut Steps<W>) -> Option<Self>
        requires fits { FitsDepth mask.0 (depth_of self) }
        ensures none { IsNone result ↔ (slice_at_mask nat_cmp (tuples self) mask.0 key.0 ≡ empty nat_cmp) }
        ensures some { IfSome result (λ r. tuples r ≡ slice_at_mask nat_cmp (tuples self) mask.0 key.0) }
        ensures depth { IfSome result (λ r. depth_of r + n_positions mask.0 ≡ depth_of self) }
        ensures most { IfSome result (λ r. most r ≡ most self) }
        ensures ticks { reads.old + 1 ≤ reads.new }
        ensures few { n_positions mask.0 ≡ 1 → reads.new ≤ reads.old + most self };

    /// The number of distinct keys at the mask's lowest position.
    fn key_count<W: Ledger>(self, mask: Mask, reads: &mut Steps<W>) -> u64
        requires fits { FitsDepth mask.0 (depth_of self) }
        ensures count { result ≡ set.len (keys nat_cmp (tuples self) (lowest mask.0)) }
        ensures ticks { reads.old + 1 ≤ reads.new }
        ensures few { n_positions mask.0 ≡ 1 → reads.new ≤ reads.old + most self };

    /// The least key not below `from` for which `fix` isn't None.
    fn seek<W: Ledger>(self, mask: Mask, from: Id, reads: &mut Steps<W>) -> Option<Id>
        requires fits { FitsDepth mask.0 (depth_of self) }
        ensures none { IsNone result → (k : ℕ) → from.0 ≤ k → Admits (tuples self) mask.0 k → ⊥ }
        ensures there { IfSome result (λ r. Admits (tuples self) mask.0 r.0) }
        ensures from { IfSome result (λ r. from.0 ≤ r.0) }
        ensures least { IfSome result (λ r. (k : ℕ) → from.0 ≤ k → k < r.0 → Admits (tuples self) mask.0 k → ⊥) }
        ensures ticks { reads.old + 1 ≤ reads.new }
        ensures few { n_positions mask.0 ≡ 1 → reads.new ≤ reads.old + most self };

    ghost depth_high: { (o : Self) → depth_of o ≤ 3 };

    ghost deep: { (o : Self) → HasDepth (depth_of o) (tuples o) };

    ghost small: { (o : Self) (t : List ℕ) → has (tuples o) t ≡ true → IsIdTuple t };
}
