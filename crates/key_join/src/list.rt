//! An operand over a plain list of triples, for tests of what stands on operands. It reads the whole
//! list at each call.
ghost use Rattle.std.specs.Prelude.{◌≡◌, All};
ghost use Rattle.key_join.specs.Lists.{IsIdTriple, triples};

use crate::fixed::Fixed;
use crate::least::{least, lowest_alone};
use std::sync::ledger::Ledger;
use trie_depth::{Id, Mask, Operand, Steps, Trip};

/// The triples of a list that have the ids fixed so far, without those.
#[derive(Clone, Copy)]
pub struct ListOp<'a> {
    list: &'a [Trip],
    fixed: Fixed,
    ghost known: { ∥ All IsIdTriple list.now ∥₁ },
}

impl<'a> ListOp<'a> {
    ghost use Rattle.std.specs.FinSet as set;

    /// The set of the list's triples.
    pub fn of(list: &'a [Trip]) -> ListOp<'a>
        ensures depth { ⟦<ListOp<'a> as Operand>⟧.depth_of result ≡ 3 }
        ensures tuples { ⟦<ListOp<'a> as Operand>⟧.tuples result ≡ set.from_list (triples list.now) }
        ensures most { ⟦<ListOp<'a> as Operand>⟧.most result ≡ 1 }
    {
        // Proofs know of an id that it is a number of 32 bits once it is read.
        for triple in list {
            id_triple(*triple);
        }
        ListOp {
            list,
            fixed: Fixed(None, None, None),
        }
    }
}

impl<'a> Operand for ListOp<'a> {
    ghost use Rattle.key_join.specs.Lists.{places_of, n_free, set_of, triples};
    ghost use Rattle.key_join.specs.ListLaws.{n_free-high, set_of-deep, set_of-small};

    ghost depth_of = { λ o. n_free (places_of o.fixed) };

    ghost tuples = { λ o. set_of (triples o.list.now) (places_of o.fixed) };

    ghost most = { λ o. 1 };

    fn depth(self) -> usize {
        self.fixed.n_free()
    }

    fn fix<W: Ledger>(self, mask: Mask, key: Id, reads: &mut Steps<W>) -> Option<Self> {
        reads.tick();
        let nearest = least(self.list, self.fixed, mask, u64::from(key.0))?;
        if nearest.0 != key.0 {
            return None;
        }
        Some(ListOp {
            list: self.list,
            fixed: self.fixed.with(mask, key),
        })
    }

    fn key_count<W: Ledger>(self, mask: Mask, reads: &mut Steps<W>) -> u64 {
        reads.tick();
        let position = lowest_alone(mask);
        let mut count = 0;
        let mut from = 0;
        while let Some(key) = least(self.list, self.fixed, position, from) {
            count += 1;
            from = u64::from(key.0) + 1;
        }
        count
    }

    fn seek<W: Ledger>(self, mask: Mask, from: Id, reads: &mut Steps<W>) -> Option<Id> {
        reads.tick();
        least(self.list, self.fixed, mask, u64::from(from.0))
    }

    ghost depth_high = { λ o. n_free-high o.fixed };

    ghost deep = { λ o. set_of-deep o.list.now o.fixed };

    ghost small = { λ o. set_of-small o.list.now o.fixed o.known };
}

/// The ids of a triple are numbers of 32 bits.
fn id_triple(triple: Trip)
    ensures { IsIdTriple triple }
{}
