//! A slice of a graph as what a join reads.
use crate::sub::{Sub, lowest_of};
use std::sync::ledger::Ledger;
use trie_depth::{Id, Mask, Operand, Steps};

impl<'a> Operand for Sub<'a> {
    ghost use Rattle.trie_view.specs.Subs.{sub_depth, sub_set};
    ghost use Rattle.trie_view.specs.PlaceLaws as law;

    ghost depth_of = { sub_depth };

    ghost tuples = { sub_set };

    ghost most = { λ o. 2 };

    ghost depth_high = { λ o. law.depth_high o.place };

    ghost deep = { λ o. law.known_deep o.tables.now o.place o.known };

    ghost small = { λ o. law.known_ids o.tables.now o.place o.known };

    fn depth(self) -> usize {
        self.n_left()
    }

    fn fix<W: Ledger>(self, mask: Mask, key: Id, reads: &mut Steps<W>) -> Option<Self> {
        self.fixed(mask, key, reads)
    }

    fn key_count<W: Ledger>(self, mask: Mask, reads: &mut Steps<W>) -> u64 {
        self.count_at(lowest_of(mask), reads)
    }

    fn seek<W: Ledger>(self, mask: Mask, from: Id, reads: &mut Steps<W>) -> Option<Id> {
        self.next_fixed(mask, from, reads)
    }
}
