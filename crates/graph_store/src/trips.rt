//! An ordered set of triples of Ids.
ghost use Rattle.std.specs.Prelude.{◌≡◌, IfOk, OnOk, OnErr};
ghost use Rattle.std.specs.FinSet as set;
ghost use Rattle.hypertrie_model.specs.Sets.{has};
ghost use Rattle.trie_depth.specs.Tuples.{trip_tuple};
ghost use Rattle.trie_change.specs.Batches.{set_of_entries, IsOnce};

use std::alloc::Global;
use std::collections::BTreeSet;
use std::marker::Model;
use trie_depth::{Memory, Trip};

#[derive(Drop)]
pub struct Trips {
    trips: BTreeSet<Trip>,
}

impl Model for Trips {
    ghost use Rattle.std.specs.Coded.{coded_list, coded_ℕ};
    ghost use Rattle.std.specs.FinSet as set;
    ghost use Rattle.hypertrie_model.specs.IdSets.{IdSet};
    ghost use Rattle.trie_depth.specs.Tuples.{trip_tuple};
    ghost use Rattle.trie_change.specs.Batches.{set_of_entries};

    ghost Value = { IdSet };

    ghost coded = { set.code (coded_list coded_ℕ) };

    ghost view = { λ s. set_of_entries trip_tuple s.trips.keys };
}

impl Trips {
    pub(crate) fn new(alloc: Global) -> Trips
        ensures { result ≡ set.empty }
    {
        Trips {
            trips: BTreeSet::new(alloc),
        }
    }

    pub(crate) fn len(&self) -> usize
        ensures { result ≡ set.len self.now }
    {
        self.trips.len()
    }

    pub(crate) fn has(&self, trip: Trip) -> bool
        ensures { result ≡ has self.now (trip_tuple trip) }
    {
        self.trips.contains(&trip)
    }

    pub(crate) fn put(&mut self, trip: Trip) -> Result<(), Memory>
        ensures ok { OnOk result (self.new ≡ set.insert self.old (trip_tuple trip)) }
        ensures err { OnErr result (self.new ≡ self.old) }
    {
        self.trips.insert(trip)?;
        Ok(())
    }

    /// The triples in a list, each once.
    pub(crate) fn listed(self, alloc: Global) -> Result<Vec<Trip>, Memory>
        ensures set { IfOk result (λ v. set_of_entries trip_tuple v.items ≡ self) }
        ensures once { IfOk result (λ v. IsOnce trip_tuple v.items) }
    {
        let mut list = Vec::with_capacity(alloc, self.trips.len())?;
        for trip in self.trips {
            list.push(trip)?;
        }
        Ok(list)
    }
}
