//! Triples that are marked, and then deleted together.
ghost use Rattle.std.specs.Prelude.{◌≡◌, ◌+◌, ◌*◌, ◌≤◌, ℕ, true, false, IsSome, IfSome, IfOk, OnOk, OnErr};
ghost use Rattle.std.specs.FinMap as map;
ghost use Rattle.std.specs.FinSet as set;
ghost use Rattle.rdf_term.specs.Seen.{lent_triple};
ghost use Rattle.hypertrie_model.specs.Changes.{IsChange};
ghost use Rattle.trie_depth.specs.Tuples.{trip_tuple};
ghost use Rattle.trie_context.specs.Roots.{root_set};
ghost use Rattle.trie_context.specs.RootShape.{OnlyRootHeld};
ghost use Rattle.trie_change.specs.Batches.{set_of_entries, IsOnce};
ghost use Rattle.trie_view.specs.Subs.{sub_depth, sub_set};
ghost use Rattle.graph_image.specs.Images.{is_among, IsUsed};
ghost use Rattle.graph_view.specs.Read.{set_in};
ghost use Rattle.graph_store.specs.Retained.{delete_retains};
ghost use Rattle.graph_store.specs.StoreState.{graph, most_triples, IsSettled};
ghost use Rattle.graph_store.specs.Staging.{marked_graph, MarksOne, AreMarked, numbers, AreDistinct};
ghost use Rattle.graph_store.specs.Forgotten.{Forgets};
ghost use Rattle.trie_change.specs.After.{without_batch};
ghost use Rattle.trie_change.specs.declared.change.Change.{Change};
ghost use Rattle.trie_update.specs.Changed.{IsAsBefore};
ghost use Rattle.trie_update.specs.Retained.{change_retains};

use crate::ids::ids_in;
use crate::look_up::{has, is_used};
use crate::store::{Changed, Store};
use crate::terms::ids_of;
use crate::trips::Trips;
use graph_view::GraphView;
use ntriples::TripleRef;
use std::alloc::Global;
use std::marker::Model;
use std::sync::ledger::Ledger;
use term_dict::Dict;
use trie_context::{Context, Root};
use trie_depth::{Id, Memory, Mix, Steps, Trip};
use trie_update::shrink;
use trie_view::Sub;

/// Triples of a graph that are to go.
#[derive(Drop)]
pub struct Taken {
    trips: Trips,
}

impl Model for Taken {
    ghost use Rattle.std.specs.Coded.{coded_list, coded_ℕ};
    ghost use Rattle.std.specs.FinSet as set;
    ghost use Rattle.hypertrie_model.specs.IdSets.{IdSet};

    ghost Value = { IdSet };

    ghost coded = { set.code (coded_list coded_ℕ) };

    ghost view = { λ t. t.trips };
}

impl Taken {
    pub fn new(alloc: Global) -> Taken
        ensures { result ≡ set.empty }
    {
        Taken {
            trips: Trips::new(alloc),
        }
    }
}

impl<M: Mix> Store<M> {
    /// Marks a triple, if the graph has it.
    pub fn mark(&self, taken: &mut Taken, triple: TripleRef<'_>) -> Result<(), Memory>
        ensures marked { OnOk result (MarksOne self.now taken.old taken.new (lent_triple triple.entry)) }
        ensures there { AreMarked self.now taken.old → AreMarked self.now taken.new }
        ensures refused { OnErr result (taken.new ≡ taken.old) }
    {
        let Some(trip) = ids_of(&self.dict, triple) else {
            return Ok(());
        };
        if has(self.view(), trip) {
            taken.trips.put(trip)?;
        }
        Ok(())
    }

    /// Takes the marked triples out, and the terms that no triple has any more. On `Memory` the store is as before.
    pub fn delete<W: Ledger, V: Ledger>(
        &mut self,
        alloc: Global,
        taken: Taken,
        interns: &mut Steps<W>,
        retains: &mut Steps<V>,
    ) -> Result<Changed, Memory>
        requires settled { IsSettled self.old }
        requires there { AreMarked self.old taken }
        ensures graph { OnOk result (graph self.new ≡ set.difference (graph self.old) (marked_graph self.old taken)) }
        ensures changed { IfOk result (λ change. change.changed ≡ set.len (marked_graph self.old taken)) }
        ensures now { IfOk result (λ change. change.now ≡ set.len (graph self.new)) }
        ensures settled { IsSettled self.new }
        ensures max { self.new.max ≡ self.old.max }
        ensures kept { OnErr result (self.new ≡ self.old) }
        ensures ticks { interns.new ≤ interns.old + (9 * set.len (marked_graph self.old taken) + 10) }
        ensures retained { retains.new ≤ retains.old + delete_retains self.old taken }
    {
        self.dict.is_one_to_one();
        let Taken { trips } = taken;
        let batch = trips.listed(alloc)?;
        let ids = ids_in(alloc, &batch)?;
        take_out(
            alloc,
            &mut self.ctx,
            &mut self.root,
            &batch,
            interns,
            retains,
        )?;
        let left = Sub::of(self.ctx.tables(), &self.root);
        forget(&mut self.dict, left, &ids);
        Ok(Changed {
            changed: batch.len() as u64,
            now: GraphView::of(&self.ctx, &self.root, &self.dict).len(),
        })
    }
}

/// Takes triples out of a graph. On `Memory` nothing has changed.
fn take_out<M: Mix, W: Ledger, V: Ledger>(
    alloc: Global,
    context: &mut Context<M>,
    root: &mut Root,
    batch: &[Trip],
    interns: &mut Steps<W>,
    retains: &mut Steps<V>,
) -> Result<(), Memory>
    requires only { OnlyRootHeld context.old root.old }
    requires once { IsOnce trip_tuple batch.now }
    requires there { IsChange false (root_set context.old root.old) (set_of_entries trip_tuple batch.now) }
    requires few { set.len (root_set context.old root.old) ≤ most_triples }
    ensures set { OnOk result (root_set context.new root.new ≡ without_batch context.old root.old batch.now) }
    ensures only { OnlyRootHeld context.new root.new }
    ensures kept { OnErr result (IsAsBefore context.old context.new root.old root.new) }
    ensures ticks { interns.new ≤ interns.old + (9 * set.len (set_of_entries trip_tuple batch.now) + 10) }
    ensures retained { retains.new ≤ retains.old + change_retains Change.Shrink context.old root.old batch.now }
{
    context.is_kept();
    shrink(alloc, context, root, batch, interns, retains)
}

/// Takes those of the Ids out that no triple that is left has.
fn forget(dict: &mut Dict, left: Option<Sub<'_>>, ids: &[Id])
    requires deep { IfSome left (λ s. sub_depth s ≡ 3) }
    requires there { (id : ℕ) → is_among (numbers ids.now) id ≡ true → IsSome (map.get dict.old id) }
    requires once { AreDistinct (numbers ids.now) }
    ensures { Forgets dict.old dict.new (numbers ids.now) (IsUsed (set_in sub_set left.entry)) }
{
    for id in ids {
        if !is_used(left, *id) {
            dict.remove(*id);
        }
    }
}
