//! Triples that are staged, and then put in together or abandoned.
ghost use Rattle.std.specs.Prelude.{◌≡◌, ◌↔◌, ◌+◌, ◌*◌, ◌<◌, ◌≤◌, ◌||◌, true, IfOk, OnOk, OnErr, IsErrOf};
ghost use Rattle.std.specs.FinSet as set;
ghost use Rattle.rdf_term.specs.Seen.{lent_triple};
ghost use Rattle.hypertrie_model.specs.Changes.{IsChange};
ghost use Rattle.trie_context.specs.Roots.{root_set};
ghost use Rattle.trie_context.specs.RootShape.{OnlyRootHeld};
ghost use Rattle.trie_update.specs.Changed.{IsAsBefore};
ghost use Rattle.ntriples_model.specs.Proper.{IsProperTriple};
ghost use Rattle.graph_store.specs.StoreState.{graph, most_triples, IsSettled};
ghost use Rattle.graph_store.specs.Staging.{nothing_staged, staged_graph, is_held, StagesOne, Fits, before, IsFull};
ghost use Rattle.graph_store.specs.Retained.{insert_retains};
ghost use Rattle.graph_store.specs.declared.staged.StageFault.TheVariants as fault;
ghost use Rattle.graph_store.specs.Retained.{PutRetains};

use crate::look_up::has;
use crate::store::{Changed, Store};
use crate::terms::{ids_of, intern_triple, remove_all, take_back};
use crate::trips::Trips;
use graph_view::GraphView;
use ntriples::TripleRef;
use std::alloc::Global;
use std::marker::Model;
use std::sync::ledger::Ledger;
use trie_context::{Context, Root};
use trie_depth::{Id, Memory, Mix, Steps};
use trie_update::grow;

/// Why a triple wasn't staged.
#[derive(Clone, Copy, Debug, PartialEq, Eq)]
pub enum StageFault {
    /// The graph would have more triples than it may have.
    Full,
    Memory,
}

/// Triples that are to be put in, and the terms that came into the dictionary for them. It must be spent, by
/// `Store::insert` or `Store::abandon`.
pub struct Staged {
    trips: Trips,
    added: Vec<Id>,
}

impl Model for Staged {
    ghost use Rattle.graph_store.specs.Staging.{Staging, staging_code, numbers};

    ghost Value = { Staging };

    ghost coded = { staging_code };

    ghost view = { λ b. record { triples = b.trips; added = numbers b.added.items } };
}

impl Staged {
    pub fn new(alloc: Global) -> Staged
        ensures { result ≡ nothing_staged }
    {
        Staged {
            trips: Trips::new(alloc),
            added: Vec::new(alloc),
        }
    }
}

impl<M: Mix> Store<M> {
    /// Stages a triple, unless the graph or the staged triples have it.
    pub fn stage(&mut self, staged: &mut Staged, triple: TripleRef<'_>) -> Result<(), StageFault>
        requires fits { Fits self.old staged.old }
        requires proper { IsProperTriple (lent_triple triple) }
        ensures same { self.new ≡ record self.old { dict = self.new.dict } }
        ensures graph { graph self.new ≡ graph self.old }
        ensures before { before self.new staged.new ≡ before self.old staged.old }
        ensures fits { Fits self.new staged.new }
        ensures staged { OnOk result (StagesOne self.old staged.old self.new staged.new (lent_triple triple.entry)) }
        ensures full { IsErrOf result fault.Full ↔ IsFull self.old staged.old (lent_triple triple.entry) }
        ensures store { OnErr result (self.new ≡ self.old) }
        ensures refused { OnErr result (staged.new ≡ staged.old) }
    {
        let now = self.triples();
        if now > self.max {
            return Err(StageFault::Full);
        }
        if now + self.n_staged(staged) >= self.max {
            if self.is_there(staged, triple) {
                return Ok(());
            }
            return Err(StageFault::Full);
        }
        match self.add(staged, triple) {
            Ok(()) => Ok(()),
            Err(Memory) => Err(StageFault::Memory),
        }
    }

    /// How many triples are staged.
    fn n_staged(&self, staged: &Staged) -> u64
        requires { Fits self.now staged.now }
        ensures { result ≡ set.len (staged_graph self.now staged.now) }
    {
        self.dict.is_one_to_one();
        staged.trips.len() as u64
    }

    /// Whether the graph or the staged triples have the triple.
    fn is_there(&self, staged: &Staged, triple: TripleRef<'_>) -> bool
        requires { Fits self.now staged.now }
        ensures { result ≡ is_held self.now staged.now (lent_triple triple.entry) }
    {
        let Some(trip) = ids_of(&self.dict, triple) else {
            return false;
        };
        has(self.view(), trip) || staged.trips.has(trip)
    }

    /// Stages a triple for which there is a place.
    fn add(&mut self, staged: &mut Staged, triple: TripleRef<'_>) -> Result<(), Memory>
        requires fits { Fits self.old staged.old }
        requires proper { IsProperTriple (lent_triple triple) }
        requires room { set.len (graph self.old) + set.len (staged_graph self.old staged.old) < most_triples }
        ensures same { self.new ≡ record self.old { dict = self.new.dict } }
        ensures graph { graph self.new ≡ graph self.old }
        ensures before { before self.new staged.new ≡ before self.old staged.old }
        ensures fits { Fits self.new staged.new }
        ensures staged { OnOk result (StagesOne self.old staged.old self.new staged.new (lent_triple triple.entry)) }
        ensures store { OnErr result (self.new ≡ self.old) }
        ensures refused { OnErr result (staged.new ≡ staged.old) }
    {
        self.dict.is_one_to_one();
        let keep = staged.added.len();
        let trip = intern_triple(&mut self.dict, &mut staged.added, triple)?;
        if has(GraphView::of(&self.ctx, &self.root, &self.dict), trip) {
            return Ok(());
        }
        if let Err(fault) = staged.trips.put(trip) {
            take_back(&mut self.dict, &mut staged.added, keep);
            return Err(fault);
        }
        Ok(())
    }

    /// Puts the staged triples in. On `Memory` the store is as before the first of them was staged.
    pub fn insert<W: Ledger, V: Ledger>(
        &mut self,
        alloc: Global,
        staged: Staged,
        interns: &mut Steps<W>,
        retains: &mut Steps<V>,
    ) -> Result<Changed, Memory>
        requires { Fits self.old staged }
        ensures graph { OnOk result (graph self.new ≡ set.union (graph self.old) (staged_graph self.old staged)) }
        ensures changed { IfOk result (λ change. change.changed ≡ set.len (staged_graph self.old staged)) }
        ensures now { IfOk result (λ change. change.now ≡ set.len (graph self.new)) }
        ensures settled { IsSettled self.new }
        ensures max { self.new.max ≡ self.old.max }
        ensures before { OnErr result (self.new ≡ before self.old staged) }
        ensures ticks { interns.new ≤ interns.old + (9 * set.len (staged_graph self.old staged) + 10) }
        ensures retained { retains.new ≤ retains.old + insert_retains self.old staged }
    {
        self.dict.is_one_to_one();
        let Staged { trips, added } = staged;
        match put_in(
            alloc,
            &mut self.ctx,
            &mut self.root,
            trips,
            interns,
            retains,
        ) {
            Ok(changed) => Ok(Changed {
                changed,
                now: GraphView::of(&self.ctx, &self.root, &self.dict).len(),
            }),
            Err(fault) => {
                remove_all(&mut self.dict, &added);
                Err(fault)
            }
        }
    }

    /// Takes the terms that were added for the staged triples out of the dictionary again.
    pub fn abandon(&mut self, staged: Staged)
        requires { Fits self.old staged }
        ensures before { self.new ≡ before self.old staged }
        ensures graph { graph self.new ≡ graph self.old }
        ensures settled { IsSettled self.new }
    {
        let Staged { trips: _, added } = staged;
        remove_all(&mut self.dict, &added);
    }
}

/// Puts new triples into a graph, and says how many they are. On `Memory` nothing has changed.
fn put_in<M: Mix, W: Ledger, V: Ledger>(
    alloc: Global,
    context: &mut Context<M>,
    root: &mut Root,
    trips: Trips,
    interns: &mut Steps<W>,
    retains: &mut Steps<V>,
) -> Result<u64, Memory>
    requires only { OnlyRootHeld context.old root.old }
    requires new { IsChange true (root_set context.old root.old) trips }
    requires few { set.len (root_set context.old root.old) + set.len trips ≤ most_triples }
    ensures set { OnOk result (root_set context.new root.new ≡ set.union (root_set context.old root.old) trips) }
    ensures only { OnlyRootHeld context.new root.new }
    ensures changed { IfOk result (λ n. n ≡ set.len trips) }
    ensures kept { OnErr result (IsAsBefore context.old context.new root.old root.new) }
    ensures ticks { interns.new ≤ interns.old + (9 * set.len trips + 10) }
    ensures retained { PutRetains (root_set context.old root.old) trips retains.old retains.new }
{
    context.is_kept();
    let batch = trips.listed(alloc)?;
    grow(alloc, context, root, &batch, interns, retains)?;
    Ok(batch.len() as u64)
}
