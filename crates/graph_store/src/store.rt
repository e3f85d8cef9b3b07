//! The store, its size and its end.
ghost use Rattle.std.specs.Prelude.{nat_lt, ◌≡◌, ◌≤◌};
ghost use Rattle.std.specs.FinMap as map;
ghost use Rattle.std.specs.FinSet as set;
ghost use Rattle.trie_context.specs.Rows.{no_tables};
ghost use Rattle.trie_context.specs.Shape.{HasShape};
ghost use Rattle.term_dict.specs.Dict.{IsOneToOne};
ghost use Rattle.ntriples_model.specs.Proper.{AreProper};
ghost use Rattle.graph_image.specs.Images.{AreKnown};
ghost use Rattle.graph_view.specs.Views.{triples_in};
ghost use Rattle.graph_store.specs.StoreState.{graph, triples_of, most_triples, IsSettled};
ghost use Rattle.graph_store.specs.Stands.{Stands};

use graph_view::GraphView;
use std::alloc::Global;
use std::marker::Model;
use term_dict::Dict;
use trie_context::{Context, Root};
use trie_depth::Mix;

/// How many triples a change put in or took out, and how many there are now.
#[derive(Clone, Copy, Debug, PartialEq, Eq)]
pub struct Changed {
    pub changed: u64,
    pub now: u64,
}

/// A graph: a hypertrie over the Ids that the dictionary gives its terms. It must be spent, by `close`.
pub struct Store<M: Mix> {
    pub(crate) dict: Dict,
    pub(crate) ctx: Context<M>,
    pub(crate) root: Root,
    pub(crate) max: u64,
}

impl<M: Mix> Model for Store<M> {
    ghost use Rattle.graph_store.specs.StoreState.{StoreState, state_code, IsSoundStore};

    ghost Value = { StoreState };

    ghost coded = { state_code };

    ghost view = { λ s. record { dict = s.dict; tables = s.ctx; root = s.root; max = s.max } };

    ghost invariant = { λ s. IsSoundStore s.dict s.ctx s.root s.max };
}

impl<M: Mix> Store<M> {
    /// The empty graph, which may have 10,000,000 triples.
    pub fn new(alloc: Global) -> Store<M>
        ensures graph { graph result ≡ set.empty }
        ensures dict { result.dict ≡ map.empty }
        ensures tables { result.tables ≡ no_tables }
        ensures max { result.max ≡ 10000000 }
        ensures settled { IsSettled result }
    {
        Store::seeded(alloc, 0)
    }

    /// The same. Who doesn't know the seed can't choose terms of one hash, which would slow look-ups down.
    pub fn seeded(alloc: Global, seed: u64) -> Store<M>
        ensures graph { graph result ≡ set.empty }
        ensures dict { result.dict ≡ map.empty }
        ensures tables { result.tables ≡ no_tables }
        ensures max { result.max ≡ 10000000 }
        ensures settled { IsSettled result }
    {
        Store {
            dict: Dict::seeded(alloc, seed),
            ctx: Context::new(alloc),
            root: Root::Empty,
            max: 10_000_000,
        }
    }

    /// Sets how many triples the graph may have.
    pub fn set_max(&mut self, max: u64)
        requires low { 1 ≤ max }
        requires high { max ≤ most_triples }
        ensures { self.new ≡ record self.old { max = max } }
    {
        self.max = max;
    }

    /// What holds of every store.
    pub fn stands(&self)
        ensures few { set.len (graph self.now) ≤ most_triples }
        ensures limit { self.now.max ≤ most_triples }
        ensures proper { AreProper (graph self.now) }
        ensures stands { Stands M.mixed self.now }
    {
        let _graph = GraphView::of(&self.ctx, &self.root, &self.dict);
    }

    /// The number of triples.
    pub fn triples(&self) -> u64
        ensures value { result ≡ set.len (graph self.now) }
        ensures few { result ≤ most_triples }
    {
        GraphView::of(&self.ctx, &self.root, &self.dict).len()
    }

    /// The graph, to be read with its dictionary.
    pub(crate) fn view(&self) -> GraphView<'_>
        ensures tables { result.all.tables.now ≡ self.now.tables }
        ensures terms { result.all.dict.now ≡ self.now.dict }
        ensures triples { triples_in result ≡ triples_of self.now }
        ensures one { IsOneToOne self.now.dict }
        ensures known { AreKnown self.now.dict (triples_of self.now) }
        ensures shape { HasShape self.now.tables (triples_of self.now) }
    {
        GraphView::of(&self.ctx, &self.root, &self.dict)
    }

    /// Whether the graph has more triples than it may have.
    pub fn is_over(&self) -> bool
        ensures { result ≡ nat_lt self.now.max (set.len (graph self.now)) }
    {
        self.triples() > self.max
    }

    /// Ends the store. Its tables go whole: no hold is given up row by row.
    pub fn close(self) {
        let Store {
            dict: _,
            ctx: _,
            root,
            max: _,
        } = self;
        match root {
            Root::Many(held) => drop(held.into_edge()),
            Root::Empty | Root::One(_) => {}
        }
    }
}
