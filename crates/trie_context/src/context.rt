//! The tables of a graph and the calls that keep them.
ghost use Rattle.std.specs.Prelude.{◌≡◌, ◌≢◌, ℕ, ◌+◌, ◌-◌, ◌<◌, ◌≤◌, ◌^◌, Some, IsSome, IsNone, IfSome, IfOk, OnOk, IfErr, OnErr};
ghost use Rattle.std.specs.FinMap as map;
ghost use Rattle.edge_map.specs.declared.edge.Edge.{Edge};
ghost use Rattle.trie_node.specs.Sets.{leads, edges_in, edges_of, hash_of_node};
ghost use Rattle.trie_context.specs.Rows.{no_tables, row_of, node_of, node_set, set_of, LeadsToRow};
ghost use Rattle.trie_context.specs.Holds.{count_of, holds_of, one_at, at_depth, nothing, HasRoom, HasRoomForMap, CountsRiseBy, RowsStay};
ghost use Rattle.trie_context.specs.Kept.{IsNode, AreKept, AreMoved, IsStored};
ghost use Rattle.trie_context.specs.Interned.{IsInterned, kept_row, came_back};
ghost use Rattle.trie_context.specs.Opened.{IsReserved, StandsForNoRow, discarded_at, HoldsAreMoved, IsOpened, IsClosed};

use crate::held::Held;
use crate::intern::intern_row;
use crate::keep::keep_row;
use crate::kept::Kept;
use crate::opened::{close_row, discard_place, open_row};
use crate::place::Place;
use crate::release::{release_edge, release_edges, release_map, release_row};
use crate::retain::{retain_edge, retain_map, retain_row};
use crate::tables::Tables;
use edge_map::{Edge, EdgeMap};
use std::alloc::Global;
use std::marker::{Model, PhantomData};
use std::sync::ledger::Ledger;
use trie_depth::{Level, Memory, Mix, Steps};
use trie_node::Node;

/// The tables of one graph. Their hashes are those of the mix `M`.
#[derive(Drop)]
pub struct Context<M: Mix> {
    tables: Tables,
    mix: PhantomData<M>,
}

impl<M: Mix> Model for Context<M> {
    ghost use Rattle.trie_context.specs.Kept.{AreKept};
    ghost use Rattle.trie_context.specs.declared.tables.Tables.{Tables};
    ghost use Rattle.trie_context.specs.contracts.tables.Tables as all;

    ghost Value = { Tables };

    ghost coded = { all.the_row.coded };

    ghost view = { λ c. c.tables };

    ghost invariant = { λ c. AreKept M.mixed c.tables };
}

impl<M: Mix> Context<M> {
    pub fn new(alloc: Global) -> Context<M>
        ensures { result ≡ no_tables }
    {
        Context {
            tables: Tables::new(alloc),
            mix: PhantomData,
        }
    }

    pub fn tables(&self) -> &Tables
        ensures same { result.now ≡ self.now }
        ensures kept { AreKept M.mixed self.now }
    {
        &self.tables
    }

    /// The tables are kept between any two calls: a law, and nothing is done.
    pub fn is_kept(&self)
        ensures { AreKept M.mixed self.now }
    {
        let _tables = &self.tables;
    }

    /// A hold on the one row that is equal to the node, made where there was none. The node's edges become those of the
    /// new row; where there was one, and for want of memory, they are given up.
    pub fn intern<L: Level, W: Ledger>(
        &mut self,
        node: Node,
        interns: &mut Steps<W>,
    ) -> Result<Held<L>, Memory>
        requires form { IsNode M.mixed L.DEPTH (set_of self.old (L.DEPTH - 1)) node }
        requires held { (r : ℕ) → edges_of node r ≤ holds_of self.old (L.DEPTH - 1) r }
        requires room { HasRoom self.old }
        ensures there { IfOk result (λ k. node_of self.new L.DEPTH k ≡ Some node) }
        ensures moved { IfOk result (λ k. IsStored M.mixed L.DEPTH self.old self.new k node) }
        ensures counts { IfOk result (λ k. CountsRiseBy self.old self.new (at_depth L.DEPTH (one_at k))) }
        ensures stay { OnOk result (RowsStay self.old self.new) }
        ensures given { OnErr result (AreMoved M.mixed self.old self.new nothing (at_depth (L.DEPTH - 1) (edges_of node))) }
        ensures fallen { OnErr result (CountsRiseBy self.old self.new nothing) }
        ensures came { OnErr result (RowsStay self.new self.old) }
        ensures ticks { interns.new ≡ interns.old + 1 }
    {
        interns.tick();
        let row = intern_row::<M>(&mut self.tables, L::DEPTH, node)?;
        Ok(Held::new(row))
    }

    /// A hold on the one row that is equal to the node, made where there was none. Where there was one, and for want of
    /// memory, the node comes back with its edges.
    pub fn intern_or_keep<L: Level, W: Ledger>(
        &mut self,
        node: Node,
        interns: &mut Steps<W>,
    ) -> Result<Kept<L>, (Node, Memory)>
        requires form { IsNode M.mixed L.DEPTH (set_of self.old (L.DEPTH - 1)) node }
        requires held { (r : ℕ) → edges_of node r ≤ holds_of self.old (L.DEPTH - 1) r }
        requires room { HasRoom self.old }
        ensures kept { IfOk result (λ k. IsInterned M.mixed self.old self.new L.DEPTH node (kept_row k) (came_back k)) }
        ensures back { IfErr result (λ e. e.0 ≡ node) }
        ensures same { OnErr result (self.new ≡ self.old) }
        ensures ticks { interns.new ≡ interns.old + 1 }
    {
        interns.tick();
        match keep_row::<M>(&mut self.tables, L::DEPTH, node) {
            Ok((row, None)) => Ok(Kept::Made(Held::new(row))),
            Ok((row, Some(same))) => Ok(Kept::Found(Held::new(row), same)),
            Err(refused) => Err(refused),
        }
    }

    /// A second hold on the row.
    pub fn retain<L: Level, W: Ledger>(&mut self, held: &Held<L>, retains: &mut Steps<W>) -> Held<L>
        requires held { 1 ≤ holds_of self.old L.DEPTH held.now }
        requires room { HasRoom self.old }
        ensures same { result ≡ held.now }
        ensures moved { AreMoved M.mixed self.old self.new (at_depth L.DEPTH (one_at held.now)) nothing }
        ensures counts { CountsRiseBy self.old self.new (at_depth L.DEPTH (one_at held.now)) }
        ensures stay { RowsStay self.old self.new }
        ensures ticks { retains.new ≡ retains.old + 1 }
    {
        retains.tick();
        retain_row::<M>(&mut self.tables, L::DEPTH, held.row());
        Held::new(held.row())
    }

    /// A hold on the row that an edge of a node of this level leads to; for a key there is nothing to hold.
    pub fn retain_edge<L: Level, W: Ledger>(&mut self, edge: Edge, retains: &mut Steps<W>)
        requires there { LeadsToRow self.old (L.DEPTH - 1) edge }
        requires room { HasRoom self.old }
        ensures moved { AreMoved M.mixed self.old self.new (at_depth (L.DEPTH - 1) (leads edge)) nothing }
        ensures counts { CountsRiseBy self.old self.new (at_depth (L.DEPTH - 1) (leads edge)) }
        ensures stay { RowsStay self.old self.new }
        ensures ticks { retains.new ≡ retains.old + 1 }
    {
        retains.tick();
        retain_edge::<M>(&mut self.tables, L::DEPTH - 1, edge);
    }

    /// A hold on the row that each edge of a map of a node of this level leads to, one for each edge.
    pub fn retain_map<L: Level, W: Ledger>(&mut self, edges: &EdgeMap, retains: &mut Steps<W>)
        requires there { (k : ℕ) (e : Edge) → map.get edges.now k ≡ Some e → LeadsToRow self.old (L.DEPTH - 1) e }
        requires room { HasRoomForMap self.old }
        ensures moved { AreMoved M.mixed self.old self.new (at_depth (L.DEPTH - 1) (edges_in edges.now)) nothing }
        ensures counts { CountsRiseBy self.old self.new (at_depth (L.DEPTH - 1) (edges_in edges.now)) }
        ensures few { CountsRiseBy self.old self.new (λ d r. 2 ^ 32) }
        ensures stay { RowsStay self.old self.new }
        ensures ticks { retains.new ≡ retains.old + map.len edges.now }
    {
        retain_map::<M, W>(&mut self.tables, L::DEPTH - 1, edges, retains);
    }

    /// Gives the hold up. A row that nothing leads to any more goes away, and its edges are given up.
    pub fn release<L: Level>(&mut self, held: Held<L>)
        requires held { 1 ≤ holds_of self.old L.DEPTH held }
        ensures moved { AreMoved M.mixed self.old self.new nothing (at_depth L.DEPTH (one_at held)) }
        ensures counts { CountsRiseBy self.old self.new nothing }
        ensures came { RowsStay self.new self.old }
    {
        release_row::<M>(&mut self.tables, L::DEPTH, held.into_row());
    }

    /// Gives up the hold of an edge of a node of this level; a key holds nothing.
    pub fn release_edge<L: Level>(&mut self, edge: Edge)
        requires held { (r : ℕ) → leads edge r ≤ holds_of self.old (L.DEPTH - 1) r }
        ensures moved { AreMoved M.mixed self.old self.new nothing (at_depth (L.DEPTH - 1) (leads edge)) }
        ensures counts { CountsRiseBy self.old self.new nothing }
        ensures came { RowsStay self.new self.old }
    {
        release_edge::<M>(&mut self.tables, L::DEPTH - 1, edge);
    }

    /// Gives up the holds of all edges of a map of a node of this level.
    pub fn release_map<L: Level>(&mut self, edges: &EdgeMap)
        requires held { (r : ℕ) → edges_in edges.now r ≤ holds_of self.old (L.DEPTH - 1) r }
        ensures moved { AreMoved M.mixed self.old self.new nothing (at_depth (L.DEPTH - 1) (edges_in edges.now)) }
        ensures counts { CountsRiseBy self.old self.new nothing }
        ensures came { RowsStay self.new self.old }
    {
        release_map::<M>(&mut self.tables, L::DEPTH - 1, edges);
    }

    /// Gives up the holds of all edges of the node.
    pub fn release_node<L: Level>(&mut self, node: Node)
        requires held { (r : ℕ) → edges_of node r ≤ holds_of self.old (L.DEPTH - 1) r }
        ensures moved { AreMoved M.mixed self.old self.new nothing (at_depth (L.DEPTH - 1) (edges_of node)) }
        ensures counts { CountsRiseBy self.old self.new nothing }
        ensures came { RowsStay self.new self.old }
    {
        release_edges::<M>(&mut self.tables, L::DEPTH - 1, &node);
    }

    /// Takes out the held row, where nothing but this hold leads to it: its node comes in hand, and its number stays
    /// reserved until the place is spent. Where more leads to the row, the hold comes back.
    pub fn open<L: Level>(&mut self, held: Held<L>) -> Result<(Node, Place<L>), Held<L>>
        requires held { 1 ≤ holds_of self.old L.DEPTH held }
        ensures alone { OnOk result (count_of (row_of self.old L.DEPTH held) ≡ 1) }
        ensures opened { IfOk result (λ o. IsOpened M.mixed self.old self.new L.DEPTH o.1 o.0) }
        ensures number { IfOk result (λ o. o.1.number ≡ held) }
        ensures shared { OnErr result (1 < count_of (row_of self.old L.DEPTH held)) }
        ensures hold { IfErr result (λ h. h ≡ held) }
        ensures same { OnErr result (self.new ≡ self.old) }
    {
        let row = held.into_row();
        match open_row::<M>(&mut self.tables, L::DEPTH, row) {
            Some((node, spot)) => Ok((node, Place::new(spot))),
            None => Err(Held::new(row)),
        }
    }

    /// Puts a node into the place: its row is there again, with this one hold. It takes no memory.
    pub fn close<L: Level>(&mut self, place: Place<L>, node: Node) -> Held<L>
        requires reserved { IsReserved self.old L.DEPTH place }
        requires form { IsNode M.mixed L.DEPTH (set_of self.old (L.DEPTH - 1)) node }
        requires hashed { place.hash ≡ hash_of_node M.mixed node }
        requires none { StandsForNoRow self.old L.DEPTH node }
        requires held { (r : ℕ) → edges_of node r ≤ holds_of self.old (L.DEPTH - 1) r }
        ensures row { result ≡ place.number }
        ensures closed { IsClosed M.mixed self.old self.new L.DEPTH place node }
    {
        let spot = place.into_spot();
        let row = spot.number();
        close_row::<M>(&mut self.tables, L::DEPTH, spot, node);
        Held::new(row)
    }

    /// Gives the place up.
    pub fn discard<L: Level>(&mut self, place: Place<L>)
        requires reserved { IsReserved self.old L.DEPTH place }
        ensures gone { self.new ≡ discarded_at self.old L.DEPTH place }
        ensures moved { HoldsAreMoved M.mixed self.old self.new nothing nothing }
    {
        discard_place::<M>(&mut self.tables, L::DEPTH, place.into_spot());
    }

    /// The row that stands for the set of the node.
    pub fn find<L: Level>(&self, node: &Node) -> Option<usize>
        requires form { IsNode M.mixed L.DEPTH (set_of self.now (L.DEPTH - 1)) node.now }
        ensures there { IfSome result (λ r. node_of self.now L.DEPTH r ≡ Some node.now) }
        ensures none { IsNone result → StandsForNoRow self.now L.DEPTH node.now }
    {
        self.tables.find_equal(L::DEPTH, node, node.hash_of::<M>())
    }
}
