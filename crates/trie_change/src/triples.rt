//! A graph changed.
ghost use Rattle.std.specs.Prelude.{◌≡◌, ℕ, ◌+◌, ◌*◌, ◌<◌, ◌≤◌, IfOk, OnErr, length};
ghost use Rattle.std.specs.Ordering.{nat_cmp};
ghost use Rattle.std.specs.FinSet as set;
ghost use Rattle.hypertrie_model.specs.Sets.{single};
ghost use Rattle.trie_depth.specs.Tuples.{trip_tuple};
ghost use Rattle.trie_node.specs.Sets.{set_hash};
ghost use Rattle.trie_context.specs.Holds.{holds_of, nothing, CountsRiseBy, RowsStay};
ghost use Rattle.trie_context.specs.Kept.{AreMoved};
ghost use Rattle.trie_context.specs.Roots.{root_set, root_hold};
ghost use Rattle.trie_change.specs.After.{row_after, map_hold, map_room, maps_room, graph_room, three_edges, three_maps};
ghost use Rattle.trie_change.specs.InHand.{IsInHand};
ghost use Rattle.trie_change.specs.Premises.{MayChangeRow};
ghost use Rattle.trie_change.specs.Rooms.{LeavesRoom, AllFit, AreSlicesAt, row_set_at, IsRowThere, first_set};
ghost use Rattle.trie_change.specs.Named.{in_three};

use crate::batch::triples_by_key;
use crate::change::{Change, changed_size};
use crate::hash::toggled_triples;
use crate::triple_map::change_triple_map;
use edge_map::{Edge, EdgeMap};
use std::alloc::Global;
use std::sync::ledger::Ledger;
use trie_context::{Context, Root};
use trie_depth::{Id, L3, Memory, Mix, Steps, Trip};
use trie_node::Node;

/// The edges at a position of the set of triples of a row, no edges where there is no row.
pub fn triple_edges<M: Mix>(
    alloc: Global,
    context: &Context<M>,
    row: Option<usize>,
    position: usize,
) -> Result<EdgeMap, Memory>
    requires position { position < 3 }
    requires there { IsRowThere context.now row }
    ensures { IfOk result (AreSlicesAt context.now 2 (row_set_at context.now row) position) }
{
    let empty = EdgeMap::new(alloc);
    let Some(row) = row else {
        return Ok(empty);
    };
    match context.tables().three.node(row).map(position) {
        Some(edges) => edges.share(),
        None => Ok(empty),
    }
}

/// How many triples a row stands for, and the hash of their set.
pub fn triple_figures<M: Mix>(context: &Context<M>, row: Option<usize>) -> (u64, u64)
    requires { IsRowThere context.now row }
    ensures size { result.0 ≡ set.len (row_set_at context.now row) }
    ensures hash { result.1 ≡ set_hash M.mixed 3 (row_set_at context.now row) }
{
    match row {
        Some(row) => {
            let node = context.tables().three.node(row);
            (node.size(), node.hash_of::<M>())
        }
        None => (0, 0),
    }
}

/// The edges at one position of the changed set. They are in hand.
fn change_triple_position<M: Mix, W: Ledger, V: Ledger>(
    alloc: Global,
    context: &mut Context<M>,
    change: Change,
    old: Option<usize>,
    batch: &[Trip],
    position: usize,
    interns: &mut Steps<W>,
    retains: &mut Steps<V>,
) -> Result<EdgeMap, Memory>
    requires position { position < 3 }
    requires batch { MayChangeRow change context.old old batch.now }
    requires room { LeavesRoom context.old (map_room batch.now) }
    ensures slices { IfOk result (AreSlicesAt context.new 2 (row_after change context.old old batch.now) position) }
    ensures held { IfOk result (λ m. IsInHand M.mixed context.old context.new (map_hold 2 m) (map_room batch.now)) }
    ensures kept { OnErr result (context.new ≡ context.old) }
    ensures ticks { interns.new ≤ interns.old + 3 * length batch.now }
    ensures retained { retains.new ≤ retains.old + 3 * (set.len (row_set_at context.old old) + length batch.now) }
{
    let triples = triples_by_key(alloc, batch, position)?;
    let edges = triple_edges(alloc, context, old, position)?;
    change_triple_map(alloc, context, change, &edges, triples, interns, retains)
}

/// The edges at the three positions of the changed set. They are in hand.
fn change_positions<M: Mix, W: Ledger, V: Ledger>(
    alloc: Global,
    context: &mut Context<M>,
    change: Change,
    old: Option<usize>,
    batch: &[Trip],
    interns: &mut Steps<W>,
    retains: &mut Steps<V>,
) -> Result<(EdgeMap, EdgeMap, EdgeMap), Memory>
    requires batch { MayChangeRow change context.old old batch.now }
    requires room { LeavesRoom context.old (maps_room batch.now) }
    ensures first { IfOk result (λ m. AreSlicesAt context.new 2 (row_after change context.old old batch.now) 0 m.0) }
    ensures second { IfOk result (λ m. AreSlicesAt context.new 2 (row_after change context.old old batch.now) 1 m.1) }
    ensures third { IfOk result (λ m. AreSlicesAt context.new 2 (row_after change context.old old batch.now) 2 m.2) }
    ensures held { IfOk result (λ m. IsInHand M.mixed context.old context.new (in_three m) (maps_room batch.now)) }
    ensures kept { OnErr result (context.new ≡ context.old) }
    ensures ticks { interns.new ≤ interns.old + 9 * length batch.now }
    ensures retained { retains.new ≤ retains.old + 9 * (set.len (row_set_at context.old old) + length batch.now) }
{
    context.is_kept();
    let first = change_triple_position(alloc, context, change, old, batch, 0, interns, retains)?;
    let second = match change_triple_position(
        alloc, context, change, old, batch, 1, interns, retains,
    ) {
        Ok(second) => second,
        Err(memory) => {
            context.release_map::<L3>(&first);
            return Err(memory);
        }
    };
    match change_triple_position(alloc, context, change, old, batch, 2, interns, retains) {
        Ok(third) => Ok((first, second, third)),
        Err(memory) => {
            context.release_map::<L3>(&first);
            context.release_map::<L3>(&second);
            Err(memory)
        }
    }
}

/// The one triple of a set with these edges at its first position.
fn lone_triple<M: Mix>(context: &Context<M>, first: &EdgeMap) -> Trip
    requires fits { AllFit context.now 2 first.now }
    requires lone { set.len (first_set context.now 2 first.now) ≡ 1 }
    ensures { first_set context.now 2 first.now ≡ single nat_cmp (trip_tuple result) }
{
    let Some((key, edge)) = first.seek(Id(0)) else {
        unreachable!()
    };
    let Edge::Node(row) = edge else {
        unreachable!()
    };
    let Node::Single(pair) = context.tables().two.node(row) else {
        unreachable!()
    };
    Trip(key, pair.0, pair.1)
}

/// Gives up the edges at the three positions.
fn release_positions<M: Mix>(
    context: &mut Context<M>,
    first: &EdgeMap,
    second: &EdgeMap,
    third: &EdgeMap,
)
    requires { (r : ℕ) → three_edges first.now second.now third.now r ≤ holds_of context.old 2 r }
    ensures moved { AreMoved M.mixed context.old context.new nothing (three_maps first.now second.now third.now) }
    ensures counts { CountsRiseBy context.old context.new nothing }
    ensures came { RowsStay context.new context.old }
{
    context.release_map::<L3>(first);
    context.release_map::<L3>(second);
    context.release_map::<L3>(third);
}

/// The root of the set of a row, changed by the batch. Its hold is in hand.
pub fn change_root<M: Mix, W: Ledger, V: Ledger>(
    alloc: Global,
    context: &mut Context<M>,
    change: Change,
    old: Option<usize>,
    batch: &[Trip],
    interns: &mut Steps<W>,
    retains: &mut Steps<V>,
) -> Result<Root, Memory>
    requires batch { MayChangeRow change context.old old batch.now }
    requires room { LeavesRoom context.old (graph_room batch.now) }
    ensures set { IfOk result (λ root. root_set context.new root ≡ row_after change context.old old batch.now) }
    ensures held { IfOk result (λ r. IsInHand M.mixed context.old context.new (root_hold r) (graph_room batch.now)) }
    ensures kept { OnErr result (context.new ≡ context.old) }
    ensures ticks { interns.new ≤ interns.old + (9 * length batch.now + 1) }
    ensures retained { retains.new ≤ retains.old + 9 * (set.len (row_set_at context.old old) + length batch.now) }
{
    context.is_kept();
    let (size, hash) = triple_figures(context, old);
    let size = changed_size(change, size, batch.len() as u64);
    if size == 0 {
        return Ok(Root::Empty);
    }
    let hash = toggled_triples::<M>(hash, batch);
    let (first, second, third) = change_positions(
        alloc, context, change, old, batch, interns, retains,
    )?;
    if size == 1 {
        let triple = lone_triple(context, &first);
        release_positions(context, &first, &second, &third);
        return Ok(Root::One(triple));
    }
    let node = Node::Full {
        size,
        hash,
        first,
        second,
        third,
    };
    Ok(Root::Many(context.intern::<L3, W>(node, interns)?))
}
