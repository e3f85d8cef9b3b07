//! A set of pairs changed.
ghost use Rattle.std.specs.Prelude.{◌≡◌, ◌+◌, ◌*◌, ◌<◌, ◌≤◌, ◌^◌, IfSome, IfOk, OnErr, length};
ghost use Rattle.std.specs.FinSet as set;
ghost use Rattle.trie_depth.specs.declared.id.Pair.{Pair};
ghost use Rattle.trie_node.specs.declared.node.Node.{Node};
ghost use Rattle.trie_node.specs.Sets.{set_hash};
ghost use Rattle.trie_context.specs.FitEdges.{set_at, StandsAt};
ghost use Rattle.trie_change.specs.After.{pairs_after, edge_hold, map_hold, rest_room, run_room};
ghost use Rattle.trie_change.specs.InHand.{IsInHand};
ghost use Rattle.trie_change.specs.Batches.{trip_rest};
ghost use Rattle.trie_change.specs.Premises.{MayChangeEdge};
ghost use Rattle.trie_change.specs.Rooms.{LeavesRoom, FitsSome, AreSlicesAt};
ghost use Rattle.trie_change.specs.Named.{MakesPairs, IsLonePair, StandsForPair};

use crate::batch::pairs_by_key;
use crate::change::{Change, changed_size};
use crate::hash::toggled_pairs;
use crate::pair_map::change_pair_map;
use edge_map::{Edge, EdgeMap};
use std::alloc::Global;
use std::sync::ledger::Ledger;
use trie_context::Context;
use trie_depth::{Id, L2, Level, Memory, Mix, Pair, Steps, Trip};
use trie_node::Node;

/// The edges at a position of the set of pairs that an edge stands for.
pub fn pair_edges<M: Mix>(
    alloc: Global,
    context: &Context<M>,
    edge: Option<Edge>,
    position: usize,
) -> Result<EdgeMap, Memory>
    requires position { position < 2 }
    requires fits { FitsSome context.now 2 edge }
    ensures { IfOk result (AreSlicesAt context.now 1 (set_at context.now 2 edge) position) }
{
    let empty = EdgeMap::new(alloc);
    match edge {
        Some(Edge::Node(row)) => match context.tables().two.node(row) {
            Node::Single(pair) => empty.with(&[(
                L2::key(*pair, position),
                Some(Edge::Key(L2::without(*pair, position))),
            )]),
            Node::Full { first, second, .. } => {
                if position == 0 { first } else { second }.share()
            }
        },
        Some(Edge::Key(_)) => Ok(empty),
        None => Ok(empty),
    }
}

/// How many pairs an edge stands for, and the hash of their set.
pub fn pair_figures<M: Mix>(context: &Context<M>, edge: Option<Edge>) -> (u64, u64)
    requires { FitsSome context.now 2 edge }
    ensures size { result.0 ≡ set.len (set_at context.now 2 edge) }
    ensures hash { result.1 ≡ set_hash M.mixed 2 (set_at context.now 2 edge) }
{
    match edge {
        Some(Edge::Node(row)) => {
            let node = context.tables().two.node(row);
            (node.size(), node.hash_of::<M>())
        }
        _ => (0, 0),
    }
}

/// The edges at one position of the changed set. They are in hand.
fn change_pair_position<M: Mix, W: Ledger, V: Ledger>(
    alloc: Global,
    context: &mut Context<M>,
    change: Change,
    old: Option<Edge>,
    run: &[Trip],
    position: usize,
    interns: &mut Steps<W>,
    retains: &mut Steps<V>,
) -> Result<EdgeMap, Memory>
    requires position { position < 2 }
    requires run { MayChangeEdge change context.old 2 trip_rest old run.now }
    requires room { LeavesRoom context.old (rest_room run.now) }
    ensures slices { IfOk result (AreSlicesAt context.new 1 (pairs_after change context.old old run.now) position) }
    ensures held { IfOk result (λ m. IsInHand M.mixed context.old context.new (map_hold 1 m) (rest_room run.now)) }
    ensures kept { OnErr result (context.new ≡ context.old) }
    ensures ticks { interns.new ≤ interns.old + length run.now }
    ensures retained { retains.new ≤ retains.old + (set.len (set_at context.old 2 old) + length run.now) }
{
    let pairs = pairs_by_key(alloc, run, position)?;
    let edges = pair_edges(alloc, context, old, position)?;
    change_pair_map(alloc, context, change, &edges, &pairs, interns, retains)
}

/// The node of a set of pairs with this size, this hash and these edges at its positions.
pub fn pair_node<M: Mix>(
    alloc: Global,
    size: u64,
    hash: u64,
    first: EdgeMap,
    second: EdgeMap,
) -> Node
    ensures { MakesPairs M.mixed size hash first second result }
{
    let least = first.seek(Id(0));
    let full = Node::Full {
        size,
        hash,
        first,
        second,
        third: EdgeMap::new(alloc),
    };
    match least {
        Some((key, Edge::Key(rest))) if size == 1 => Node::Single(Pair(key, rest)),
        Some((_, Edge::Key(_))) => full,
        Some((_, Edge::Node(_))) => full,
        None => full,
    }
}

/// The node of one pair that is put in where there was none.
fn lone_pair(change: Change, old: Option<Edge>, run: &[Trip]) -> Option<Node>
    ensures { IfSome result (IsLonePair change old run.now) }
{
    match (change, old) {
        (Change::Grow, None) if run.len() == 1 => Some(Node::Single(Pair(run[0].1, run[0].2))),
        _ => None,
    }
}

/// The edge to the row of one pair. It is in hand.
fn put_pair<M: Mix, W: Ledger>(
    context: &mut Context<M>,
    node: Node,
    interns: &mut Steps<W>,
) -> Result<Option<Edge>, Memory>
    requires lone { (p : Pair) × (node ≡ Node.Single p) }
    requires room { LeavesRoom context.old 1 }
    ensures stands { IfOk result (StandsForPair context.new node) }
    ensures held { IfOk result (λ e. IsInHand M.mixed context.old context.new (edge_hold 2 e) 1) }
    ensures kept { OnErr result (context.new ≡ context.old) }
    ensures ticks { interns.new ≡ interns.old + 1 }
{
    context.is_kept();
    let held = context.intern::<L2, W>(node, interns)?;
    Ok(Some(held.into_edge()))
}

/// The edge for the pairs that the old one stands for, changed by those behind the first key of the run. The new edge
/// is in hand.
pub fn change_pairs<M: Mix, W: Ledger, V: Ledger>(
    alloc: Global,
    context: &mut Context<M>,
    change: Change,
    old: Option<Edge>,
    run: &[Trip],
    interns: &mut Steps<W>,
    retains: &mut Steps<V>,
) -> Result<Option<Edge>, Memory>
    requires run { MayChangeEdge change context.old 2 trip_rest old run.now }
    requires some { 1 ≤ length run.now }
    requires room { LeavesRoom context.old (run_room run.now) }
    requires size { set.len (pairs_after change context.old old run.now) < 2 ^ 64 }
    ensures stands { IfOk result (StandsAt context.new 2 (pairs_after change context.old old run.now)) }
    ensures held { IfOk result (λ e. IsInHand M.mixed context.old context.new (edge_hold 2 e) (run_room run.now)) }
    ensures kept { OnErr result (context.new ≡ context.old) }
    ensures ticks { interns.new ≤ interns.old + 3 * length run.now }
    ensures retained { retains.new ≤ retains.old + 2 * (set.len (set_at context.old 2 old) + length run.now) }
{
    context.is_kept();
    if let Some(node) = lone_pair(change, old, run) {
        return put_pair(context, node, interns);
    }
    let (size, hash) = pair_figures(context, old);
    let size = changed_size(change, size, run.len() as u64);
    if size == 0 {
        return Ok(None);
    }
    let hash = toggled_pairs::<M>(hash, run);
    let first = change_pair_position(alloc, context, change, old, run, 0, interns, retains)?;
    let second = match change_pair_position(alloc, context, change, old, run, 1, interns, retains) {
        Ok(second) => second,
        Err(memory) => {
            context.release_map::<L2>(&first);
            return Err(memory);
        }
    };
    let node = pair_node::<M>(alloc, size, hash, first, second);
    let held = context.intern::<L2, W>(node, interns)?;
    Ok(Some(held.into_edge()))
}
