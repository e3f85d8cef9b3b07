//! A key set changed.
ghost use Rattle.std.specs.Prelude.{◌≡◌, ℕ, ◌+◌, ◌≤◌, IsNone, IfSome, IfOk, OnErr};
ghost use Rattle.std.specs.Prelude.{map as each};
ghost use Rattle.std.specs.FinMap as map;
ghost use Rattle.std.specs.FinSet as set;
ghost use Rattle.edge_map.specs.Edges.{Edges, changed};
ghost use Rattle.edge_map.specs.Entries.{KeysRise};
ghost use Rattle.trie_node.specs.Sets.{leads, set_hash};
ghost use Rattle.trie_context.specs.Holds.{nothing};
ghost use Rattle.trie_context.specs.declared.tables.Tables.{Tables};
ghost use Rattle.trie_change.specs.After.{keys_after, edge_hold};
ghost use Rattle.trie_change.specs.InHand.{IsInHand};
ghost use Rattle.trie_change.specs.Batches.{AreInOrder, pair_rest};
ghost use Rattle.trie_change.specs.Changes.{key_change};
ghost use Rattle.trie_context.specs.FitEdges.{set_at, StandsAt};
ghost use Rattle.trie_change.specs.Premises.{MayChangeEdge};
ghost use Rattle.trie_change.specs.Rooms.{LeavesRoom, FitsSome, AreKeys};

use crate::change::{Change, takes_all};
use crate::hash::toggled_keys;
use edge_map::{Edge, EdgeMap};
use std::alloc::Global;
use std::sync::ledger::Ledger;
use trie_context::Context;
use trie_depth::{Id, L1, Memory, Mix, Pair, Steps};
use trie_node::{Node, toggled};

/// The keys that an edge stands for, each under itself, with the changes made.
fn keys_with<M: Mix>(
    alloc: Global,
    context: &Context<M>,
    edge: Option<Edge>,
    changes: &[(Id, Option<Edge>)],
) -> Result<EdgeMap, Memory>
    requires fits { FitsSome context.now 1 edge }
    requires rising { KeysRise changes.now }
    ensures { IfOk result (λ m. (old : Edges) × AreKeys (set_at context.now 1 edge) old × (m ≡ changed old changes.now)) }
{
    let empty = EdgeMap::new(alloc);
    match edge {
        None => empty.with(changes),
        Some(Edge::Key(key)) => empty.with(&[(key, Some(Edge::Key(key)))])?.with(changes),
        Some(Edge::Node(row)) => match context.tables().one.node(row).map(0) {
            Some(keys) => keys.with(changes),
            None => empty.with(changes),
        },
    }
}

/// How many keys an edge stands for, and the hash of their set.
fn key_figures<M: Mix>(context: &Context<M>, edge: Option<Edge>) -> (u64, u64)
    requires { FitsSome context.now 1 edge }
    ensures size { result.0 ≡ set.len (set_at context.now 1 edge) }
    ensures hash { result.1 ≡ set_hash M.mixed 1 (set_at context.now 1 edge) }
{
    match edge {
        None => (0, 0),
        Some(Edge::Key(key)) => (1, toggled::<M, L1>(0, key)),
        Some(Edge::Node(row)) => {
            let node = context.tables().one.node(row);
            (node.size(), node.hash_of::<M>())
        }
    }
}

/// The keys behind the first, each put in under itself or taken out.
fn key_changes(
    alloc: Global,
    change: Change,
    run: &[Pair],
) -> Result<Vec<(Id, Option<Edge>)>, Memory>
    ensures { IfOk result (λ v. v.items ≡ each (key_change change) run.now) }
{
    let mut changes = Vec::with_capacity(alloc, run.len())?;
    for pair in run {
        changes.push(key_change(change, *pair))?;
    }
    Ok(changes)
}

fn key_change(change: Change, pair: Pair) -> (Id, Option<Edge>)
    ensures { result ≡ key_change change pair }
{
    match change {
        Change::Grow => (pair.1, Some(Edge::Key(pair.1))),
        Change::Shrink => (pair.1, None),
    }
}

/// The keys that an edge stands for, changed by those behind the first of the run.
fn changed_keys<M: Mix>(
    alloc: Global,
    context: &Context<M>,
    change: Change,
    old: Option<Edge>,
    run: &[Pair],
) -> Result<EdgeMap, Memory>
    requires fits { FitsSome context.now 1 old }
    requires order { AreInOrder pair_rest run.now }
    ensures { IfOk result (AreKeys (keys_after change context.now old run.now)) }
{
    let changes = key_changes(alloc, change, run)?;
    keys_with(alloc, context, old, &changes)
}

/// The edge under the least key.
fn first_edge(keys: &EdgeMap) -> Option<Edge>
    ensures none { IsNone result → (k : ℕ) → map.get keys.now k ≡ None }
    ensures there { IfSome result (λ e. (k : ℕ) × (map.get keys.now k ≡ Some e)) }
{
    let (_, edge) = keys.seek(Id(0))?;
    Some(edge)
}

/// The edge of one key that is put in where there was none: the key itself, and nothing is stored for it.
fn lone_key(change: Change, old: Option<Edge>, run: &[Pair]) -> Option<Edge>
    ensures stands { IfSome result (λ e. (t : Tables) → StandsAt t 1 (keys_after change t old run.now) (Some e)) }
    ensures nowhere { IfSome result (λ e. (r : ℕ) → leads e r ≡ 0) }
{
    match (change, old) {
        (Change::Grow, None) if run.len() == 1 => Some(Edge::Key(run[0].1)),
        _ => None,
    }
}

/// The edge for the keys that the old one stands for, changed by those behind the first of the run. The new edge
/// is in hand.
pub fn change_keys<M: Mix, W: Ledger>(
    alloc: Global,
    context: &mut Context<M>,
    change: Change,
    old: Option<Edge>,
    run: &[Pair],
    interns: &mut Steps<W>,
) -> Result<Option<Edge>, Memory>
    requires run { MayChangeEdge change context.old 1 pair_rest old run.now }
    requires room { LeavesRoom context.old 1 }
    ensures stands { IfOk result (StandsAt context.new 1 (keys_after change context.old old run.now)) }
    ensures held { IfOk result (λ e. IsInHand M.mixed context.old context.new (edge_hold 1 e) 1) }
    ensures kept { OnErr result (context.new ≡ context.old) }
    ensures ticks { interns.new ≤ interns.old + 1 }
{
    context.is_kept();
    if let Some(edge) = lone_key(change, old, run) {
        return Ok(Some(edge));
    }
    let (before, hash) = key_figures(context, old);
    if takes_all(change, before, run.len() as u64) {
        return Ok(None);
    }
    let keys = changed_keys(alloc, context, change, old, run)?;
    let size = keys.len();
    if size < 2 {
        return Ok(first_edge(&keys));
    }
    let node = Node::Full {
        size,
        hash: toggled_keys::<M>(hash, run),
        first: keys,
        second: EdgeMap::new(alloc),
        third: EdgeMap::new(alloc),
    };
    let held = context.intern::<L1, W>(node, interns)?;
    Ok(Some(held.into_edge()))
}
