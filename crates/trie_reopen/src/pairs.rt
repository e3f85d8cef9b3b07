//! The row of a set of pairs: taken out with its edges in hand, stored again as another, or replaced by a copy.
ghost use Rattle.std.specs.Prelude.{◌≡◌, ◌+◌, ◌≤◌, ◌<◌, ℕ, Some, IfOk, OnErr};
ghost use Rattle.std.specs.FinSet as set;
ghost use Rattle.change_log.specs.Log.{edge_hold, Grows};
ghost use Rattle.edge_map.specs.declared.edge.Edge.{Edge};
ghost use Rattle.trie_node.specs.declared.node.Node.{Node};
ghost use Rattle.trie_node.specs.Sets.{edges_of};
ghost use Rattle.trie_context.specs.FitEdges.{StandsAt};
ghost use Rattle.trie_context.specs.Holds.{count_of, holds_of, nothing};
ghost use Rattle.trie_context.specs.Kept.{IsNode};
ghost use Rattle.trie_context.specs.Rows.{row_of, set_of, node_set};
ghost use Rattle.trie_change.specs.Rooms.{LeavesRoom, FitsSome, AreSlicesAt};
ghost use Rattle.trie_reopen.specs.Shared.{HoldsRiseBy};
ghost use Rattle.trie_reopen.specs.Named.{HavePairEdges, OpensPairs, StoresPairs};

use change_log::{Log, RowStep, Step};
use edge_map::{Edge, EdgeMap};
use std::alloc::Global;
use std::sync::ledger::Ledger;
use trie_change::pair_edges;
use trie_context::{Context, Held, Kept};
use trie_depth::{L2, Memory, Mix, Steps};
use trie_node::Node;

/// The edges at both positions of the pairs of a row.
pub fn pair_maps<M: Mix>(
    alloc: Global,
    context: &Context<M>,
    row: usize,
) -> Result<(EdgeMap, EdgeMap), Memory>
    requires fits { FitsSome context.now 2 (Some (Edge.Node row)) }
    ensures first { IfOk result (λ m. AreSlicesAt context.now 1 (set_of context.now 2 row) 0 m.0) }
    ensures second { IfOk result (λ m. AreSlicesAt context.now 1 (set_of context.now 2 row) 1 m.1) }
    ensures edges { IfOk result (HavePairEdges context.now row) }
{
    context.is_kept();
    let edge = Some(Edge::Node(row));
    let first = pair_edges(alloc, context, edge, 0)?;
    let second = pair_edges(alloc, context, edge, 1)?;
    Ok((first, second))
}

/// Takes the row out of its table, and logs it. Its edges are in hand.
pub fn open_pairs<M: Mix>(context: &mut Context<M>, row: usize, log: &mut Log)
    requires held { 1 ≤ holds_of context.old 2 row }
    requires alone { count_of (row_of context.old 2 row) ≤ 1 }
    requires room { 0 < log.old.spare }
    ensures opened { OpensPairs M.mixed context.old context.new log.old log.new row }
    ensures below { (r : ℕ) → set_of context.new 1 r ≡ set_of context.old 1 r }
    ensures risen { HoldsRiseBy context.old context.new nothing }
{
    context.is_kept();
    match context.open(Held::<L2>::of_edge(Edge::Node(row))) {
        Ok((node, place)) => log.push(Step::Pairs(RowStep::Opened(place, node))),
        Err(_) => unreachable!(),
    }
}

/// The edge to the row of a changed node, which is made or found. The node's edges were in hand.
pub fn store_pairs<M: Mix, W: Ledger>(
    context: &mut Context<M>,
    node: Node,
    log: &mut Log,
    interns: &mut Steps<W>,
) -> Result<Option<Edge>, Memory>
    requires form { IsNode M.mixed 2 (set_of context.old 1) node }
    requires filled { 1 ≤ set.len (node_set 2 (set_of context.old 1) node) }
    requires held { (r : ℕ) → edges_of node r ≤ holds_of context.old 1 r }
    requires room { LeavesRoom context.old 1 }
    ensures stands { IfOk result (StandsAt context.new 2 (node_set 2 (set_of context.old 1) node)) }
    ensures logged { IfOk result (StoresPairs M.mixed context.old context.new log.old log.new node) }
    ensures grew { OnErr result (Grows M.mixed context.old context.new log.old.steps log.new.steps) }
    ensures ticks { interns.new ≤ interns.old + 1 }
    ensures risen { IfOk result (λ e. HoldsRiseBy context.old context.new (edge_hold 2 e)) }
{
    context.is_kept();
    log.reserve()?;
    match context.intern_or_keep::<L2, W>(node, interns) {
        Ok(Kept::Made(held)) => {
            log.push(Step::Pairs(RowStep::Made(held.row())));
            Ok(Some(held.into_edge()))
        }
        Ok(Kept::Found(held, same)) => {
            log.push(Step::Pairs(RowStep::Found(held.row(), same)));
            Ok(Some(held.into_edge()))
        }
        Err((_, memory)) => Err(memory),
    }
}
