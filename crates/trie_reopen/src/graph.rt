//! The row of a graph that nothing else holds, opened, changed and stored again.
ghost use Rattle.std.specs.Prelude.{◌≡◌, ◌+◌, ◌*◌, ◌≤◌, ◌<◌, Some, IsSome, IfOk, OnErr, length};
ghost use Rattle.std.specs.FinSet as set;
ghost use Rattle.change_log.specs.Log.{Grows};
ghost use Rattle.trie_node.specs.declared.node.Node.{Node};
ghost use Rattle.trie_context.specs.Holds.{count_of, holds_of};
ghost use Rattle.trie_context.specs.Roots.{root_set};
ghost use Rattle.trie_context.specs.Rows.{row_of, set_of};
ghost use Rattle.trie_change.specs.After.{row_after, graph_room};
ghost use Rattle.trie_change.specs.Premises.{MayChangeRow};
ghost use Rattle.trie_change.specs.Rooms.{LeavesRoom, AreSlicesAt};
ghost use Rattle.trie_reopen.specs.Named.{HaveTripleEdges, ReplacesRoot, GraphRetains};

use crate::triple_map::replace_triple_map;
use crate::triples::{open_triples, store_triples};
use change_log::Log;
use edge_map::EdgeMap;
use std::alloc::Global;
use std::sync::ledger::Ledger;
use trie_change::{
    Change, changed_size, toggled_triples, triple_edges, triple_figures, triples_by_key,
};
use trie_context::{Context, Root};
use trie_depth::{Memory, Mix, Steps, Trip};
use trie_node::Node;

/// The edges at the three positions of the triples of a row.
fn triple_maps<M: Mix>(
    alloc: Global,
    context: &Context<M>,
    row: usize,
) -> Result<(EdgeMap, EdgeMap, EdgeMap), Memory>
    requires there { IsSome (row_of context.now 3 row) }
    ensures first { IfOk result (λ m. AreSlicesAt context.now 2 (set_of context.now 3 row) 0 m.0) }
    ensures second { IfOk result (λ m. AreSlicesAt context.now 2 (set_of context.now 3 row) 1 m.1) }
    ensures third { IfOk result (λ m. AreSlicesAt context.now 2 (set_of context.now 3 row) 2 m.2) }
    ensures edges { IfOk result (HaveTripleEdges context.now row) }
{
    context.is_kept();
    let first = triple_edges(alloc, context, Some(row), 0)?;
    let second = triple_edges(alloc, context, Some(row), 1)?;
    let third = triple_edges(alloc, context, Some(row), 2)?;
    Ok((first, second, third))
}

/// The root of the set of a row with one hold, changed by the batch, where two triples or more are left. The row is taken
/// out, and its edges are changed in place.
pub fn reopen_triples<M: Mix, W: Ledger, V: Ledger>(
    alloc: Global,
    context: &mut Context<M>,
    change: Change,
    row: usize,
    batch: &[Trip],
    log: &mut Log,
    interns: &mut Steps<W>,
    retains: &mut Steps<V>,
) -> Result<Root, Memory>
    requires batch { MayChangeRow change context.old (Some row) batch.now }
    requires held { 1 ≤ holds_of context.old 3 row }
    requires alone { count_of (row_of context.old 3 row) ≤ 1 }
    requires left { 2 ≤ set.len (row_after change context.old (Some row) batch.now) }
    requires room { LeavesRoom context.old (graph_room batch.now) }
    ensures set { IfOk result (λ root. root_set context.new root ≡ row_after change context.old (Some row) batch.now) }
    ensures logged { IfOk result (ReplacesRoot M.mixed context.old context.new log.old log.new row batch.now) }
    ensures grew { OnErr result (Grows M.mixed context.old context.new log.old.steps log.new.steps) }
    ensures ticks { interns.new ≤ interns.old + (9 * length batch.now + 1) }
    ensures retained { GraphRetains change context.old row batch.now retains.old retains.new }
{
    context.is_kept();
    let (size, hash) = triple_figures(context, Some(row));
    let size = changed_size(change, size, batch.len() as u64);
    let hash = toggled_triples::<M>(hash, batch);
    let (first, second, third) = triple_maps(alloc, context, row)?;
    log.reserve()?;
    open_triples(context, row, log);
    let by_first = triples_by_key(alloc, batch, 0)?;
    let one = replace_triple_map(
        alloc, context, change, &first, by_first, log, interns, retains,
    )?;
    let by_second = triples_by_key(alloc, batch, 1)?;
    let two = replace_triple_map(
        alloc, context, change, &second, by_second, log, interns, retains,
    )?;
    let by_third = triples_by_key(alloc, batch, 2)?;
    let three = replace_triple_map(
        alloc, context, change, &third, by_third, log, interns, retains,
    )?;
    let node = Node::Full {
        size,
        hash,
        first: one,
        second: two,
        third: three,
    };
    store_triples(context, node, log, interns)
}
