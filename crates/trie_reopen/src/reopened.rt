//! A row of pairs that nothing else leads to, opened, changed and stored again.
ghost use Rattle.std.specs.Prelude.{◌≡◌, ◌≢◌, ◌+◌, ◌*◌, ◌≤◌, ◌<◌, ◌^◌, ℕ, Some, IsNone, IfSome, IfOk, OnOk, OnErr, length};
ghost use Rattle.std.specs.FinSet as set;
ghost use Rattle.change_log.specs.Log.{edge_hold, Grows};
ghost use Rattle.edge_map.specs.declared.edge.Edge.{Edge};
ghost use Rattle.trie_context.specs.FitEdges.{StandsAt, option_leads};
ghost use Rattle.trie_context.specs.Holds.{count_of, holds_of};
ghost use Rattle.trie_context.specs.Rows.{row_of};
ghost use Rattle.trie_change.specs.After.{pairs_after, run_room};
ghost use Rattle.trie_change.specs.Batches.{trip_rest};
ghost use Rattle.trie_change.specs.Premises.{MayChangeEdge};
ghost use Rattle.trie_change.specs.Rooms.{LeavesRoom, FitsSome};
ghost use Rattle.trie_reopen.specs.Shared.{HoldsRiseBy};
ghost use Rattle.trie_reopen.specs.Named.{LeavesRow, ReplacesEdge, ReplacesRow, RunRetains};

use crate::pair_map::replace_pair_map;
use crate::pairs::{open_pairs, pair_maps, store_pairs};
use change_log::{Log, RowStep, Step};
use edge_map::Edge;
use std::alloc::Global;
use std::sync::ledger::Ledger;
use trie_change::{
    Change, change_pairs, changed_size, pair_figures, pair_node, pairs_by_key, toggled_pairs,
};
use trie_context::Context;
use trie_depth::{Memory, Mix, Steps, Trip};

/// Gives up the hold of a row of which no pair is left, and keeps it in the log.
fn leave_pairs<M: Mix>(context: &Context<M>, row: usize, log: &mut Log) -> Result<(), Memory>
    ensures logged { OnOk result (LeavesRow M.mixed context.now log.old log.new row) }
    ensures grew { OnErr result (Grows M.mixed context.now context.now log.old.steps log.new.steps) }
{
    context.is_kept();
    log.reserve()?;
    log.push(Step::Pairs(RowStep::Replaced(Some(Edge::Node(row)), None)));
    Ok(())
}

/// The edge for the pairs of a row with one hold, changed by those behind the first key of the run. The row is taken out,
/// and its edges are changed in place; but where no pair is left, it stays as it is until the log is settled.
fn reopen_pairs<M: Mix, W: Ledger>(
    alloc: Global,
    context: &mut Context<M>,
    change: Change,
    row: usize,
    run: &[Trip],
    log: &mut Log,
    interns: &mut Steps<W>,
) -> Result<Option<Edge>, Memory>
    requires run { MayChangeEdge change context.old 2 trip_rest (Some (Edge.Node row)) run.now }
    requires some { 1 ≤ length run.now }
    requires held { 1 ≤ holds_of context.old 2 row }
    requires alone { count_of (row_of context.old 2 row) ≤ 1 }
    requires room { LeavesRoom context.old (run_room run.now) }
    requires size { set.len (pairs_after change context.old (Some (Edge.Node row)) run.now) < 2 ^ 64 }
    ensures stands { IfOk result (StandsAt context.new 2 (pairs_after change context.old (Some (Edge.Node row)) run.now)) }
    ensures logged { IfOk result (ReplacesRow M.mixed context.old context.new log.old log.new row run.now) }
    ensures grew { OnErr result (Grows M.mixed context.old context.new log.old.steps log.new.steps) }
    ensures ticks { interns.new ≤ interns.old + 3 * length run.now }
    ensures risen { IfOk result (λ e. HoldsRiseBy context.old context.new (edge_hold 2 e)) }
{
    context.is_kept();
    let (size, hash) = pair_figures(context, Some(Edge::Node(row)));
    let size = changed_size(change, size, run.len() as u64);
    if size == 0 {
        leave_pairs(context, row, log)?;
        return Ok(None);
    }
    let hash = toggled_pairs::<M>(hash, run);
    let by_first = pairs_by_key(alloc, run, 0)?;
    let by_second = pairs_by_key(alloc, run, 1)?;
    let (first, second) = pair_maps(alloc, context, row)?;
    log.reserve()?;
    open_pairs(context, row, log);
    let one = replace_pair_map(alloc, context, change, &first, &by_first, log, interns)?;
    let two = replace_pair_map(alloc, context, change, &second, &by_second, log, interns)?;
    let node = pair_node::<M>(alloc, size, hash, one, two);
    store_pairs(context, node, log, interns)
}

/// The row of an edge, where nothing else leads to it.
fn own_row<M: Mix>(context: &Context<M>, edge: Option<Edge>) -> Option<usize>
    requires { FitsSome context.now 2 edge }
    ensures there { IfSome result (λ row. edge ≡ Some (Edge.Node row)) }
    ensures alone { IfSome result (λ row. count_of (row_of context.now 2 row) ≤ 1) }
    ensures others { IsNone result → (r : ℕ) → edge ≡ Some (Edge.Node r) → count_of (row_of context.now 2 r) ≢ 1 }
{
    let Some(Edge::Node(row)) = edge else {
        return None;
    };
    if context.tables().two.count(row) == 1 {
        Some(row)
    } else {
        None
    }
}

/// The edge for the pairs of an edge, changed by those behind the first key of the run: a row that nothing else leads to is
/// changed in place, and any other by copying, with its hold kept in the log. The old edge was in hand, and the new one is.
pub fn change_held_pairs<M: Mix, W: Ledger, V: Ledger>(
    alloc: Global,
    context: &mut Context<M>,
    change: Change,
    old: Option<Edge>,
    run: &[Trip],
    log: &mut Log,
    interns: &mut Steps<W>,
    retains: &mut Steps<V>,
) -> Result<Option<Edge>, Memory>
    requires run { MayChangeEdge change context.old 2 trip_rest old run.now }
    requires some { 1 ≤ length run.now }
    requires held { (r : ℕ) → option_leads old r ≤ holds_of context.old 2 r }
    requires room { LeavesRoom context.old (run_room run.now) }
    requires size { set.len (pairs_after change context.old old run.now) < 2 ^ 64 }
    ensures stands { IfOk result (StandsAt context.new 2 (pairs_after change context.old old run.now)) }
    ensures logged { IfOk result (ReplacesEdge M.mixed context.old context.new log.old log.new 2 old (run_room run.now)) }
    ensures grew { OnErr result (Grows M.mixed context.old context.new log.old.steps log.new.steps) }
    ensures ticks { interns.new ≤ interns.old + 3 * length run.now }
    ensures risen { IfOk result (λ e. HoldsRiseBy context.old context.new (edge_hold 2 e)) }
    ensures retained { RunRetains context.old old run.now retains.old retains.new }
{
    context.is_kept();
    match own_row(context, old) {
        Some(row) => reopen_pairs(alloc, context, change, row, run, log, interns),
        None => {
            log.reserve()?;
            let new = change_pairs(alloc, context, change, old, run, interns, retains)?;
            log.push(Step::Pairs(RowStep::Replaced(old, new)));
            Ok(new)
        }
    }
}
