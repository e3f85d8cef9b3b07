//! A key set changed, with the old one kept in the log.
ghost use Rattle.std.specs.Prelude.{◌≡◌, ◌+◌, ◌≤◌, ℕ, IfOk, OnOk, OnErr, IsTrue};
ghost use Rattle.change_log.specs.Log.{Grows};
ghost use Rattle.trie_context.specs.FitEdges.{StandsAt, option_leads};
ghost use Rattle.trie_change.specs.After.{keys_after};
ghost use Rattle.trie_change.specs.Batches.{pair_rest};
ghost use Rattle.trie_change.specs.Premises.{MayChangeEdge};
ghost use Rattle.trie_change.specs.Rooms.{LeavesRoom};
ghost use Rattle.trie_context.specs.Holds.{nothing};
ghost use Rattle.trie_reopen.specs.Shared.{HoldsRiseBy};
ghost use Rattle.trie_reopen.specs.Named.{ReplacesEdge};

use change_log::{Log, RowStep, Step};
use edge_map::Edge;
use std::alloc::Global;
use std::sync::ledger::Ledger;
use trie_change::{Change, change_keys};
use trie_context::Context;
use trie_depth::{Memory, Mix, Pair, Steps};

/// Whether the edge leads to no row.
fn leads_nowhere(edge: Option<Edge>) -> bool
    ensures { IsTrue result → (r : ℕ) → option_leads edge r ≡ 0 }
{
    match edge {
        Some(Edge::Node(_)) => false,
        Some(Edge::Key(_)) | None => true,
    }
}

/// The edge for the keys of an edge, changed by those behind the first of the run. The hold of the old edge is kept in
/// the log, and the new one's is in hand. Single keys hold nothing, and are not logged.
pub fn replace_keys<M: Mix, W: Ledger>(
    alloc: Global,
    context: &mut Context<M>,
    change: Change,
    old: Option<Edge>,
    run: &[Pair],
    log: &mut Log,
    interns: &mut Steps<W>,
) -> Result<Option<Edge>, Memory>
    requires run { MayChangeEdge change context.old 1 pair_rest old run.now }
    requires room { LeavesRoom context.old 1 }
    ensures stands { IfOk result (StandsAt context.new 1 (keys_after change context.old old run.now)) }
    ensures logged { IfOk result (ReplacesEdge M.mixed context.old context.new log.old log.new 1 old 1) }
    ensures grew { OnErr result (Grows M.mixed context.old context.new log.old.steps log.new.steps) }
    ensures ticks { interns.new ≤ interns.old + 1 }
    ensures risen { OnOk result (HoldsRiseBy context.old context.new nothing) }
{
    context.is_kept();
    log.reserve()?;
    let new = change_keys(alloc, context, change, old, run, interns)?;
    if leads_nowhere(old) && leads_nowhere(new) {
        return Ok(new);
    }
    log.push(Step::Keys(RowStep::Replaced(old, new)));
    Ok(new)
}
