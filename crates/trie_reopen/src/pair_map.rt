//! A map of edges to key sets changed, with the old edges kept in the log.
ghost use Rattle.std.specs.Prelude.{◌≡◌, ◌+◌, ◌≤◌, ℕ, [], IfOk, OnOk, OnErr, length};
ghost use Rattle.change_log.specs.Log.{Grows};
ghost use Rattle.edge_map.specs.Edges.{changed};
ghost use Rattle.edge_map.specs.Entries.{KeysRise};
ghost use Rattle.trie_depth.specs.Tuples.{pair_tuple};
ghost use Rattle.trie_node.specs.Sets.{edges_in};
ghost use Rattle.trie_context.specs.Holds.{holds_of, nothing};
ghost use Rattle.trie_change.specs.After.{pairs_of};
ghost use Rattle.trie_change.specs.Premises.{MayChangeMap};
ghost use Rattle.trie_change.specs.Rooms.{LeavesRoom, AreChanged};
ghost use Rattle.trie_reopen.specs.Shared.{HoldsRiseBy};
ghost use Rattle.trie_change.specs.Named.{ArePairsChanged};
ghost use Rattle.trie_reopen.specs.Named.{LogPairs, ReplacesPairs};

use crate::keys::replace_keys;
use change_log::Log;
use edge_map::{Edge, EdgeMap};
use std::alloc::Global;
use std::sync::ledger::Ledger;
use trie_change::{Change, pair_run};
use trie_context::Context;
use trie_depth::{Id, Memory, Mix, Pair, Steps};

/// What each run of pairs makes of the edge under its first key. The old map's edges were in hand, and those of the changed
/// map are.
pub fn replace_each<M: Mix, W: Ledger>(
    alloc: Global,
    context: &mut Context<M>,
    change: Change,
    old: &EdgeMap,
    pairs: &[Pair],
    changes: &mut Vec<(Id, Option<Edge>)>,
    log: &mut Log,
    interns: &mut Steps<W>,
) -> Result<(), Memory>
    requires none { changes.old.items ≡ [] }
    requires entries { MayChangeMap change context.old 1 pair_tuple old.now pairs.now }
    requires held { (r : ℕ) → edges_in old.now r ≤ holds_of context.old 1 r }
    requires room { LeavesRoom context.old (length pairs.now) }
    ensures rise { OnOk result (KeysRise changes.new.items) }
    ensures changed { OnOk result (ArePairsChanged change context.old context.new old.now pairs.now changes.new.items) }
    ensures logged { OnOk result (LogPairs M.mixed context.old context.new log.old log.new old.now pairs.now changes.new.items) }
    ensures grew { OnErr result (Grows M.mixed context.old context.new log.old.steps log.new.steps) }
    ensures ticks { interns.new ≤ interns.old + length pairs.now }
    ensures risen { OnOk result (HoldsRiseBy context.old context.new nothing) }
{
    context.is_kept();
    let mut rest = pairs;
    while let Some(first) = rest.first() {
        let key = first.0;
        let (run, others) = rest.split_at(pair_run(rest, key));
        changes.reserve(1)?;
        let edge = replace_keys(alloc, context, change, old.get(key), run, log, interns)?;
        changes.push_reserved((key, edge));
        rest = others;
    }
    Ok(())
}

/// The map with the edge under the first key of each pair changed by the second keys. The old map's edges were in hand, and
/// the new one's are.
pub fn replace_pair_map<M: Mix, W: Ledger>(
    alloc: Global,
    context: &mut Context<M>,
    change: Change,
    old: &EdgeMap,
    pairs: &[Pair],
    log: &mut Log,
    interns: &mut Steps<W>,
) -> Result<EdgeMap, Memory>
    requires entries { MayChangeMap change context.old 1 pair_tuple old.now pairs.now }
    requires held { (r : ℕ) → edges_in old.now r ≤ holds_of context.old 1 r }
    requires room { LeavesRoom context.old (length pairs.now) }
    ensures changed { IfOk result (AreChanged change context.old context.new 1 old.now (pairs_of pairs.now)) }
    ensures logged { IfOk result (ReplacesPairs M.mixed context.old context.new log.old log.new old.now pairs.now) }
    ensures grew { OnErr result (Grows M.mixed context.old context.new log.old.steps log.new.steps) }
    ensures ticks { interns.new ≤ interns.old + length pairs.now }
    ensures risen { OnOk result (HoldsRiseBy context.old context.new nothing) }
{
    let mut changes = Vec::new(alloc);
    replace_each(
        alloc,
        context,
        change,
        old,
        pairs,
        &mut changes,
        log,
        interns,
    )?;
    old.with(&changes)
}
