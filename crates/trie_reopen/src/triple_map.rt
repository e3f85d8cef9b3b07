//! A map of edges to pairs changed, with the old edges kept in the log.
ghost use Rattle.std.specs.Prelude.{◌≡◌, ◌+◌, ◌*◌, ◌≤◌, ℕ, [], IfOk, OnOk, OnErr, length};
ghost use Rattle.change_log.specs.Log.{Grows};
ghost use Rattle.edge_map.specs.Edges.{changed};
ghost use Rattle.edge_map.specs.Entries.{KeysRise};
ghost use Rattle.trie_depth.specs.Tuples.{trip_tuple};
ghost use Rattle.trie_node.specs.Sets.{edges_in};
ghost use Rattle.trie_context.specs.Holds.{holds_of};
ghost use Rattle.trie_change.specs.After.{run_room, triples_of};
ghost use Rattle.trie_change.specs.Premises.{MayChangeMap};
ghost use Rattle.trie_change.specs.Rooms.{LeavesRoom, AreChanged, AreSmallAfter};
ghost use Rattle.trie_change.specs.Named.{AreTriplesChanged};
ghost use Rattle.trie_reopen.specs.Named.{LogRows, MapRetains, ReplacesTriples, StayShared};

use crate::reopened::change_held_pairs;
use change_log::Log;
use edge_map::{Edge, EdgeMap};
use std::alloc::Global;
use std::sync::ledger::Ledger;
use trie_change::{Change, triple_run};
use trie_context::Context;
use trie_depth::{Id, Memory, Mix, Steps, Trip};

/// What each run of triples makes of the edge under its first key. The old map's edges were in hand, and those of the
/// changed map are.
fn replace_rows<M: Mix, W: Ledger, V: Ledger>(
    alloc: Global,
    context: &mut Context<M>,
    change: Change,
    old: &EdgeMap,
    triples: &[Trip],
    changes: &mut Vec<(Id, Option<Edge>)>,
    log: &mut Log,
    interns: &mut Steps<W>,
    retains: &mut Steps<V>,
) -> Result<(), Memory>
    requires none { changes.old.items ≡ [] }
    requires entries { MayChangeMap change context.old 2 trip_tuple old.now triples.now }
    requires size { AreSmallAfter change context.old 2 old.now (triples_of triples.now) }
    requires held { (r : ℕ) → edges_in old.now r ≤ holds_of context.old 2 r }
    requires room { LeavesRoom context.old (run_room triples.now) }
    ensures rise { OnOk result (KeysRise changes.new.items) }
    ensures changed { OnOk result (AreTriplesChanged change context.old context.new old.now triples.now changes.new.items) }
    ensures logged { OnOk result (LogRows M.mixed context.old context.new log.old log.new old.now triples.now changes.new.items) }
    ensures grew { OnErr result (Grows M.mixed context.old context.new log.old.steps log.new.steps) }
    ensures ticks { interns.new ≤ interns.old + 3 * length triples.now }
    ensures shared { OnOk result (StayShared change context.old context.new old.now triples.now) }
    ensures retained { MapRetains change context.old old.now triples.now retains.old retains.new }
{
    context.is_kept();
    let mut rest = triples;
    while let Some(first) = rest.first() {
        let key = first.0;
        let (run, others) = rest.split_at(triple_run(rest, key));
        changes.reserve(1)?;
        let edge = change_held_pairs(
            alloc,
            context,
            change,
            old.get(key),
            run,
            log,
            interns,
            retains,
        )?;
        changes.push_reserved((key, edge));
        rest = others;
    }
    Ok(())
}

/// The map with the edge under the first key of each triple changed by what is behind it. The old map's edges were in hand,
/// and the new one's are. The triples are let go before it is made.
pub fn replace_triple_map<M: Mix, W: Ledger, V: Ledger>(
    alloc: Global,
    context: &mut Context<M>,
    change: Change,
    old: &EdgeMap,
    triples: Vec<Trip>,
    log: &mut Log,
    interns: &mut Steps<W>,
    retains: &mut Steps<V>,
) -> Result<EdgeMap, Memory>
    requires entries { MayChangeMap change context.old 2 trip_tuple old.now triples.items }
    requires size { AreSmallAfter change context.old 2 old.now (triples_of triples.items) }
    requires held { (r : ℕ) → edges_in old.now r ≤ holds_of context.old 2 r }
    requires room { LeavesRoom context.old (run_room triples.items) }
    ensures changed { IfOk result (AreChanged change context.old context.new 2 old.now (triples_of triples.items)) }
    ensures logged { IfOk result (ReplacesTriples M.mixed context.old context.new log.old log.new old.now triples.items) }
    ensures grew { OnErr result (Grows M.mixed context.old context.new log.old.steps log.new.steps) }
    ensures ticks { interns.new ≤ interns.old + 3 * length triples.items }
    ensures shared { OnOk result (StayShared change context.old context.new old.now triples.items) }
    ensures retained { MapRetains change context.old old.now triples.items retains.old retains.new }
{
    let mut changes = Vec::new(alloc);
    replace_rows(
        alloc,
        context,
        change,
        old,
        &triples,
        &mut changes,
        log,
        interns,
        retains,
    )?;
    drop(triples);
    old.with(&changes)
}
