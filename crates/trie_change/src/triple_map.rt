//! A map of a node of depth three changed.
ghost use Rattle.std.specs.Prelude.{◌≡◌, ◌+◌, ◌*◌, ◌≤◌, [], IfOk, OnOk, OnErr, length};
ghost use Rattle.std.specs.FinMap as map;
ghost use Rattle.edge_map.specs.Entries.{KeysRise};
ghost use Rattle.edge_map.specs.Edges.{changed};
ghost use Rattle.trie_depth.specs.Tuples.{trip_tuple};
ghost use Rattle.trie_change.specs.After.{triples_of, map_hold, changes_hold, run_room, map_room, runs_copied};
ghost use Rattle.trie_change.specs.InHand.{IsInHand};
ghost use Rattle.trie_change.specs.Premises.{MayChangeMap};
ghost use Rattle.trie_change.specs.Rooms.{LeavesRoom, AreChanged, AreSmallAfter};
ghost use Rattle.trie_change.specs.Named.{AreTriplesChanged, map_retains};

use crate::change::Change;
use crate::hand::{Changes, release_changes};
use crate::levels::{changed_map, each_run};
use crate::pairs::change_pairs;
use crate::runs::triple_run;
use edge_map::EdgeMap;
use std::alloc::Global;
use std::sync::ledger::Ledger;
use trie_context::Context;
use trie_depth::{L3, Memory, Mix, Steps, Trip};

/// What each run of triples makes of the edge under its first key. Whatever the answer, the edges of the changes are in hand.
fn triple_changes<M: Mix, W: Ledger, V: Ledger>(
    alloc: Global,
    context: &mut Context<M>,
    change: Change,
    old: &EdgeMap,
    triples: &[Trip],
    changes: &mut Changes,
    interns: &mut Steps<W>,
    retains: &mut Steps<V>,
) -> Result<(), Memory>
    requires none { changes.old.items ≡ [] }
    requires entries { MayChangeMap change context.old 2 trip_tuple old.now triples.now }
    requires size { AreSmallAfter change context.old 2 old.now (triples_of triples.now) }
    requires room { LeavesRoom context.old (run_room triples.now) }
    ensures rise { KeysRise changes.new.items }
    ensures changed { OnOk result (AreTriplesChanged change context.old context.new old.now triples.now changes.new.items) }
    ensures held { IsInHand M.mixed context.old context.new (changes_hold 2 changes.new.items) (run_room triples.now) }
    ensures ticks { interns.new ≤ interns.old + 3 * length triples.now }
    ensures retained { retains.new ≤ retains.old + runs_copied context.old old.now triples.now }
{
    context.is_kept();
    each_run!(triples, changes, triple_run, (key, run) => {
        change_pairs::<M, W, V>(alloc, context, change, old.get(key), run, interns, retains)
    })
}

/// The map of a node of depth three with the edge under the first key of each triple changed by what is behind it. The new
/// map's edges are in hand. The triples are let go before it is made.
pub fn change_triple_map<M: Mix, W: Ledger, V: Ledger>(
    alloc: Global,
    context: &mut Context<M>,
    change: Change,
    old: &EdgeMap,
    triples: Vec<Trip>,
    interns: &mut Steps<W>,
    retains: &mut Steps<V>,
) -> Result<EdgeMap, Memory>
    requires entries { MayChangeMap change context.old 2 trip_tuple old.now triples.items }
    requires size { AreSmallAfter change context.old 2 old.now (triples_of triples.items) }
    requires room { LeavesRoom context.old (map_room triples.items) }
    ensures changed { IfOk result (AreChanged change context.old context.new 2 old.now (triples_of triples.items)) }
    ensures held { IfOk result (λ m. IsInHand M.mixed context.old context.new (map_hold 2 m) (map_room triples.items)) }
    ensures kept { OnErr result (context.new ≡ context.old) }
    ensures ticks { interns.new ≤ interns.old + 3 * length triples.items }
    ensures retained { IfOk result (λ m. retains.new ≤ retains.old + map_retains context.old old.now triples.items m) }
    ensures few { OnErr result (retains.new ≤ retains.old + runs_copied context.old old.now triples.items) }
{
    context.is_kept();
    let mut changes = Vec::new(alloc);
    let made = triple_changes(
        alloc,
        context,
        change,
        old,
        &triples,
        &mut changes,
        interns,
        retains,
    );
    drop(triples);
    changed_map!(context, L3, old, changes, made, retains)
}
