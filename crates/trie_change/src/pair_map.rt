//! A map of a node of depth two changed.
ghost use Rattle.std.specs.Prelude.{◌≡◌, ◌+◌, ◌≤◌, [], IfOk, OnOk, OnErr, length};
ghost use Rattle.std.specs.FinMap as map;
ghost use Rattle.edge_map.specs.Entries.{KeysRise};
ghost use Rattle.edge_map.specs.Edges.{changed};
ghost use Rattle.trie_depth.specs.Tuples.{pair_tuple};
ghost use Rattle.trie_change.specs.After.{pairs_of, map_hold, changes_hold, keys_room};
ghost use Rattle.trie_change.specs.InHand.{IsInHand};
ghost use Rattle.trie_change.specs.Premises.{MayChangeMap};
ghost use Rattle.trie_change.specs.Rooms.{LeavesRoom, AreChanged};
ghost use Rattle.trie_change.specs.Named.{ArePairsChanged};

use crate::change::Change;
use crate::hand::{Changes, release_changes};
use crate::keys::change_keys;
use crate::levels::{changed_map, each_run};
use crate::runs::pair_run;
use edge_map::EdgeMap;
use std::alloc::Global;
use std::sync::ledger::Ledger;
use trie_context::Context;
use trie_depth::{L2, Memory, Mix, Pair, Steps};

/// What each run of pairs makes of the edge under its first key. Whatever the answer, the edges of the changes are in hand.
fn pair_changes<M: Mix, W: Ledger>(
    alloc: Global,
    context: &mut Context<M>,
    change: Change,
    old: &EdgeMap,
    pairs: &[Pair],
    changes: &mut Changes,
    interns: &mut Steps<W>,
) -> Result<(), Memory>
    requires none { changes.old.items ≡ [] }
    requires entries { MayChangeMap change context.old 1 pair_tuple old.now pairs.now }
    requires room { LeavesRoom context.old (length pairs.now) }
    ensures rise { KeysRise changes.new.items }
    ensures changed { OnOk result (ArePairsChanged change context.old context.new old.now pairs.now changes.new.items) }
    ensures held { IsInHand M.mixed context.old context.new (changes_hold 1 changes.new.items) (length pairs.now) }
    ensures ticks { interns.new ≤ interns.old + length pairs.now }
{
    context.is_kept();
    each_run!(pairs, changes, pair_run, (key, run) => {
        change_keys::<M, W>(alloc, context, change, old.get(key), run, interns)
    })
}

/// The map of a node of depth two with the edge under the first key of each pair changed by the second keys. The new
/// map's edges are in hand.
pub fn change_pair_map<M: Mix, W: Ledger, V: Ledger>(
    alloc: Global,
    context: &mut Context<M>,
    change: Change,
    old: &EdgeMap,
    pairs: &[Pair],
    interns: &mut Steps<W>,
    retains: &mut Steps<V>,
) -> Result<EdgeMap, Memory>
    requires entries { MayChangeMap change context.old 1 pair_tuple old.now pairs.now }
    requires room { LeavesRoom context.old (keys_room pairs.now) }
    ensures changed { IfOk result (AreChanged change context.old context.new 1 old.now (pairs_of pairs.now)) }
    ensures held { IfOk result (λ m. IsInHand M.mixed context.old context.new (map_hold 1 m) (keys_room pairs.now)) }
    ensures kept { OnErr result (context.new ≡ context.old) }
    ensures ticks { interns.new ≤ interns.old + length pairs.now }
    ensures retained { IfOk result (λ m. retains.new ≡ retains.old + map.len m) }
    ensures unretained { OnErr result (retains.new ≡ retains.old) }
{
    context.is_kept();
    let mut changes = Vec::new(alloc);
    changed_map!(
        context,
        L2,
        old,
        changes,
        pair_changes(alloc, context, change, old, pairs, &mut changes, interns),
        retains
    )
}
