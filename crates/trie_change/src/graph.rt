//! A graph changed by a batch, by copying.
ghost use Rattle.std.specs.Prelude.{◌≡◌, ◌+◌, ◌*◌, ◌<◌, ◌≤◌, ◌^◌, IfOk, OnErr, length};
ghost use Rattle.std.specs.Ordering.{nat_cmp};
ghost use Rattle.std.specs.FinSet as set;
ghost use Rattle.hypertrie_model.specs.Changes.{IsChange};
ghost use Rattle.hypertrie_model.specs.Sets.{single};
ghost use Rattle.trie_depth.specs.Tuples.{trip_tuple};
ghost use Rattle.trie_context.specs.Roots.{root_set, root_hold, IsHeld};
ghost use Rattle.trie_change.specs.After.{triples_of, one_after, graph_after, one_room};
ghost use Rattle.trie_change.specs.InHand.{IsInHand};
ghost use Rattle.trie_change.specs.Batches.{IsOnce};
ghost use Rattle.trie_change.specs.Changes.{grows};
ghost use Rattle.trie_change.specs.Rooms.{LeavesRoom, CountsUpTo};

use crate::change::Change;
use crate::triples::change_root;
use std::alloc::Global;
use std::sync::ledger::Ledger;
use trie_context::{Context, Root};
use trie_depth::{Memory, Mix, Steps, Trip};

/// The root of a graph of one triple, changed by the batch. Its hold is in hand.
fn change_one<M: Mix, W: Ledger, V: Ledger>(
    alloc: Global,
    context: &mut Context<M>,
    change: Change,
    triple: Trip,
    batch: &[Trip],
    interns: &mut Steps<W>,
    retains: &mut Steps<V>,
) -> Result<Root, Memory>
    requires once { IsOnce trip_tuple batch.now }
    requires change { IsChange (grows change) (single nat_cmp (trip_tuple triple)) (triples_of batch.now) }
    requires size { length batch.now < 2 ^ 63 }
    requires room { LeavesRoom context.old (one_room batch.now) }
    ensures set { IfOk result (λ root. root_set context.new root ≡ one_after change triple batch.now) }
    ensures held { IfOk result (λ r. IsInHand M.mixed context.old context.new (root_hold r) (one_room batch.now)) }
    ensures kept { OnErr result (context.new ≡ context.old) }
    ensures ticks { interns.new ≤ interns.old + (9 * length batch.now + 10) }
    ensures retained { retains.new ≤ retains.old + 9 * (length batch.now + 1) }
{
    context.is_kept();
    match change {
        Change::Shrink if batch.is_empty() => Ok(Root::One(triple)),
        Change::Shrink => Ok(Root::Empty),
        Change::Grow => {
            let mut all = Vec::with_capacity(alloc, batch.len() + 1)?;
            all.extend_from_slice(batch)?;
            all.push(triple)?;
            change_root(alloc, context, change, None, &all, interns, retains)
        }
    }
}

/// The root of a graph changed by the batch. Its hold is in hand, beside that of the old root.
pub fn change_graph<M: Mix, W: Ledger, V: Ledger>(
    alloc: Global,
    context: &mut Context<M>,
    change: Change,
    root: &Root,
    batch: &[Trip],
    interns: &mut Steps<W>,
    retains: &mut Steps<V>,
) -> Result<Root, Memory>
    requires held { IsHeld context.old root.now }
    requires once { IsOnce trip_tuple batch.now }
    requires change { IsChange (grows change) (root_set context.old root.now) (triples_of batch.now) }
    requires counts { CountsUpTo context.old (2 ^ 96) }
    requires size { set.len (root_set context.old root.now) ≤ 536870912 }
    requires batch { length batch.now ≤ 536870912 }
    ensures set { IfOk result (λ new. root_set context.new new ≡ graph_after change context.old root.now batch.now) }
    ensures held { IfOk result (λ new. IsInHand M.mixed context.old context.new (root_hold new) (2 ^ 65)) }
    ensures kept { OnErr result (context.new ≡ context.old) }
    ensures ticks { interns.new ≤ interns.old + (9 * length batch.now + 10) }
    ensures retained { retains.new ≤ retains.old + 9 * (set.len (root_set context.old root.now) + length batch.now) }
{
    match root {
        Root::Empty => change_root(alloc, context, change, None, batch, interns, retains),
        Root::One(triple) => change_one(alloc, context, change, *triple, batch, interns, retains),
        Root::Many(held) => {
            let row = held.row();
            change_root(alloc, context, change, Some(row), batch, interns, retains)
        }
    }
}
