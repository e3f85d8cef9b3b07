//! A graph grown and shrunk by a batch.
ghost use Rattle.std.specs.Prelude.{◌+◌, ◌*◌, ◌≤◌, OnOk, OnErr, length};
ghost use Rattle.trie_context.specs.Roots.{IsHeld};
ghost use Rattle.trie_change.specs.declared.change.Change.{Change};
ghost use Rattle.trie_update.specs.Changed.{MayChangeGraph, IsChanged, IsAsBefore};
ghost use Rattle.trie_update.specs.Retained.{ChangeRetains};

use crate::end::settle;
use crate::open::change_open;
use std::alloc::Global;
use std::sync::ledger::Ledger;
use trie_change::Change;
use trie_context::{Context, Root};
use trie_depth::{Memory, Mix, Steps, Trip};

/// The graph changed by the batch.
fn update<M: Mix, W: Ledger, V: Ledger>(
    alloc: Global,
    context: &mut Context<M>,
    change: Change,
    root: &mut Root,
    batch: &[Trip],
    interns: &mut Steps<W>,
    retains: &mut Steps<V>,
) -> Result<(), Memory>
    requires { MayChangeGraph change context.old root.old batch.now }
    ensures held { IsHeld context.new root.new }
    ensures changed { OnOk result (IsChanged change M.mixed context.old context.new root.old root.new batch.now) }
    ensures kept { OnErr result (IsAsBefore context.old context.new root.old root.new) }
    ensures ticks { interns.new ≤ interns.old + (9 * length batch.now + 10) }
    ensures retained { ChangeRetains change context.old root.old batch.now retains.old retains.new }
{
    context.is_kept();
    let undo = change_open(alloc, context, change, root, batch, interns, retains)?;
    settle(context, undo);
    Ok(())
}

/// Puts a batch of new triples into a graph. For want of memory nothing is changed.
pub fn grow<M: Mix, W: Ledger, V: Ledger>(
    alloc: Global,
    context: &mut Context<M>,
    root: &mut Root,
    batch: &[Trip],
    interns: &mut Steps<W>,
    retains: &mut Steps<V>,
) -> Result<(), Memory>
    requires { MayChangeGraph Change.Grow context.old root.old batch.now }
    ensures held { IsHeld context.new root.new }
    ensures changed { OnOk result (IsChanged Change.Grow M.mixed context.old context.new root.old root.new batch.now) }
    ensures kept { OnErr result (IsAsBefore context.old context.new root.old root.new) }
    ensures ticks { interns.new ≤ interns.old + (9 * length batch.now + 10) }
    ensures retained { ChangeRetains Change.Grow context.old root.old batch.now retains.old retains.new }
{
    update(alloc, context, Change::Grow, root, batch, interns, retains)
}

/// Takes a batch of triples that are there out of a graph. For want of memory nothing is changed.
pub fn shrink<M: Mix, W: Ledger, V: Ledger>(
    alloc: Global,
    context: &mut Context<M>,
    root: &mut Root,
    batch: &[Trip],
    interns: &mut Steps<W>,
    retains: &mut Steps<V>,
) -> Result<(), Memory>
    requires { MayChangeGraph Change.Shrink context.old root.old batch.now }
    ensures held { IsHeld context.new root.new }
    ensures changed { OnOk result (IsChanged Change.Shrink M.mixed context.old context.new root.old root.new batch.now) }
    ensures kept { OnErr result (IsAsBefore context.old context.new root.old root.new) }
    ensures ticks { interns.new ≤ interns.old + (9 * length batch.now + 10) }
    ensures retained { ChangeRetains Change.Shrink context.old root.old batch.now retains.old retains.new }
{
    update(
        alloc,
        context,
        Change::Shrink,
        root,
        batch,
        interns,
        retains,
    )
}
