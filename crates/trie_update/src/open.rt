//! A graph changed, with what was replaced kept.
ghost use Rattle.std.specs.Prelude.{◌+◌, ◌*◌, ◌≤◌, IfOk, OnErr, length};
ghost use Rattle.trie_change.specs.declared.change.Change.{Change};
ghost use Rattle.trie_update.specs.Changed.{MayChangeGraph, IsOpen, IsAsBefore};
ghost use Rattle.trie_update.specs.Retained.{ChangeRetains};

use crate::kept::Undo;
use crate::replaced::replace_root;
use change_log::Log;
use std::alloc::Global;
use std::mem;
use std::sync::ledger::Ledger;
use trie_change::Change;
use trie_context::{Context, Root};
use trie_depth::{Memory, Mix, Steps, Trip};

/// The graph changed by the batch. For want of memory nothing is changed.
pub fn change_open<M: Mix, W: Ledger, V: Ledger>(
    alloc: Global,
    context: &mut Context<M>,
    change: Change,
    root: &mut Root,
    batch: &[Trip],
    interns: &mut Steps<W>,
    retains: &mut Steps<V>,
) -> Result<Undo, Memory>
    requires { MayChangeGraph change context.old root.old batch.now }
    ensures open { IfOk result (IsOpen change M.mixed context.old context.new root.old root.new batch.now) }
    ensures kept { OnErr result (IsAsBefore context.old context.new root.old root.new) }
    ensures ticks { interns.new ≤ interns.old + (9 * length batch.now + 10) }
    ensures retained { ChangeRetains change context.old root.old batch.now retains.old retains.new }
{
    context.is_kept();
    let mut log = Log::new(alloc);
    match replace_root(
        alloc, context, change, root, batch, &mut log, interns, retains,
    ) {
        Ok(new) => {
            let was = mem::replace(root, new);
            Ok(Undo { was, log })
        }
        Err(memory) => {
            log.undo(context);
            Err(memory)
        }
    }
}

/// Puts a batch of new triples into a graph, and keeps what it replaces. For want of memory nothing is changed.
pub fn grow_open<M: Mix, W: Ledger, V: Ledger>(
    alloc: Global,
    context: &mut Context<M>,
    root: &mut Root,
    batch: &[Trip],
    interns: &mut Steps<W>,
    retains: &mut Steps<V>,
) -> Result<Undo, Memory>
    requires { MayChangeGraph Change.Grow context.old root.old batch.now }
    ensures open { IfOk result (IsOpen Change.Grow M.mixed context.old context.new root.old root.new batch.now) }
    ensures kept { OnErr result (IsAsBefore context.old context.new root.old root.new) }
    ensures ticks { interns.new ≤ interns.old + (9 * length batch.now + 10) }
    ensures retained { ChangeRetains Change.Grow context.old root.old batch.now retains.old retains.new }
{
    change_open(alloc, context, Change::Grow, root, batch, interns, retains)
}

/// Takes a batch of triples that are there out of a graph, and keeps what it replaces. For want of memory nothing is changed.
pub fn shrink_open<M: Mix, W: Ledger, V: Ledger>(
    alloc: Global,
    context: &mut Context<M>,
    root: &mut Root,
    batch: &[Trip],
    interns: &mut Steps<W>,
    retains: &mut Steps<V>,
) -> Result<Undo, Memory>
    requires { MayChangeGraph Change.Shrink context.old root.old batch.now }
    ensures open { IfOk result (IsOpen Change.Shrink M.mixed context.old context.new root.old root.new batch.now) }
    ensures kept { OnErr result (IsAsBefore context.old context.new root.old root.new) }
    ensures ticks { interns.new ≤ interns.old + (9 * length batch.now + 10) }
    ensures retained { ChangeRetains Change.Shrink context.old root.old batch.now retains.old retains.new }
{
    change_open(
        alloc,
        context,
        Change::Shrink,
        root,
        batch,
        interns,
        retains,
    )
}
