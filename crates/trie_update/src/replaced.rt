//! The root of a graph replaced by that of the changed graph.
ghost use Rattle.std.specs.Prelude.{◌≡◌, ◌+◌, ◌*◌, ◌<◌, ◌≤◌, ◌^◌, ℕ, IsNone, IfSome, IfOk, OnErr, length};
ghost use Rattle.std.specs.FinSet as set;
ghost use Rattle.trie_context.specs.declared.root.Root.{Root};
ghost use Rattle.trie_context.specs.Holds.{count_of};
ghost use Rattle.trie_context.specs.Roots.{root_set, root_hold, IsHeld};
ghost use Rattle.trie_context.specs.Rows.{row_of, set_of};
ghost use Rattle.change_log.specs.Log.{edge_hold, Grows};
ghost use Rattle.trie_change.specs.After.{graph_after};
ghost use Rattle.trie_update.specs.Changed.{MayChangeGraph};
ghost use Rattle.trie_update.specs.Opened.{ReplacesRoot};
ghost use Rattle.trie_update.specs.Retained.{ChangeRetains, IsSmall};

use change_log::{Log, RowStep, Step};
use edge_map::Edge;
use std::alloc::Global;
use std::sync::ledger::Ledger;
use trie_change::{Change, change_graph, triple_figures};
use trie_context::{Context, Root};
use trie_depth::{Memory, Mix, Steps, Trip};
use trie_reopen::reopen_triples;

/// The hold of a root as that of an edge.
fn root_edge(root: &Root) -> Option<Edge>
    ensures { (d r : ℕ) → edge_hold 3 result d r ≡ root_hold root.now d r }
{
    match root {
        Root::Many(held) => Some(Edge::Node(held.row())),
        Root::Empty | Root::One(_) => None,
    }
}

/// The root's row, where it has one hold and more than twice as many triples as the batch. Else a copy costs no more.
fn row_to_open<M: Mix>(context: &Context<M>, root: &Root, batch: usize) -> Option<usize>
    requires held { IsHeld context.now root.now }
    ensures there { IfSome result (λ row. root.now ≡ Root.Many row) }
    ensures alone { IfSome result (λ row. count_of (row_of context.now 3 row) ≤ 1) }
    ensures large { IfSome result (λ row. 2 * batch + 2 ≤ set.len (set_of context.now 3 row)) }
    ensures small { IsNone result → IsSmall context.now root.now batch }
{
    let Root::Many(held) = root else {
        return None;
    };
    let row = held.row();
    let (size, _) = triple_figures(context, Some(row));
    if context.tables().three.count(row) == 1 && size / 2 > batch as u64 {
        Some(row)
    } else {
        None
    }
}

/// The root of the graph changed by the batch. The old root's hold was in hand, and the new one's is.
pub fn replace_root<M: Mix, W: Ledger, V: Ledger>(
    alloc: Global,
    context: &mut Context<M>,
    change: Change,
    root: &Root,
    batch: &[Trip],
    log: &mut Log,
    interns: &mut Steps<W>,
    retains: &mut Steps<V>,
) -> Result<Root, Memory>
    requires { MayChangeGraph change context.old root.now batch.now }
    ensures set { IfOk result (λ new. root_set context.new new ≡ graph_after change context.old root.now batch.now) }
    ensures logged { IfOk result (ReplacesRoot M.mixed context.old context.new log.old log.new root.now) }
    ensures grew { OnErr result (Grows M.mixed context.old context.new log.old.steps log.new.steps) }
    ensures ticks { interns.new ≤ interns.old + (9 * length batch.now + 10) }
    ensures retained { ChangeRetains change context.old root.now batch.now retains.old retains.new }
{
    context.is_kept();
    match row_to_open(context, root, batch.len()) {
        Some(row) => reopen_triples(alloc, context, change, row, batch, log, interns, retains),
        None => {
            log.reserve()?;
            let new = change_graph(alloc, context, change, root, batch, interns, retains)?;
            log.push(Step::Triples(RowStep::Replaced(root_edge(root), root_edge(&new))));
            Ok(new)
        }
    }
}
