//! The row of a graph: taken out with its edges in hand, and stored again as another.
ghost use Rattle.std.specs.Prelude.{◌≡◌, ◌+◌, ◌≤◌, ◌<◌, ℕ, IfOk, OnErr};
ghost use Rattle.change_log.specs.Log.{Grows};
ghost use Rattle.trie_node.specs.declared.node.Node.{Node};
ghost use Rattle.trie_node.specs.Sets.{edges_of};
ghost use Rattle.trie_context.specs.Holds.{count_of, holds_of};
ghost use Rattle.trie_context.specs.Kept.{IsNode};
ghost use Rattle.trie_context.specs.Roots.{root_set};
ghost use Rattle.trie_context.specs.Rows.{row_of, set_of, node_set};
ghost use Rattle.trie_change.specs.Rooms.{LeavesRoom};
ghost use Rattle.trie_reopen.specs.Named.{HoldsAreOpened, OpensTriples, StoresTriples};

use change_log::{Log, RowStep, Step};
use edge_map::Edge;
use std::sync::ledger::Ledger;
use trie_context::{Context, Held, Kept, Root};
use trie_depth::{L3, Memory, Mix, Steps};
use trie_node::Node;

/// Takes the row out of its table, and logs it. Its edges are in hand.
pub fn open_triples<M: Mix>(context: &mut Context<M>, row: usize, log: &mut Log)
    requires held { 1 ≤ holds_of context.old 3 row }
    requires alone { count_of (row_of context.old 3 row) ≤ 1 }
    requires room { 0 < log.old.spare }
    ensures opened { OpensTriples M.mixed context.old context.new log.old log.new row }
    ensures below { (r : ℕ) → set_of context.new 2 r ≡ set_of context.old 2 r }
    ensures holds { HoldsAreOpened context.old context.new row }
{
    context.is_kept();
    match context.open(Held::<L3>::of_edge(Edge::Node(row))) {
        Ok((node, place)) => log.push(Step::Triples(RowStep::Opened(place, node))),
        Err(_) => unreachable!(),
    }
}

/// The root of a changed node, whose row is made or found. The node's edges were in hand.
pub fn store_triples<M: Mix, W: Ledger>(
    context: &mut Context<M>,
    node: Node,
    log: &mut Log,
    interns: &mut Steps<W>,
) -> Result<Root, Memory>
    requires form { IsNode M.mixed 3 (set_of context.old 2) node }
    requires held { (r : ℕ) → edges_of node r ≤ holds_of context.old 2 r }
    requires room { LeavesRoom context.old 1 }
    ensures set { IfOk result (λ root. root_set context.new root ≡ node_set 3 (set_of context.old 2) node) }
    ensures logged { IfOk result (StoresTriples M.mixed context.old context.new log.old log.new node) }
    ensures grew { OnErr result (Grows M.mixed context.old context.new log.old.steps log.new.steps) }
    ensures ticks { interns.new ≤ interns.old + 1 }
{
    context.is_kept();
    log.reserve()?;
    match context.intern_or_keep::<L3, W>(node, interns) {
        Ok(Kept::Made(held)) => {
            log.push(Step::Triples(RowStep::Made(held.row())));
            Ok(Root::Many(held))
        }
        Ok(Kept::Found(held, same)) => {
            log.push(Step::Triples(RowStep::Found(held.row(), same)));
            Ok(Root::Many(held))
        }
        Err((_, memory)) => Err(memory),
    }
}
