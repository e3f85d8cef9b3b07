//! A node put into its table, or found there.
ghost use Rattle.std.specs.Prelude.{◌≡◌, ℕ, ◌-◌, ◌≤◌, IfOk, OnOk, OnErr, Some};
ghost use Rattle.trie_node.specs.Sets.{edges_of};
ghost use Rattle.trie_context.specs.Rows.{node_of, set_of};
ghost use Rattle.trie_context.specs.Holds.{holds_of, one_at, at_depth, nothing, HasRoom, CountsRiseBy, RowsStay};
ghost use Rattle.trie_context.specs.Kept.{IsNode, AreKept, AreMoved, IsStored};

use crate::release::release_edges;
use crate::tables::Tables;
use trie_depth::{Memory, Mix};
use trie_node::Node;

/// One hold on the row of this depth with an equal node. It is made where there is none; else the node's edges are
/// given up, as they are for want of memory.
pub fn intern_row<M: Mix>(tables: &mut Tables, depth: usize, node: Node) -> Result<usize, Memory>
    requires kept { AreKept M.mixed tables.old }
    requires low { 1 ≤ depth }
    requires high { depth ≤ 3 }
    requires form { IsNode M.mixed depth (set_of tables.old (depth - 1)) node }
    requires held { (r : ℕ) → edges_of node r ≤ holds_of tables.old (depth - 1) r }
    requires room { HasRoom tables.old }
    ensures moved { IfOk result (λ k. IsStored M.mixed depth tables.old tables.new k node) }
    ensures there { IfOk result (λ k. node_of tables.new depth k ≡ Some node) }
    ensures counts { IfOk result (λ k. CountsRiseBy tables.old tables.new (at_depth depth (one_at k))) }
    ensures stay { OnOk result (RowsStay tables.old tables.new) }
    ensures given { OnErr result (AreMoved M.mixed tables.old tables.new nothing (at_depth (depth - 1) (edges_of node))) }
    ensures fallen { OnErr result (CountsRiseBy tables.old tables.new nothing) }
    ensures came { OnErr result (RowsStay tables.new tables.old) }
{
    let hash = node.hash_of::<M>();
    match tables.find_equal(depth, &node, hash) {
        Some(found) => {
            tables.bump(depth, found);
            release_edges::<M>(tables, depth - 1, &node);
            Ok(found)
        }
        None => match tables.add(depth, node, hash) {
            Ok(row) => Ok(row),
            Err((unkept, memory)) => {
                release_edges::<M>(tables, depth - 1, &unkept);
                Err(memory)
            }
        },
    }
}
