//! A node put into its table, or a row found there and the node given back.
ghost use Rattle.std.specs.Prelude.{◌≡◌, ℕ, ◌-◌, ◌≤◌, IfOk, OnErr, IfErr};
ghost use Rattle.trie_node.specs.Sets.{edges_of};
ghost use Rattle.trie_context.specs.Rows.{set_of};
ghost use Rattle.trie_context.specs.Holds.{holds_of, HasRoom};
ghost use Rattle.trie_context.specs.Kept.{IsNode, AreKept};
ghost use Rattle.trie_context.specs.Interned.{IsInterned};

use crate::tables::Tables;
use trie_depth::{Memory, Mix};
use trie_node::Node;

/// One hold on the row of this depth with an equal node. It is made where there is none; else the node comes back with
/// its edges, as it does for want of memory.
pub fn keep_row<M: Mix>(
    tables: &mut Tables,
    depth: usize,
    node: Node,
) -> Result<(usize, Option<Node>), (Node, Memory)>
    requires kept { AreKept M.mixed tables.old }
    requires low { 1 ≤ depth }
    requires high { depth ≤ 3 }
    requires form { IsNode M.mixed depth (set_of tables.old (depth - 1)) node }
    requires held { (r : ℕ) → edges_of node r ≤ holds_of tables.old (depth - 1) r }
    requires room { HasRoom tables.old }
    ensures kept { AreKept M.mixed tables.new }
    ensures interned { IfOk result (λ k. IsInterned M.mixed tables.old tables.new depth node k.0 k.1) }
    ensures back { IfErr result (λ e. e.0 ≡ node) }
    ensures same { OnErr result (tables.new ≡ tables.old) }
{
    let hash = node.hash_of::<M>();
    match tables.find_equal(depth, &node, hash) {
        Some(found) => {
            tables.bump(depth, found);
            Ok((found, Some(node)))
        }
        None => match tables.add(depth, node, hash) {
            Ok(row) => Ok((row, None)),
            Err(refused) => Err(refused),
        },
    }
}
