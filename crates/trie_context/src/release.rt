//! Holds given up, from a row to the rows of its edges one depth below.
ghost use Rattle.std.specs.Prelude.{◌≡◌, ℕ, ◌+◌, ◌<◌, ◌≤◌};
ghost use Rattle.trie_node.specs.Sets.{leads, edges_in, edges_of};
ghost use Rattle.trie_context.specs.Rows.{table_at};
ghost use Rattle.trie_context.specs.Holds.{holds_of, one_at, at_depth, nothing, CountsRiseBy, RowsStay};
ghost use Rattle.trie_context.specs.Kept.{AreKept, AreMoved};

use crate::tables::Tables;
use edge_map::{Edge, EdgeMap};
use trie_depth::Mix;
use trie_node::Node;

/// The count of a row to which one edge or hold leads.
const LAST: u128 = 1;

/// Gives one hold on a row up. A row that nothing leads to any more goes away, and its edges are given up.
#[cycle(release)]
pub fn release_row<M: Mix>(tables: &mut Tables, depth: usize, row: usize)
    requires kept { AreKept M.mixed tables.old }
    requires low { 1 ≤ depth }
    requires high { depth ≤ 3 }
    requires held { 1 ≤ holds_of tables.old depth row }
    ensures moved { AreMoved M.mixed tables.old tables.new nothing (at_depth depth (one_at row)) }
    ensures counts { CountsRiseBy tables.old tables.new nothing }
    ensures rows { RowsStay tables.new tables.old }
    ensures above { (d : ℕ) → depth < d → table_at tables.new d ≡ table_at tables.old d }
{
    if tables.count(depth, row) > LAST {
        tables.lower(depth, row);
    } else {
        let node = tables.remove(depth, row);
        release_edges::<M>(tables, depth - 1, &node);
    }
}

/// Gives the edges of a node up, which lead to rows of this depth.
#[cycle(release)]
pub fn release_edges<M: Mix>(tables: &mut Tables, depth: usize, node: &Node)
    requires kept { AreKept M.mixed tables.old }
    requires high { depth ≤ 3 }
    requires held { (r : ℕ) → edges_of node.now r ≤ holds_of tables.old depth r }
    ensures moved { AreMoved M.mixed tables.old tables.new nothing (at_depth depth (edges_of node.now)) }
    ensures counts { CountsRiseBy tables.old tables.new nothing }
    ensures rows { RowsStay tables.new tables.old }
    ensures above { (d : ℕ) → depth < d → table_at tables.new d ≡ table_at tables.old d }
{
    if depth == 0 {
        return;
    }
    if let Node::Full {
        first,
        second,
        third,
        ..
    } = node
    {
        release_map::<M>(tables, depth, first);
        release_map::<M>(tables, depth, second);
        release_map::<M>(tables, depth, third);
    }
}

/// Gives the edges of one map up.
#[cycle(release)]
pub fn release_map<M: Mix>(tables: &mut Tables, depth: usize, edges: &EdgeMap)
    requires kept { AreKept M.mixed tables.old }
    requires high { depth ≤ 3 }
    requires held { (r : ℕ) → edges_in edges.now r ≤ holds_of tables.old depth r }
    ensures moved { AreMoved M.mixed tables.old tables.new nothing (at_depth depth (edges_in edges.now)) }
    ensures counts { CountsRiseBy tables.old tables.new nothing }
    ensures rows { RowsStay tables.new tables.old }
    ensures above { (d : ℕ) → depth < d → table_at tables.new d ≡ table_at tables.old d }
{
    let mut walk = edges.walk();
    while let Some((_, edge)) = walk.next() {
        release_edge::<M>(tables, depth, edge);
    }
}

/// Gives one edge up. A key holds nothing.
#[cycle(release)]
pub fn release_edge<M: Mix>(tables: &mut Tables, depth: usize, edge: Edge)
    requires kept { AreKept M.mixed tables.old }
    requires high { depth ≤ 3 }
    requires held { (r : ℕ) → leads edge r ≤ holds_of tables.old depth r }
    ensures moved { AreMoved M.mixed tables.old tables.new nothing (at_depth depth (leads edge)) }
    ensures counts { CountsRiseBy tables.old tables.new nothing }
    ensures rows { RowsStay tables.new tables.old }
    ensures above { (d : ℕ) → depth < d → table_at tables.new d ≡ table_at tables.old d }
{
    if let Edge::Node(row) = edge {
        release_row::<M>(tables, depth, row);
    }
}
