//! Holds taken on rows that are there.
ghost use Rattle.std.specs.Prelude.{◌≡◌, ℕ, ◌+◌, ◌-◌, ◌≤◌, ◌^◌, Some, IsSome};
ghost use Rattle.std.specs.FinMap as map;
ghost use Rattle.edge_map.specs.declared.edge.Edge.{Edge};
ghost use Rattle.trie_node.specs.Sets.{leads, edges_in};
ghost use Rattle.trie_context.specs.Rows.{row_of, LeadsToRow};
ghost use Rattle.trie_context.specs.Holds.{one_at, at_depth, nothing, HasRoom, HasRoomForMap, CountsRiseBy, RowsStay};
ghost use Rattle.trie_context.specs.Kept.{AreKept, AreMoved};

use crate::tables::Tables;
use edge_map::{Edge, EdgeMap};
use std::sync::ledger::Ledger;
use trie_depth::{Mix, Steps};

/// One hold more on a row that is there.
pub fn retain_row<M: Mix>(tables: &mut Tables, depth: usize, row: usize)
    requires kept { AreKept M.mixed tables.old }
    requires low { 1 ≤ depth }
    requires high { depth ≤ 3 }
    requires there { IsSome (row_of tables.old depth row) }
    requires room { HasRoom tables.old }
    ensures moved { AreMoved M.mixed tables.old tables.new (at_depth depth (one_at row)) nothing }
    ensures counts { CountsRiseBy tables.old tables.new (at_depth depth (one_at row)) }
    ensures stay { RowsStay tables.old tables.new }
{
    tables.bump(depth, row);
}

/// One hold on the row that the edge leads to; for a key there is nothing to hold.
pub fn retain_edge<M: Mix>(tables: &mut Tables, depth: usize, edge: Edge)
    requires kept { AreKept M.mixed tables.old }
    requires high { depth ≤ 3 }
    requires there { LeadsToRow tables.old depth edge }
    requires room { HasRoom tables.old }
    ensures moved { AreMoved M.mixed tables.old tables.new (at_depth depth (leads edge)) nothing }
    ensures counts { CountsRiseBy tables.old tables.new (at_depth depth (leads edge)) }
    ensures stay { RowsStay tables.old tables.new }
{
    match edge {
        Edge::Key(_) => {}
        Edge::Node(row) => retain_row::<M>(tables, depth, row),
    }
}

/// One hold on each row that an edge of the map leads to, for each such edge.
pub fn retain_map<M: Mix, W: Ledger>(
    tables: &mut Tables,
    depth: usize,
    edges: &EdgeMap,
    retains: &mut Steps<W>,
)
    requires kept { AreKept M.mixed tables.old }
    requires high { depth ≤ 3 }
    requires there { (k : ℕ) (e : Edge) → map.get edges.now k ≡ Some e → LeadsToRow tables.old depth e }
    requires room { HasRoomForMap tables.old }
    ensures moved { AreMoved M.mixed tables.old tables.new (at_depth depth (edges_in edges.now)) nothing }
    ensures counts { CountsRiseBy tables.old tables.new (at_depth depth (edges_in edges.now)) }
    ensures few { CountsRiseBy tables.old tables.new (λ d r. 2 ^ 32) }
    ensures stay { RowsStay tables.old tables.new }
    ensures ticks { retains.new ≡ retains.old + map.len edges.now }
{
    let mut walk = edges.walk();
    while let Some((_, edge)) = walk.next() {
        retains.tick();
        retain_edge::<M>(tables, depth, edge);
    }
}
