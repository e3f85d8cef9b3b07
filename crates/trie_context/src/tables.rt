//! The tables of the three depths, and their calls by the number of the depth.
ghost use Rattle.std.specs.Prelude.{◌≡◌, ◌+◌, ◌-◌, ◌<◌, ◌≤◌, ◌^◌, None, IsSome, IsNone, IfSome, IfOk, OnErr, IfErr};
ghost use Rattle.node_table.specs.Table.{with_row, without_row, reserved_at, HasNoNode, HasNoNodeUnder};
ghost use Rattle.trie_context.specs.Rows.{no_tables, table_at, put_table, put_row, row_of, new_row, one_more, one_less};
ghost use Rattle.trie_context.specs.Opened.{IsReserved, opened_at, closed_at, discarded_at};

use node_table::{Spot, Table};
use std::alloc::Global;
use trie_depth::Memory;
use trie_node::Node;

/// One table for each depth.
#[derive(Drop)]
pub struct Tables {
    pub one: Table<Node>,
    pub two: Table<Node>,
    pub three: Table<Node>,
}

/// A call of the table of a depth.
macro_rules! at_depth {
    ($tables:expr, $depth:expr, $call:ident($($arg:expr),*)) => {
        match $depth {
            1 => $tables.one.$call($($arg),*),
            2 => $tables.two.$call($($arg),*),
            3 => $tables.three.$call($($arg),*),
            _ => unreachable!(),
        }
    };
}

impl Tables {
    pub(crate) fn new(alloc: Global) -> Tables
        ensures { result ≡ no_tables }
    {
        Tables {
            one: Table::new(alloc),
            two: Table::new(alloc),
            three: Table::new(alloc),
        }
    }

    pub(crate) fn count(&self, depth: usize, row: usize) -> u128
        requires low { 1 ≤ depth }
        requires high { depth ≤ 3 }
        requires there { IsSome (row_of self.now depth row) }
        ensures { IfSome (row_of self.now depth row) (λ r. r.count ≡ result) }
    {
        at_depth!(self, depth, count(row))
    }

    pub(crate) fn find_equal(&self, depth: usize, node: &Node, hash: u64) -> Option<usize>
        requires low { 1 ≤ depth }
        requires high { depth ≤ 3 }
        ensures there { IfSome result (λ r. IsSome (row_of self.now depth r)) }
        ensures equal { IfSome result (λ r. IfSome (row_of self.now depth r) (λ row. row.node ≡ node.now)) }
        ensures none { IsNone result → HasNoNodeUnder (table_at self.now depth) node.now hash }
    {
        at_depth!(self, depth, find_equal(node, hash))
    }

    pub(crate) fn add(
        &mut self,
        depth: usize,
        node: Node,
        hash: u64,
    ) -> Result<usize, (Node, Memory)>
        requires low { 1 ≤ depth }
        requires high { depth ≤ 3 }
        requires new { HasNoNode (table_at self.old depth) node }
        ensures fresh { IfOk result (λ r. row_of self.old depth r ≡ None) }
        ensures added { IfOk result (λ r. self.new ≡ put_row self.old depth r (new_row node hash)) }
        ensures kept { OnErr result (self.new ≡ self.old) }
        ensures back { IfErr result (λ e. e.0 ≡ node) }
    {
        at_depth!(self, depth, add(node, hash))
    }

    pub(crate) fn bump(&mut self, depth: usize, row: usize)
        requires low { 1 ≤ depth }
        requires high { depth ≤ 3 }
        requires there { IsSome (row_of self.old depth row) }
        requires room { IfSome (row_of self.old depth row) (λ r. r.count < 2 ^ 100) }
        ensures { IfSome (row_of self.old depth row) (λ r. self.new ≡ put_row self.old depth row (one_more r)) }
    {
        at_depth!(self, depth, bump(row))
    }

    pub(crate) fn lower(&mut self, depth: usize, row: usize)
        requires low { 1 ≤ depth }
        requires high { depth ≤ 3 }
        requires there { IsSome (row_of self.old depth row) }
        requires more { IfSome (row_of self.old depth row) (λ r. 1 < r.count) }
        ensures { IfSome (row_of self.old depth row) (λ r. self.new ≡ put_row self.old depth row (one_less r)) }
    {
        at_depth!(self, depth, lower(row))
    }

    pub(crate) fn remove(&mut self, depth: usize, row: usize) -> Node
        requires low { 1 ≤ depth }
        requires high { depth ≤ 3 }
        requires there { IsSome (row_of self.old depth row) }
        requires last { IfSome (row_of self.old depth row) (λ r. r.count ≡ 1) }
        ensures node { IfSome (row_of self.old depth row) (λ r. r.node ≡ result) }
        ensures gone { self.new ≡ put_table self.old depth (without_row (table_at self.old depth) row) }
    {
        at_depth!(self, depth, remove(row))
    }

    /// Takes the row out; its number stays reserved.
    pub(crate) fn take_out(&mut self, depth: usize, row: usize) -> (Node, Spot)
        requires low { 1 ≤ depth }
        requires high { depth ≤ 3 }
        requires there { IsSome (row_of self.old depth row) }
        requires last { IfSome (row_of self.old depth row) (λ r. r.count ≡ 1) }
        ensures node { IfSome (row_of self.old depth row) (λ r. r.node ≡ result.0) }
        ensures hash { IfSome (row_of self.old depth row) (λ r. r.hash ≡ result.1.hash) }
        ensures number { result.1.number ≡ row }
        ensures free { reserved_at (table_at self.old depth) row ≡ None }
        ensures gone { self.new ≡ opened_at self.old depth result.1 }
    {
        at_depth!(self, depth, take_out(row))
    }

    pub(crate) fn put_back(&mut self, depth: usize, spot: Spot, node: Node)
        requires low { 1 ≤ depth }
        requires high { depth ≤ 3 }
        requires reserved { IsReserved self.old depth spot }
        requires new { HasNoNode (table_at self.old depth) node }
        ensures fresh { row_of self.old depth spot.number ≡ None }
        ensures back { self.new ≡ closed_at self.old depth spot node }
    {
        at_depth!(self, depth, put_back(spot, node))
    }

    pub(crate) fn drop_spot(&mut self, depth: usize, spot: Spot)
        requires low { 1 ≤ depth }
        requires high { depth ≤ 3 }
        requires reserved { IsReserved self.old depth spot }
        ensures { self.new ≡ discarded_at self.old depth spot }
    {
        at_depth!(self, depth, drop_spot(spot))
    }
}
