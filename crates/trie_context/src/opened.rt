//! Rows opened in place: taken out, changed in hand and put back, with no copy and no memory.
ghost use Rattle.std.specs.Prelude.{◌≡◌, ℕ, ◌-◌, ◌<◌, ◌≤◌, IsSome, IsNone, IfSome};
ghost use Rattle.trie_node.specs.Sets.{edges_of, hash_of_node};
ghost use Rattle.trie_context.specs.Rows.{row_of, set_of};
ghost use Rattle.trie_context.specs.Holds.{count_of, holds_of, nothing};
ghost use Rattle.trie_context.specs.Kept.{IsNode, AreKept};
ghost use Rattle.trie_context.specs.Opened.{IsReserved, StandsForNoRow, discarded_at, HoldsAreMoved, IsOpened, IsClosed};

use crate::tables::Tables;
use node_table::Spot;
use trie_depth::Mix;
use trie_node::Node;

/// The count of a row to which one hold leads.
const ALONE: u128 = 1;

/// Takes out a held row to which nothing else leads; none where more does.
pub fn open_row<M: Mix>(tables: &mut Tables, depth: usize, row: usize) -> Option<(Node, Spot)>
    requires kept { AreKept M.mixed tables.old }
    requires low { 1 ≤ depth }
    requires high { depth ≤ 3 }
    requires held { 1 ≤ holds_of tables.old depth row }
    ensures alone { IsSome result → count_of (row_of tables.old depth row) ≡ 1 }
    ensures opened { IfSome result (λ o. IsOpened M.mixed tables.old tables.new depth o.1 o.0) }
    ensures number { IfSome result (λ o. o.1.number ≡ row) }
    ensures shared { IsNone result → 1 < count_of (row_of tables.old depth row) }
    ensures same { IsNone result → tables.new ≡ tables.old }
{
    if tables.count(depth, row) > ALONE {
        return None;
    }
    Some(tables.take_out(depth, row))
}

/// Puts a node into the place, as a row with one hold.
pub fn close_row<M: Mix>(tables: &mut Tables, depth: usize, spot: Spot, node: Node)
    requires kept { AreKept M.mixed tables.old }
    requires low { 1 ≤ depth }
    requires high { depth ≤ 3 }
    requires reserved { IsReserved tables.old depth spot }
    requires form { IsNode M.mixed depth (set_of tables.old (depth - 1)) node }
    requires hashed { spot.hash ≡ hash_of_node M.mixed node }
    requires none { StandsForNoRow tables.old depth node }
    requires held { (r : ℕ) → edges_of node r ≤ holds_of tables.old (depth - 1) r }
    ensures closed { IsClosed M.mixed tables.old tables.new depth spot node }
{
    tables.put_back(depth, spot, node);
}

/// Gives the place up.
pub fn discard_place<M: Mix>(tables: &mut Tables, depth: usize, spot: Spot)
    requires kept { AreKept M.mixed tables.old }
    requires low { 1 ≤ depth }
    requires high { depth ≤ 3 }
    requires reserved { IsReserved tables.old depth spot }
    ensures gone { tables.new ≡ discarded_at tables.old depth spot }
    ensures moved { HoldsAreMoved M.mixed tables.old tables.new nothing nothing }
{
    tables.drop_spot(depth, spot);
}
