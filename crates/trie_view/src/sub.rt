//! A slice of a graph, with what is known of it.
ghost use Rattle.std.specs.Prelude.{◌≡◌, ◌≢◌, ◌↔◌, ℕ, ◌+◌, ◌*◌, ◌-◌, ◌^◌, ◌<◌, ◌≤◌, None, Some, IsSome, IsNone, IfSome, IsTrue};
ghost use Rattle.std.specs.Ordering.{nat_cmp};
ghost use Rattle.std.specs.FinSet as set;
ghost use Rattle.hypertrie_model.specs.Sets.{empty};
ghost use Rattle.hypertrie_model.specs.Slices.{keys, slice_at_mask};
ghost use Rattle.trie_depth.specs.Masks.{FitsDepth, lowest, n_positions};
ghost use Rattle.trie_depth.specs.Operands.{Admits, IsIdTuple};
ghost use Rattle.trie_depth.specs.Tuples.{trip_tuple};
ghost use Rattle.trie_node.specs.Sets.{map_at};
ghost use Rattle.trie_context.specs.declared.root.Root.{Root};
ghost use Rattle.trie_context.specs.Rows.{row_of};
ghost use Rattle.trie_context.specs.Roots.{root_set};
ghost use Rattle.trie_view.specs.Places.{AreKeptByAMix, IsSub, IsPlaceOf, IsPairsOf, IsRootThere, AreKeysAt, edge_at};

use crate::location::{KeysAt, Location};
use edge_map::{Edge, EdgeMap};
use slice_cases::order;
use std::sync::ledger::Ledger;
use trie_context::{Root, Tables};
use trie_depth::{Id, L2, L3, Level, Mask, Steps, Trip};
use trie_node::Node;

/// A slice of a graph's tables, read in place. It may be copied freely, and takes no memory of its own.
#[derive(Clone, Copy)]
pub struct Sub<'a> {
    tables: &'a Tables,
    place: Location<'a>,
    ghost known: { ∥ IsSub tables.now place ∥₁ },
}

impl<'a> Sub<'a> {
    ghost use Rattle.trie_view.specs.Subs.{sub_depth, sub_set, slice_by};

    /// The whole graph; an empty one has no slice.
    pub fn of(tables: &'a Tables, root: &'a Root) -> Option<Sub<'a>>
        requires kept { AreKeptByAMix tables.now }
        requires there { IsRootThere tables.now root.now }
        ensures none { IsNone result ↔ (root.now ≡ Root.Empty) }
        ensures set { IfSome result (λ s. sub_set s ≡ root_set tables.now root.now) }
        ensures depth { IfSome result (λ s. sub_depth s ≡ 3) }
    {
        match root {
            Root::Empty => None,
            Root::One(triple) => {
                ids_of(*triple);
                Some(Sub {
                    tables,
                    place: Location::Triple(*triple),
                })
            }
            Root::Many(held) => {
                let node = tables.three.node(held.row());
                keys_are_ids(node);
                Some(Sub {
                    tables,
                    place: Location::Triples(node),
                })
            }
        }
    }

    /// How many keys each tuple of the slice has.
    pub(crate) fn n_left(self) -> usize
        ensures { result ≡ sub_depth self.entry }
    {
        match self.place {
            Location::Triple(_) | Location::Triples(_) => 3,
            Location::Pair(_) | Location::Pairs(_) => 2,
            Location::Key(_) | Location::Keys(_) => 1,
            Location::There => 0,
        }
    }

    /// Whether no key is left to be fixed, so that the slice is the one tuple of no key.
    pub fn is_there(self) -> bool
        ensures { IsTrue result ↔ (sub_depth self.entry ≡ 0) }
    {
        self.n_left() == 0
    }

    /// The keys at a position.
    fn keys_at(self, position: usize) -> KeysAt<'a>
        requires within { position < sub_depth self }
        ensures { AreKeysAt (sub_set self.entry) position result }
    {
        match self.place {
            Location::Triple(triple) => KeysAt::One(L3::key(triple, position)),
            Location::Triples(node) => match node.map(position) {
                Some(edges) => KeysAt::Of(edges),
                None => unreachable!(),
            },
            Location::Pair(pair) => KeysAt::One(L2::key(pair, position)),
            Location::Pairs(node) => match node.map(position) {
                Some(edges) => KeysAt::Of(edges),
                None => unreachable!(),
            },
            Location::Key(key) => KeysAt::One(key),
            Location::Keys(edges) => KeysAt::Of(edges),
            Location::There => unreachable!(),
        }
    }

    /// The place of the slice by the key at a position.
    fn place_at<W: Ledger>(
        self,
        position: usize,
        key: Id,
        reads: &mut Steps<W>,
    ) -> Option<Location<'a>>
        requires within { position < sub_depth self }
        ensures is { IsPlaceOf self.entry.tables.now (sub_depth self.entry - 1) (slice_by self.entry position key.0) result }
        ensures ticks { reads.old + 1 ≤ reads.new }
        ensures few { reads.new ≤ reads.old + 2 }
    {
        reads.tick();
        match self.place {
            Location::Triple(triple) => {
                if L3::key(triple, position).0 != key.0 {
                    return None;
                }
                Some(Location::Pair(L3::without(triple, position)))
            }
            Location::Triples(node) => match under(node, position, key)? {
                Edge::Key(_) => unreachable!(),
                Edge::Node(row) => {
                    reads.tick();
                    Some(pairs_of(self.tables, row))
                }
            },
            Location::Pair(pair) => {
                if L2::key(pair, position).0 != key.0 {
                    return None;
                }
                Some(Location::Key(L2::without(pair, position)))
            }
            Location::Pairs(node) => match under(node, position, key)? {
                Edge::Key(other) => Some(Location::Key(other)),
                Edge::Node(row) => {
                    reads.tick();
                    Some(Location::Keys(keys_of(self.tables, row)))
                }
            },
            Location::Key(only) => {
                if only.0 != key.0 {
                    return None;
                }
                Some(Location::There)
            }
            Location::Keys(edges) => {
                edges.get(key)?;
                Some(Location::There)
            }
            Location::There => unreachable!(),
        }
    }

    /// The slice by the key at a position.
    fn slice_at<W: Ledger>(self, position: usize, key: Id, reads: &mut Steps<W>) -> Option<Sub<'a>>
        requires within { position < sub_depth self }
        ensures none { IsNone result ↔ (slice_by self.entry position key.0 ≡ empty nat_cmp) }
        ensures some { IfSome result (λ s. sub_set s ≡ slice_by self.entry position key.0) }
        ensures depth { IfSome result (λ s. sub_depth s + 1 ≡ sub_depth self.entry) }
        ensures ticks { reads.old + 1 ≤ reads.new }
        ensures few { reads.new ≤ reads.old + 2 }
    {
        let place = self.place_at(position, key, reads)?;
        Some(Sub {
            tables: self.tables,
            place,
        })
    }

    /// How many keys there are at a position.
    pub(crate) fn count_at<W: Ledger>(self, position: usize, reads: &mut Steps<W>) -> u64
        requires within { position < sub_depth self }
        ensures count { result ≡ set.len (keys nat_cmp (sub_set self.entry) position) }
        ensures ticks { reads.new ≡ reads.old + 1 }
    {
        reads.tick();
        match self.keys_at(position) {
            KeysAt::One(_) => 1,
            KeysAt::Of(edges) => edges.len(),
        }
    }

    /// The least key at a position that is not below `from`.
    pub(crate) fn next_key<W: Ledger>(
        self,
        position: usize,
        from: Id,
        reads: &mut Steps<W>,
    ) -> Option<Id>
        requires within { position < sub_depth self }
        ensures none { IsNone result → (k : ℕ) → from.0 ≤ k → slice_by self.entry position k ≡ empty nat_cmp }
        ensures there { IfSome result (λ r. slice_by self.entry position r.0 ≢ empty nat_cmp) }
        ensures from { IfSome result (λ r. from.0 ≤ r.0) }
        ensures least { IfSome result (λ r. (k : ℕ) → from.0 ≤ k → k < r.0 → slice_by self.entry position k ≡ empty nat_cmp) }
        ensures ticks { reads.new ≡ reads.old + 1 }
    {
        reads.tick();
        match self.keys_at(position) {
            KeysAt::One(key) => {
                if key.0 < from.0 {
                    return None;
                }
                Some(key)
            }
            KeysAt::Of(edges) => {
                let (key, _) = edges.seek(from)?;
                Some(key)
            }
        }
    }

    /// The slice by the key at all positions of the mask, one position after another.
    pub(crate) fn fixed<W: Ledger>(
        self,
        mask: Mask,
        key: Id,
        reads: &mut Steps<W>,
    ) -> Option<Sub<'a>>
        requires fits { FitsDepth mask.0 (sub_depth self) }
        ensures none { IsNone result ↔ (slice_at_mask nat_cmp (sub_set self.entry) mask.0 key.0 ≡ empty nat_cmp) }
        ensures some { IfSome result (λ s. sub_set s ≡ slice_at_mask nat_cmp (sub_set self.entry) mask.0 key.0) }
        ensures depth { IfSome result (λ s. sub_depth s + n_positions mask.0 ≡ sub_depth self.entry) }
        ensures ticks { reads.old + 1 ≤ reads.new }
        ensures few { reads.new ≤ reads.old + 2 * n_positions mask.0 }
    {
        let case = order(self.n_left(), mask);
        let mut sub = self;
        for turn in 0..usize::from(case.n_taken) {
            sub = sub.slice_at(usize::from(case.taken[turn]), key, reads)?;
        }
        Some(sub)
    }

    /// The least key not below `from` that has a slice at the mask. At several positions, the keys of the lowest are
    /// tried one after another.
    pub(crate) fn next_fixed<W: Ledger>(
        self,
        mask: Mask,
        from: Id,
        reads: &mut Steps<W>,
    ) -> Option<Id>
        requires fits { FitsDepth mask.0 (sub_depth self) }
        ensures none { IsNone result → (k : ℕ) → from.0 ≤ k → Admits (sub_set self.entry) mask.0 k → ⊥ }
        ensures there { IfSome result (λ r. Admits (sub_set self.entry) mask.0 r.0) }
        ensures from { IfSome result (λ r. from.0 ≤ r.0) }
        ensures least { IfSome result (λ r. (k : ℕ) → from.0 ≤ k → k < r.0 → Admits (sub_set self.entry) mask.0 k → ⊥) }
        ensures ticks { reads.old + 1 ≤ reads.new }
        ensures few { n_positions mask.0 ≡ 1 → reads.new ≤ reads.old + 1 }
    {
        let position = lowest_of(mask);
        let mut key = self.next_key(position, from, reads)?;
        if order(self.n_left(), mask).n_taken == 1 {
            return Some(key);
        }
        while self.fixed(mask, key, reads).is_none() {
            if key.0 == u32::MAX {
                return None;
            }
            key = self.next_key(position, Id(key.0 + 1), reads)?;
        }
        Some(key)
    }
}

/// The edge under a key in the map of a position.
fn under(node: &Node, position: usize, key: Id) -> Option<Edge>
    requires { position < 3 }
    ensures { result ≡ edge_at node.now position key.0 }
{
    node.map(position)?.get(key)
}

/// The pairs of a row of depth two.
fn pairs_of<'a>(tables: &'a Tables, row: usize) -> Location<'a>
    requires { IsSome (row_of tables.now 2 row) }
    ensures { IfSome (row_of tables.now 2 row) (λ r. IsPairsOf r.node result) }
{
    let node = tables.two.node(row);
    match node {
        Node::Single(pair) => Location::Pair(*pair),
        Node::Full { .. } => Location::Pairs(node),
    }
}

/// The keys of a row of depth one.
fn keys_of<'a>(tables: &'a Tables, row: usize) -> &'a EdgeMap
    requires there { IsSome (row_of tables.now 1 row) }
    requires full { IfSome (row_of tables.now 1 row) (λ r. IsSome (map_at r.node 0)) }
    ensures { IfSome (row_of tables.now 1 row) (λ r. map_at r.node 0 ≡ Some result.now) }
{
    match tables.one.node(row).map(0) {
        Some(keys) => keys,
        None => unreachable!(),
    }
}

/// The lowest position of a mask.
pub(crate) fn lowest_of(mask: Mask) -> usize
    ensures { result ≡ lowest mask.0 }
{
    if mask.0 % 2 == 1 {
        0
    } else if mask.0 / 2 % 2 == 1 {
        1
    } else {
        2
    }
}

/// Each id of a triple is below 2 to the 32.
fn ids_of(triple: Trip)
    ensures { IsIdTuple (trip_tuple triple) }
{}

/// So is each key of a node.
fn keys_are_ids(node: &Node)
    ensures { (i k : ℕ) → 2 ^ 32 ≤ k → edge_at node.now i k ≡ None }
{
    if let Node::Full {
        first,
        second,
        third,
        ..
    } = node
    {
        first.keys_are_ids();
        second.keys_are_ids();
        third.keys_are_ids();
    }
}
