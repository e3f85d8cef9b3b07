//! The entries of a map of at most one chunk, lent: in place, in a block of their own, or shared.
ghost use Rattle.std.specs.Prelude.{◌≡◌, ◌↔◌, ℕ, ◌<◌, ◌∷◌, ◌++◌, [], OnOk, IsTrue, length};
ghost use Rattle.std.proofs.Common.{get_or};
ghost use Rattle.trie_depth.specs.declared.id.Id.{Id};
ghost use Rattle.edge_map.specs.declared.edge.Edge.{Edge};
ghost use Rattle.edge_map.specs.Entries.{KeysRise};
ghost use Rattle.edge_map.specs.Chunks.{seek_in};
ghost use Rattle.edge_map.specs.Shorts.{entries_seen};

use crate::edge::Edge;
use crate::few::{key_at, own_at, row_at, seek_key, seek_own, seek_row};
use crate::packed::Packed;
use std::marker::Model;
use trie_depth::{Id, Memory};

#[derive(Clone, Copy)]
pub enum Seen<'a> {
    Nothing,
    OneKey(Id, Id),
    OneRow(Id, usize),
    Own(&'a [u32]),
    Keys(&'a [(u32, u32)]),
    Rows(&'a [(u32, u32)]),
    Packed(&'a Packed),
}

#[derive(Drop)]
pub struct Short<'a> {
    seen: Seen<'a>,
}

impl<'a> Model for Short<'a> {
    ghost use Rattle.std.specs.Prelude.{List};
    ghost use Rattle.trie_depth.specs.declared.id.Id.{Id};
    ghost use Rattle.edge_map.specs.declared.edge.Edge.{Edge};
    ghost use Rattle.edge_map.specs.Shorts.{entries_seen};

    ghost Value = { List (Id × Edge) };

    ghost view = { λ s. entries_seen s.seen };
}

/// The entry, if its key isn't below `from`.
fn not_below(from: Id, key: Id, edge: Edge) -> Option<(Id, Edge)>
    ensures { result ≡ seek_in from.0 ((key, edge) ∷ []) }
{
    if key.0 < from.0 {
        return None;
    }
    Some((key, edge))
}

impl<'a> Short<'a> {
    pub fn of(seen: Seen<'a>) -> Short<'a>
        ensures { result ≡ entries_seen seen.entry }
    {
        Short { seen }
    }

    pub fn len(&self) -> usize
        ensures { result ≡ length self.now }
    {
        match self.seen {
            Seen::Nothing => 0,
            Seen::OneKey(_, _) | Seen::OneRow(_, _) => 1,
            Seen::Own(keys) => keys.len(),
            Seen::Keys(pairs) | Seen::Rows(pairs) => pairs.len(),
            Seen::Packed(packed) => packed.len(),
        }
    }

    pub fn at(&self, at: usize) -> (Id, Edge)
        requires { at < length self.now }
        ensures { (d : Id × Edge) → result ≡ get_or self.now at d }
    {
        match self.seen {
            Seen::Nothing => unreachable!(),
            Seen::OneKey(key, other) => (key, Edge::Key(other)),
            Seen::OneRow(key, row) => (key, Edge::Node(row)),
            Seen::Own(keys) => own_at(keys, at),
            Seen::Keys(pairs) => key_at(pairs, at),
            Seen::Rows(pairs) => row_at(pairs, at),
            Seen::Packed(packed) => packed.at(at),
        }
    }

    /// The first entry whose key isn't below `from`.
    pub fn seek(&self, from: Id) -> Option<(Id, Edge)>
        requires { KeysRise self.now }
        ensures { result ≡ seek_in from.0 self.now }
    {
        match self.seen {
            Seen::Nothing => None,
            Seen::OneKey(key, other) => not_below(from, key, Edge::Key(other)),
            Seen::OneRow(key, row) => not_below(from, key, Edge::Node(row)),
            Seen::Own(keys) => seek_own(keys, from),
            Seen::Keys(pairs) => seek_key(pairs, from),
            Seen::Rows(pairs) => seek_row(pairs, from),
            Seen::Packed(packed) => packed.seek(from),
        }
    }

    /// Appends the entries to `run`.
    pub fn append_to(&self, run: &mut Vec<(Id, Edge)>) -> Result<(), Memory>
        ensures { OnOk result (run.new.items ≡ run.old.items ++ self.now) }
    {
        for at in 0..self.len() {
            run.push(self.at(at))?;
        }
        Ok(())
    }

    /// Whether the entries are the same. Those that are kept in one way are compared as they lie in memory.
    pub fn same(&self, other: &Short<'_>) -> bool
        ensures { IsTrue result ↔ (self.now ≡ other.now) }
    {
        if let (Seen::Packed(packed), Seen::Packed(others)) = (self.seen, other.seen) {
            if let Some(same) = packed.same(others) {
                return same;
            }
        }
        self.len() == other.len() && self.same_at_each(other)
    }

    /// Whether the entries at each place are the same.
    fn same_at_each(&self, other: &Short<'_>) -> bool
        requires { length self.now ≡ length other.now }
        ensures { IsTrue result ↔ (self.now ≡ other.now) }
    {
        for at in 0..self.len() {
            if self.at(at) != other.at(at) {
                return false;
            }
        }
        true
    }
}
