//! A level of the hypertrie: the entries of one depth, and how a position is taken out of an entry and put back.
//! The laws tie each function to the tuple of numbers that an entry stands for.
ghost use Rattle.std.specs.Prelude.{◌≡◌, ◌<◌, ◌≤◌, ℕ, List, length, slice_index};
ghost use Rattle.std.specs.List.{insert, remove};
ghost use Rattle.trie_depth.specs.declared.id.Id.{Id};

use crate::id::Id;

pub trait Level {
    type Entry: Copy + Ord;
    /// An entry with one position taken out.
    type Less: Copy + Ord;

    const DEPTH: usize;

    ghost DEPTH: { ℕ };

    ghost tuple_of: { Self.Entry → List ℕ };

    ghost less_tuple_of: { Self.Less → List ℕ };

    ghost key_of: { Self.Entry → ℕ → Id };

    ghost without_of: { Self.Entry → ℕ → Self.Less };

    ghost with_of: { Self.Less → ℕ → Id → Self.Entry };

    fn key(e: Self::Entry, pos: usize) -> Id
        requires { pos < DEPTH }
        ensures { result ≡ key_of e pos };

    fn without(e: Self::Entry, pos: usize) -> Self::Less
        requires { pos < DEPTH }
        ensures { result ≡ without_of e pos };

    fn with(e: Self::Less, pos: usize, key: Id) -> Self::Entry
        requires { pos < DEPTH }
        ensures { result ≡ with_of e pos key };

    ghost key_with: { (e : Self.Less) (i : ℕ) (k : Id) → i < DEPTH → key_of (with_of e i k) i ≡ k };

    ghost without_with: { (e : Self.Less) (i : ℕ) (k : Id) → i < DEPTH → without_of (with_of e i k) i ≡ e };

    ghost with_without: { (e : Self.Entry) (i : ℕ) → i < DEPTH → with_of (without_of e i) i (key_of e i) ≡ e };

    ghost depth_low: { 1 ≤ DEPTH };

    ghost depth_high: { DEPTH ≤ 3 };

    ghost tuple_length: { (e : Self.Entry) → length (tuple_of e) ≡ DEPTH };

    ghost tuple_key: { (e : Self.Entry) (i : ℕ) → i < DEPTH → (key_of e i).0 ≡ slice_index (tuple_of e) i };

    ghost tuple_without: { (e : Self.Entry) (i : ℕ) → i < DEPTH → less_tuple_of (without_of e i) ≡ remove (tuple_of e) i };

    ghost tuple_with: { (e : Self.Less) (i : ℕ) (k : Id) → i < DEPTH → tuple_of (with_of e i k) ≡ insert (less_tuple_of e) i k.0 };

    ghost tuple_names: { (e f : Self.Entry) → tuple_of e ≡ tuple_of f → e ≡ f };
}
