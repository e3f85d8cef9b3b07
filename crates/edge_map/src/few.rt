//! Few entries in one block of memory, as the numbers of their keys and edges, by the kind of the edges.
ghost use Rattle.std.specs.Prelude.{◌≡◌, ℕ, ◌<◌, IfSome, IfOk, length};
ghost use Rattle.std.proofs.Common.{get_or};
ghost use Rattle.trie_depth.specs.declared.id.Id.{Id};
ghost use Rattle.edge_map.specs.declared.edge.Edge.{Edge};
ghost use Rattle.edge_map.specs.Chunks.{first_key, seek_in};
ghost use Rattle.edge_map.specs.Few.{own_entry, key_entry, row_entry, own_entries, key_entries, row_entries};

use crate::edge::Edge;
use arrayvec::ArrayVec;
use trie_depth::Id;

/// Keys, each of which is its own edge.
pub type OwnKeys = ArrayVec<u32, 8>;

/// Keys, each with the number of its edge.
pub type Pairs = ArrayVec<(u32, u32), 4>;

/// More of them.
pub type MorePairs = ArrayVec<(u32, u32), 8>;

/// The key, if it is its own edge.
fn own_number(key: Id, edge: Edge) -> Option<u32>
    ensures { IfSome result (λ number. own_entry number ≡ (key, edge)) }
{
    match edge {
        Edge::Key(other) if other.0 == key.0 => Some(key.0),
        _ => None,
    }
}

/// The key and the key that is its edge, if one is.
fn key_numbers(key: Id, edge: Edge) -> Option<(u32, u32)>
    ensures { IfSome result (λ numbers. key_entry numbers ≡ (key, edge)) }
{
    match edge {
        Edge::Key(other) => Some((key.0, other.0)),
        Edge::Node(_) => None,
    }
}

/// The key and the row that is its edge, if one of 32 bits is.
fn row_numbers(key: Id, edge: Edge) -> Option<(u32, u32)>
    ensures { IfSome result (λ numbers. row_entry numbers ≡ (key, edge)) }
{
    match edge {
        Edge::Node(row) if row <= 4_294_967_295 => Some((key.0, row as u32)),
        _ => None,
    }
}

/// The keys, if they are at most eight and each is its own edge.
pub fn own_keys(entries: &[(Id, Edge)]) -> Option<OwnKeys>
    ensures { IfSome result (λ keys. own_entries keys.items ≡ entries.now) }
{
    let mut keys = OwnKeys::new();
    for (key, edge) in entries {
        let number = own_number(*key, *edge)?;
        keys.try_push(number).ok()?;
    }
    Some(keys)
}

/// The keys with the keys that are their edges, if there is room for them and each edge is a key.
pub fn key_pairs<const N: usize>(entries: &[(Id, Edge)]) -> Option<ArrayVec<(u32, u32), N>>
    ensures { IfSome result (λ pairs. key_entries pairs.items ≡ entries.now) }
{
    let mut pairs = ArrayVec::new();
    for (key, edge) in entries {
        let numbers = key_numbers(*key, *edge)?;
        pairs.try_push(numbers).ok()?;
    }
    Some(pairs)
}

/// The keys with the rows that are their edges, if they are at most four and each edge is a row of 32 bits.
pub fn row_pairs(entries: &[(Id, Edge)]) -> Option<Pairs>
    ensures { IfSome result (λ pairs. row_entries pairs.items ≡ entries.now) }
{
    let mut pairs = Pairs::new();
    for (key, edge) in entries {
        let numbers = row_numbers(*key, *edge)?;
        pairs.try_push(numbers).ok()?;
    }
    Some(pairs)
}

pub fn own_at(keys: &[u32], at: usize) -> (Id, Edge)
    requires { at < length keys.now }
    ensures { (d : Id × Edge) → result ≡ get_or (own_entries keys.now) at d }
{
    let key = Id(keys[at]);
    (key, Edge::Key(key))
}

pub fn key_at(pairs: &[(u32, u32)], at: usize) -> (Id, Edge)
    requires { at < length pairs.now }
    ensures { (d : Id × Edge) → result ≡ get_or (key_entries pairs.now) at d }
{
    let (key, other) = pairs[at];
    (Id(key), Edge::Key(Id(other)))
}

pub fn row_at(pairs: &[(u32, u32)], at: usize) -> (Id, Edge)
    requires { at < length pairs.now }
    ensures { (d : Id × Edge) → result ≡ get_or (row_entries pairs.now) at d }
{
    let (key, row) = pairs[at];
    (Id(key), Edge::Node(row as usize))
}

/// The first of the keys that isn't below `from`.
pub fn seek_own(keys: &[u32], from: Id) -> Option<(Id, Edge)>
    ensures { result ≡ seek_in from.0 (own_entries keys.now) }
{
    for at in 0..keys.len() {
        if keys[at] >= from.0 {
            return Some(own_at(keys, at));
        }
    }
    None
}

/// The first of the keys that isn't below `from`, with the key that is its edge.
pub fn seek_key(pairs: &[(u32, u32)], from: Id) -> Option<(Id, Edge)>
    ensures { result ≡ seek_in from.0 (key_entries pairs.now) }
{
    for at in 0..pairs.len() {
        if pairs[at].0 >= from.0 {
            return Some(key_at(pairs, at));
        }
    }
    None
}

/// The first of the keys that isn't below `from`, with the row that is its edge.
pub fn seek_row(pairs: &[(u32, u32)], from: Id) -> Option<(Id, Edge)>
    ensures { result ≡ seek_in from.0 (row_entries pairs.now) }
{
    for at in 0..pairs.len() {
        if pairs[at].0 >= from.0 {
            return Some(row_at(pairs, at));
        }
    }
    None
}
