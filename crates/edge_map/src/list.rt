//! The chunks of a map. Most maps have one, whose few entries lie in the map itself or in a block of their own.
ghost use Rattle.std.specs.Prelude.{◌≡◌, ◌≤◌, ◌^◌, [], ◌∷◌, IfSome, IfOk, OnOk, length};
ghost use Rattle.std.proofs.Common.{option_to_list};
ghost use Rattle.edge_map.specs.Entries.{KeysRise, AreSmall};
ghost use Rattle.edge_map.specs.Chunks.{flat, seek_in, AreSized, chunk_of};
ghost use Rattle.edge_map.specs.Few.{own_entries};
ghost use Rattle.edge_map.specs.Lists.{chunks_in, chunks_lent};
ghost use Rattle.edge_map.specs.Pages.{paged, AreFull};

use crate::chunk::Chunk;
use crate::edge::Edge;
use crate::few::{MorePairs, OwnKeys, Pairs, key_pairs, own_keys, row_pairs};
use crate::lent::Lent;
use crate::long::Long;
use crate::packed::Packed;
use crate::page::Page;
use crate::place::known;
use crate::short::{Seen, Short};
use std::alloc::Global;
use std::marker::Model;
use std::rc::Rc;
use trie_depth::{Id, Memory};

/// Nothing that a map of few entries needs lies elsewhere, but one block of memory.
#[derive(Drop)]
pub enum Listed {
    Nothing,
    /// One key, and the key that is its edge.
    OneKey(Id, Id),
    /// One key, and the row that is its edge.
    OneRow(Id, usize),
    /// Two keys, each its own edge.
    TwoOwn([u32; 2]),
    /// Three keys, each its own edge.
    ThreeOwn([u32; 3]),
    /// Keys, each its own edge.
    Own(Box<OwnKeys>),
    /// Keys, each with a key that is its edge.
    Keys(Box<Pairs>),
    MoreKeys(Box<MorePairs>),
    /// Keys, each with a row that is its edge.
    Rows(Box<Pairs>),
    /// One chunk of any kind, which several maps share.
    Packed(Rc<Packed>),
    /// Several chunks, which several maps share.
    Many(Rc<Long>),
}

const _: () = prove!(size_of::<Listed>() == 16);

pub struct ChunkList {
    listed: Listed,
}

/// One call, so that no caller's proof goes through the cases.
impl Drop for ChunkList {
    fn drop(self) {
        let ChunkList { listed: _ } = self;
    }
}

impl Model for ChunkList {
    ghost use Rattle.std.specs.Prelude.{List};
    ghost use Rattle.trie_depth.specs.declared.id.Id.{Id};
    ghost use Rattle.edge_map.specs.declared.edge.Edge.{Edge};
    ghost use Rattle.edge_map.specs.Few.{own_entries};
    ghost use Rattle.edge_map.specs.Lists.{chunks_in};

    ghost Value = { List (List (Id × Edge)) };

    ghost view = { λ l. chunks_in l.listed };
}

/// Whether each key is an id, as each is.
fn all_known(entries: &[(Id, Edge)])
    ensures { AreSmall entries.now }
{
    for (key, _) in entries {
        known(*key);
    }
}

/// A single entry, in place.
fn single(key: Id, edge: Edge) -> Listed
    ensures { chunks_in result ≡ chunk_of ((key, edge) ∷ []) }
{
    match edge {
        Edge::Key(other) => Listed::OneKey(key, other),
        Edge::Node(row) => Listed::OneRow(key, row),
    }
}

/// Keys that are their own edges: two or three in place, more in a block.
fn own(alloc: Global, keys: OwnKeys) -> Result<Listed, Memory>
    ensures { IfOk result (λ listed. chunks_in listed ≡ chunk_of (own_entries keys.items)) }
{
    match keys.as_slice() {
        [one, two] => Ok(Listed::TwoOwn([*one, *two])),
        [one, two, three] => Ok(Listed::ThreeOwn([*one, *two, *three])),
        _ => Ok(Listed::Own(Box::new(alloc, keys)?)),
    }
}

/// The entries in place or in a block of their own, if they are few and of one kind.
fn few(alloc: Global, entries: &[(Id, Edge)]) -> Result<Option<Listed>, Memory>
    ensures { IfOk result (λ o. IfSome o (λ listed. chunks_in listed ≡ chunk_of entries.now)) }
{
    if let Some(keys) = own_keys(entries) {
        return Ok(Some(own(alloc, keys)?));
    }
    if let Some(pairs) = key_pairs::<4>(entries) {
        return Ok(Some(Listed::Keys(Box::new(alloc, pairs)?)));
    }
    if let Some(pairs) = key_pairs::<8>(entries) {
        return Ok(Some(Listed::MoreKeys(Box::new(alloc, pairs)?)));
    }
    if let Some(pairs) = row_pairs(entries) {
        return Ok(Some(Listed::Rows(Box::new(alloc, pairs)?)));
    }
    Ok(None)
}

/// The entries of one chunk in the least room.
fn least(alloc: Global, entries: &[(Id, Edge)]) -> Result<Listed, Memory>
    ensures made { IfOk result (λ listed. chunks_in listed ≡ chunk_of entries.now) }
{
    if let [(key, edge)] = entries {
        return Ok(single(*key, *edge));
    }
    if let Some(listed) = few(alloc, entries)? {
        return Ok(listed);
    }
    let packed = Packed::make(alloc, entries)?;
    Ok(Listed::Packed(Rc::new(alloc, packed)?))
}

impl ChunkList {
    pub fn new() -> ChunkList
        ensures { result ≡ [] }
    {
        ChunkList {
            listed: Listed::Nothing,
        }
    }

    /// The entries in one chunk, in none where there are none.
    pub fn small(alloc: Global, entries: &[(Id, Edge)]) -> Result<ChunkList, Memory>
        ensures made { IfOk result (λ list. list ≡ chunk_of entries.now) }
        ensures small { AreSmall entries.now }
    {
        all_known(entries);
        if entries.is_empty() {
            return Ok(ChunkList::new());
        }
        let listed = least(alloc, entries)?;
        Ok(ChunkList { listed })
    }

    /// One chunk, or none.
    pub fn few(chunk: Option<Chunk>) -> ChunkList
        ensures { result ≡ option_to_list chunk }
    {
        match chunk {
            Some(chunk) => {
                chunk.len();
                ChunkList {
                    listed: Listed::Packed(chunk.into_packed()),
                }
            }
            None => ChunkList::new(),
        }
    }

    /// The chunks of the pages.
    pub fn many(alloc: Global, pages: Vec<Page>) -> Result<ChunkList, Memory>
        requires few { length (flat (paged pages.items)) ≤ 2 ^ 32 }
        requires full { AreFull pages.items }
        ensures { IfOk result (λ list. list ≡ paged pages.items) }
    {
        let long = Rc::new(alloc, Long::of(pages))?;
        Ok(ChunkList {
            listed: Listed::Many(long),
        })
    }

    /// The same chunks once more. What isn't in place or in a small block is shared.
    pub fn share(&self) -> Result<ChunkList, Memory>
        ensures { IfOk result (λ list. list ≡ self.now) }
    {
        let listed = match &self.listed {
            Listed::Nothing => Listed::Nothing,
            Listed::OneKey(key, other) => Listed::OneKey(*key, *other),
            Listed::OneRow(key, row) => Listed::OneRow(*key, *row),
            Listed::TwoOwn(keys) => Listed::TwoOwn(*keys),
            Listed::ThreeOwn(keys) => Listed::ThreeOwn(*keys),
            Listed::Own(keys) => Listed::Own(keys.clone()?),
            Listed::Keys(pairs) => Listed::Keys(pairs.clone()?),
            Listed::MoreKeys(pairs) => Listed::MoreKeys(pairs.clone()?),
            Listed::Rows(pairs) => Listed::Rows(pairs.clone()?),
            Listed::Packed(packed) => Listed::Packed(packed.clone()?),
            Listed::Many(long) => Listed::Many(long.clone()?),
        };
        Ok(ChunkList { listed })
    }

    /// The chunks, lent.
    pub fn lent(&self) -> Lent<'_>
        ensures { chunks_lent result ≡ self.now }
    {
        let seen = match &self.listed {
            Listed::Nothing => Seen::Nothing,
            Listed::OneKey(key, other) => Seen::OneKey(*key, *other),
            Listed::OneRow(key, row) => Seen::OneRow(*key, *row),
            Listed::TwoOwn(keys) => Seen::Own(keys),
            Listed::ThreeOwn(keys) => Seen::Own(keys),
            Listed::Own(keys) => Seen::Own(keys.as_slice()),
            Listed::Keys(pairs) => Seen::Keys(pairs.as_slice()),
            Listed::MoreKeys(pairs) => Seen::Keys(pairs.as_slice()),
            Listed::Rows(pairs) => Seen::Rows(pairs.as_slice()),
            Listed::Packed(packed) => Seen::Packed(packed),
            Listed::Many(long) => return Lent::Long(long),
        };
        Lent::Short(Short::of(seen))
    }

    /// How many entries the chunks have.
    pub fn len(&self) -> usize
        ensures { result ≡ length (flat self.now) }
    {
        match self.lent() {
            Lent::Short(short) => short.len(),
            Lent::Long(long) => long.len(),
        }
    }

    /// The first entry whose key isn't below `from`.
    pub fn seek(&self, from: Id) -> Option<(Id, Edge)>
        requires rising { KeysRise (flat self.now) }
        requires sized { AreSized self.now }
        ensures { result ≡ seek_in from.0 (flat self.now) }
    {
        match self.lent() {
            Lent::Short(short) => short.seek(from),
            Lent::Long(long) => long.seek(from),
        }
    }

    /// How many chunks there are.
    pub fn count(&self) -> usize
        requires { length self.now ≤ 2 ^ 32 }
        ensures { result ≡ length self.now }
    {
        match self.lent() {
            Lent::Short(short) => usize::from(short.len() > 0),
            Lent::Long(long) => long.count(),
        }
    }
}
