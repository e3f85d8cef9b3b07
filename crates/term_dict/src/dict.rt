//! The dictionary. A term is found again by its hash: that gives candidates, which are compared in place.
ghost use Rattle.std.specs.Prelude.{◌≡◌, ◌≢◌, ℕ, ◌<◌, ◌^◌, None, Some, IsSome, IsNone, IfSome, IfOk, OnErr, IsTrue, ◌↔◌};
ghost use Rattle.std.specs.FinMap as map;
ghost use Rattle.rdf_term.specs.Seen.{lent_term};
ghost use Rattle.hash_index.specs.Slots.{slot_at};
ghost use Rattle.term_dict.specs.Dict.{IsNew, IsOneToOne, HasSmallIds, Interns, ListsHeld, IsNotUnder, Puts, texts_of, hash_of as hash_of_term};

use crate::places::Places;
use crate::term_slot::TermSlot;
use crate::text_hash::TextHash;
use hash_index::{HashIndex, short_hash};
use rdf_term::{KindRef, TermRef, is_same_ref};
use std::alloc::Global;
use std::marker::Model;
use trie_depth::{Id, Memory};

/// Terms under Ids, each term under one.
#[derive(Drop)]
pub struct Dict {
    alloc: Global,
    secrets: TextHash,
    places: Places,
    index: HashIndex,
}

impl Model for Dict {
    ghost use Rattle.std.specs.FinMap as map;
    ghost use Rattle.std.specs.Coded.{coded_ℕ};
    ghost use Rattle.rdf_model.specs.Graph.{coded_term};
    ghost use Rattle.hash_index.specs.Slots.{numbered};
    ghost use Rattle.term_dict.specs.Dict.{Terms, IsDictionary};

    ghost Value = { Terms };

    ghost coded = { map.code coded_ℕ coded_term };

    ghost view = { λ d. numbered d.places.slots };

    ghost invariant = { λ d. IsDictionary d.secrets d.places.slots d.index };
}

impl Dict {
    /// No terms; their hashes are the same in each run.
    pub fn new(alloc: Global) -> Dict
        ensures { result ≡ map.empty }
    {
        Dict::seeded(alloc, 0)
    }

    /// No terms. Who doesn't know the seed can't choose terms of one hash, which would slow look-ups down.
    pub fn seeded(alloc: Global, seed: u64) -> Dict
        ensures { result ≡ map.empty }
    {
        Dict {
            alloc,
            secrets: TextHash::of(seed),
            places: Places::new(alloc),
            index: HashIndex::new(alloc),
        }
    }

    /// The number of terms.
    pub fn len(&self) -> u32
        ensures value { result ≡ map.len self.now }
        ensures one { IsOneToOne self.now }
        ensures small { HasSmallIds self.now }
    {
        self.places.held() as u32
    }

    /// No two Ids have one term: a law, and nothing is done.
    pub fn is_one_to_one(&self)
        ensures { IsOneToOne self.now }
    {
        let _places = &self.places;
    }

    /// The term's Id.
    pub fn find(&self, term: TermRef<'_>) -> Option<Id>
        ensures found { IfSome result (λ id. map.get self.now id.0 ≡ Some (lent_term term.entry)) }
        ensures small { IfSome result (λ id. id.0 < 2 ^ 31) }
        ensures none { IsNone result → IsNew self.now (lent_term term.entry) }
        ensures one { IsOneToOne self.now }
    {
        let hash = hash_of(&self.secrets, term);
        find_under(&self.places, &self.index, term, hash)
    }

    /// The term of an Id, whose texts are lent in place.
    pub fn term(&self, id: Id) -> TermRef<'_>
        requires { IsSome (map.get self.now id.0) }
        ensures { map.get self.now id.0 ≡ Some (lent_term result) }
    {
        match self.places.lent(id.0 as usize) {
            Some(term) => term,
            None => unreachable!(),
        }
    }

    /// The term's Id, which is a new one where the term has none. On `Memory` the dictionary is as before.
    pub fn intern(&mut self, term: TermRef<'_>) -> Result<Id, Memory>
        requires { map.len self.old < 2 ^ 31 }
        ensures small { IfOk result (λ id. id.0 < 2 ^ 31) }
        ensures interned { IfOk result (λ id. Interns self.old self.new (lent_term term.entry) id.0) }
        ensures kept { OnErr result (self.new ≡ self.old) }
        // Only a new term takes memory.
        ensures new { OnErr result (IsNew self.old (lent_term term.entry)) }
    {
        let hash = hash_of(&self.secrets, term);
        if let Some(id) = find_under(&self.places, &self.index, term, hash) {
            return Ok(id);
        }
        let number = add(self.alloc, &mut self.places, &mut self.index, term, hash)?;
        Ok(Id(number as u32))
    }

    /// Takes the Id and its term out.
    pub fn remove(&mut self, id: Id)
        requires { IsSome (map.get self.old id.0) }
        ensures { self.new ≡ map.remove self.old id.0 }
    {
        let hash = hash_of(&self.secrets, self.term(id));
        self.places.take_out(id.0 as usize);
        self.index.remove(hash, id.0 as usize);
    }
}

fn holds(places: &Places, number: usize, term: TermRef<'_>) -> bool
    ensures { IsTrue result ↔ (slot_at places.now.slots number ≡ Some (lent_term term.entry)) }
{
    match places.lent(number) {
        Some(held) => is_same_ref(held, term),
        None => false,
    }
}

// The place with the term, among those that are listed under the hash.
fn find_under(places: &Places, index: &HashIndex, term: TermRef<'_>, hash: u32) -> Option<Id>
    ensures found { IfSome result (λ id. slot_at places.now.slots id.0 ≡ Some (lent_term term.entry)) }
    ensures none { IsNone result → IsNotUnder places.now.slots index.now hash (lent_term term.entry) }
{
    for entry in index.near(hash) {
        if entry.hash == hash && holds(places, entry.number as usize, term) {
            return Some(Id(entry.number));
        }
    }
    None
}

// Puts a term into the next place, and lists it. On `Memory` it is as before.
fn add(
    alloc: Global,
    places: &mut Places,
    index: &mut HashIndex,
    term: TermRef<'_>,
    hash: u32,
) -> Result<usize, Memory>
    requires { ListsHeld places.old.slots index.old }
    ensures put { IfOk result (λ number. Puts places.old.slots places.new.slots number (lent_term term.entry)) }
    ensures listed { IfOk result (λ number. index.new ≡ map.insert index.old number hash) }
    ensures places_kept { OnErr result (places.new.slots ≡ places.old.slots) }
    ensures index_kept { OnErr result (index.new ≡ index.old) }
{
    let place = TermSlot::of(alloc, term)?;
    places.reserve()?;
    let number = places.next();
    index.add(hash, number)?;
    places.put(place);
    Ok(number)
}

fn hash_of(secrets: &TextHash, term: TermRef<'_>) -> u32
    ensures { result ≡ hash_of_term secrets.now (lent_term term.entry) }
{
    let (first, second) = hashed_texts(term);
    short_hash(secrets.hash(first, second))
}

// The texts of which a term's hash is made.
fn hashed_texts<'a>(term: TermRef<'a>) -> (&'a str, &'a str)
    ensures first { result.0.now ≡ (texts_of (lent_term term.entry)).0 }
    ensures second { result.1.now ≡ (texts_of (lent_term term.entry)).1 }
{
    match term {
        TermRef::Iri(text) => (text, ""),
        TermRef::Blank(label) => (label, "_"),
        TermRef::Literal(form, KindRef::Typed(datatype)) => (form, datatype),
        TermRef::Literal(form, KindRef::Tagged(tag)) => (form, tag),
    }
}
