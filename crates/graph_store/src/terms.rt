//! Terms of triples that come into a dictionary, with a note of those that are new, and go again.
ghost use Rattle.std.specs.Prelude.{◌≡◌, ◌⊎◌, ◌+◌, ◌<◌, ◌≤◌, ◌^◌, ℕ, true, take, drop, IsSome, IsNone, IfSome, IfOk, OnOk, OnErr, vec_len, length};
ghost use Rattle.std.specs.FinMap as map;
ghost use Rattle.rdf_term.specs.Seen.{lent_term};
ghost use Rattle.rdf_term.specs.Seen.{lent_triple};
ghost use Rattle.term_dict.specs.Dict.{IsNew};
ghost use Rattle.graph_image.specs.Images.{is_among, without};
ghost use Rattle.graph_store.specs.Staging.{numbers, AreDistinct};
ghost use Rattle.graph_store.specs.Noted.{Notes, Grows, HasIds, HasNewTerm, AddsTerms};

use ntriples::TripleRef;
use rdf_term::TermRef;
use term_dict::Dict;
use trie_depth::{Id, Memory, Trip};

/// The Ids of a triple's terms, if the dictionary has all three.
pub(crate) fn ids_of(dict: &Dict, triple: TripleRef<'_>) -> Option<Trip>
    ensures some { IfSome result (λ trip. HasIds dict.now (lent_triple triple.entry) trip) }
    ensures none { IsNone result → HasNewTerm dict.now (lent_triple triple.entry) }
{
    let s = dict.find(triple.s)?;
    let p = dict.find(triple.p)?;
    let o = dict.find(triple.o)?;
    Some(Trip(s, p, o))
}

/// Takes the Ids and their terms out.
pub(crate) fn remove_all(dict: &mut Dict, ids: &[Id])
    requires there { (id : ℕ) → is_among (numbers ids.now) id ≡ true → IsSome (map.get dict.old id) }
    requires once { AreDistinct (numbers ids.now) }
    ensures { dict.new ≡ without dict.old (numbers ids.now) }
{
    for id in ids {
        dict.remove(*id);
    }
}

/// Takes back what was noted past the first `keep`.
pub(crate) fn take_back(dict: &mut Dict, noted: &mut Vec<Id>, keep: usize)
    requires within { keep ≤ vec_len noted.old }
    requires there { (id : ℕ) → is_among (numbers (drop keep noted.old.items)) id ≡ true → IsSome (map.get dict.old id) }
    requires once { AreDistinct (numbers (drop keep noted.old.items)) }
    ensures dict { dict.new ≡ without dict.old (numbers (drop keep noted.old.items)) }
    ensures noted { noted.new.items ≡ take keep noted.old.items }
{
    remove_all(dict, &noted[keep..]);
    noted.truncate(keep);
}

/// The term's Id, which is noted where it is new.
fn intern_noted(dict: &mut Dict, noted: &mut Vec<Id>, term: TermRef<'_>) -> Result<Id, Memory>
    requires room { map.len dict.old < 2 ^ 31 }
    ensures ok { IfOk result (λ id. Notes dict.old noted.old.items dict.new noted.new.items (lent_term term.entry) id) }
    ensures dict { OnErr result (dict.new ≡ dict.old) }
    ensures noted { OnErr result (noted.new.items ≡ noted.old.items) }
{
    let before = dict.len();
    let id = dict.intern(term)?;
    if dict.len() > before {
        if let Err(_) = noted.push(id) {
            dict.remove(id);
            return Err(Memory);
        }
    }
    Ok(id)
}

fn intern_each(dict: &mut Dict, noted: &mut Vec<Id>, triple: TripleRef<'_>) -> Result<Trip, Memory>
    requires room { map.len dict.old + 2 < 2 ^ 31 }
    ensures ids { IfOk result (λ trip. HasIds dict.new (lent_triple triple.entry) trip) }
    ensures terms { OnOk result (AddsTerms dict.old dict.new (lent_triple triple.entry)) }
    ensures grows { Grows dict.old noted.old.items dict.new noted.new.items }
{
    let s = intern_noted(dict, noted, triple.s)?;
    let p = intern_noted(dict, noted, triple.p)?;
    let o = intern_noted(dict, noted, triple.o)?;
    Ok(Trip(s, p, o))
}

/// The Ids of a triple's terms, each noted where it is new. On `Memory` dictionary and notes are as before.
pub(crate) fn intern_triple(
    dict: &mut Dict,
    noted: &mut Vec<Id>,
    triple: TripleRef<'_>,
) -> Result<Trip, Memory>
    requires room { map.len dict.old + 2 < 2 ^ 31 }
    ensures ids { IfOk result (λ trip. HasIds dict.new (lent_triple triple.entry) trip) }
    ensures terms { OnOk result (AddsTerms dict.old dict.new (lent_triple triple.entry)) }
    ensures grows { OnOk result (Grows dict.old noted.old.items dict.new noted.new.items) }
    ensures dict { OnErr result (dict.new ≡ dict.old) }
    ensures noted { OnErr result (noted.new.items ≡ noted.old.items) }
{
    let keep = noted.len();
    match intern_each(dict, noted, triple) {
        Ok(trip) => Ok(trip),
        Err(fault) => {
            take_back(dict, noted, keep);
            Err(fault)
        }
    }
}
