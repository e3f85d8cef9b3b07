//! The ids that are fixed at the positions of a triple.
ghost use Rattle.std.specs.Prelude.{◌≡◌, ℕ, [], ◌∷◌, IfSome, MatchOption};
ghost use Rattle.trie_depth.specs.Masks.{FitsDepth};
ghost use Rattle.trie_depth.specs.Tuples.{trip_tuple};
ghost use Rattle.key_join.specs.Lists.{place_of, places_of, put_one, mask_behind, put, agrees, n_free, HasAt};

use trie_depth::{Id, Mask, Trip};

/// The id at each position, where one is fixed.
#[derive(Clone, Copy)]
pub struct Fixed(pub Option<Id>, pub Option<Id>, pub Option<Id>);

impl Fixed {
    /// With the key at the positions that the mask names among the free ones.
    pub fn with(self, mask: Mask, key: Id) -> Fixed
        ensures { places_of result ≡ put mask.0 key.0 (places_of self) }
    {
        let (first, behind) = put_key(self.0, mask.0, key);
        let (second, behind) = put_key(self.1, behind, key);
        let (third, _) = put_key(self.2, behind, key);
        Fixed(first, second, third)
    }

    /// Whether the triple has each id that is fixed.
    pub fn agrees(self, t: Trip) -> bool
        ensures { result ≡ agrees (places_of self) (trip_tuple t) }
    {
        stands(self.0, t.0) && stands(self.1, t.1) && stands(self.2, t.2)
    }

    /// The key of a triple at the mask, if the triple has what is fixed.
    pub fn key_of(self, mask: Mask, t: Trip) -> Option<Id>
        requires fits { FitsDepth mask.0 (n_free (places_of self)) }
        ensures some { IfSome result (λ r. HasAt self mask.0 t r.0) }
        ensures only { (k : ℕ) → HasAt self mask.0 t k → MatchOption result ⊥ (λ r. r.0 ≡ k) }
    {
        if self.with(mask, t.0).agrees(t) {
            return Some(t.0);
        }
        if self.with(mask, t.1).agrees(t) {
            return Some(t.1);
        }
        if self.with(mask, t.2).agrees(t) {
            return Some(t.2);
        }
        None
    }

    /// How many positions are free.
    pub fn n_free(self) -> usize
        ensures { result ≡ n_free (places_of self) }
    {
        free(self.0) + free(self.1) + free(self.2)
    }
}

/// What a mask of the free places makes of one of them, and what it names behind it.
fn put_key(place: Option<Id>, mask: u8, key: Id) -> (Option<Id>, u8)
    ensures place { place_of result.0 ≡ put_one mask key.0 (place_of place) }
    ensures behind { result.1 ≡ mask_behind mask (place_of place) }
{
    match place {
        Some(_) => (place, mask),
        None if mask % 2 == 1 => (Some(key), mask / 2),
        None => (None, mask / 2),
    }
}

/// Whether the id may stand there.
fn stands(place: Option<Id>, id: Id) -> bool
    ensures { result ≡ agrees (place_of place ∷ []) (id.0 ∷ []) }
{
    match place {
        Some(fixed) => fixed.0 == id.0,
        None => true,
    }
}

fn free(place: Option<Id>) -> usize
    ensures { result ≡ n_free (place_of place ∷ []) }
{
    if place.is_none() { 1 } else { 0 }
}
