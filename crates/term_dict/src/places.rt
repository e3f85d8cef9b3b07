//! Places for terms. A place that was given up is used again before a new one is made.
ghost use Rattle.std.specs.Prelude.{◌≡◌, ◌<◌, [], None, IsSome, OnOk, length, is_some, count_by};
ghost use Rattle.hash_index.specs.Slots.{slot_at, Writes};
ghost use Rattle.term_dict.specs.Places.{term_in, IsParted, IsLentFrom, IsUsedAgainFirst, IsOneMoreAtMost};

use crate::term_slot::TermSlot;
use rdf_term::TermRef;
use std::alloc::Global;
use std::marker::Model;
use std::mem;
use trie_depth::Memory;

#[derive(Drop)]
pub struct Places {
    places: Vec<TermSlot>,
    held: usize,
    // The first of the places without a term, each of which names the next, or the number of places.
    next: usize,
}

impl Model for Places {
    ghost use Rattle.std.specs.Prelude.{map, vec_capacity};
    ghost use Rattle.term_dict.specs.Places.{Slots, slots_code, term_in, IsLinked};

    ghost Value = { Slots };

    ghost coded = { slots_code };

    ghost view = { λ p. record { slots = map term_in p.places.items; next = p.next; capacity = vec_capacity p.places } };

    ghost invariant = { λ p. IsLinked p.places.items p.held p.next };
}

impl Places {
    pub(crate) fn new(alloc: Global) -> Places
        ensures { result.slots ≡ [] }
    {
        Places {
            places: Vec::new(alloc),
            held: 0,
            next: 0,
        }
    }

    /// The number of terms.
    pub(crate) fn held(&self) -> usize
        ensures { result ≡ count_by is_some self.now.slots }
    {
        self.held
    }

    /// The term in a place, lent.
    pub(crate) fn lent(&self, number: usize) -> Option<TermRef<'_>>
        ensures { IsLentFrom self.now.slots number result }
    {
        self.places.get(number)?.lent()
    }

    /// Makes room for one more term.
    pub(crate) fn reserve(&mut self) -> Result<(), Memory>
        ensures ok { OnOk result (self.new.next < self.new.capacity) }
        ensures slots { self.new.slots ≡ self.old.slots }
        ensures next { self.new.next ≡ self.old.next }
    {
        if self.next == self.places.len() {
            self.places.reserve(1)?;
        }
        Ok(())
    }

    /// The place that the next term gets: one without a term, or a new one where each place has a term.
    pub(crate) fn next(&self) -> usize
        ensures value { result ≡ self.now.next }
        ensures vacant { slot_at self.now.slots result ≡ None }
        ensures least { IsUsedAgainFirst self.now.slots result }
    {
        self.next
    }

    /// Puts a term into the next place.
    pub(crate) fn put(&mut self, place: TermSlot)
        requires room { self.old.next < self.old.capacity }
        requires term { IsSome (term_in place) }
        requires parted { IsParted place }
        ensures written { Writes self.old.slots self.new.slots self.old.next (term_in place) }
        ensures len { IsOneMoreAtMost self.old.slots self.new.slots self.old.next }
    {
        let number = self.next;
        self.held += 1;
        if number == self.places.len() {
            self.places.push_reserved(place);
            self.next = number + 1;
            return;
        }
        match mem::replace(&mut self.places[number], place) {
            TermSlot::Vacant(next) => self.next = next,
            _ => unreachable!(),
        }
    }

    /// Gives a place up.
    pub(crate) fn take_out(&mut self, number: usize)
        requires { IsSome (slot_at self.old.slots number) }
        ensures written { Writes self.old.slots self.new.slots number None }
        ensures len { length self.new.slots ≡ length self.old.slots }
    {
        self.places[number] = TermSlot::Vacant(self.next);
        self.held -= 1;
        self.next = number;
    }
}
