//! A bucket: the few entries whose hashes agree in some bits, in one small block of memory.
ghost use Rattle.std.specs.Prelude.{◌≡◌, ◌+◌, ◌++◌, ◌∷◌, [], ◌<◌, ◌==◌, Some, OnOk, OnErr, IfOk, length, slice_get};
ghost use Rattle.std.specs.List.{filter};
ghost use Rattle.hash_index.specs.Buckets.{times, TakesOne, bucket_of};

use crate::entry::Entry;
use crate::place::place_of;
use std::alloc::Global;
use std::marker::Model;
use trie_depth::Memory;

/// For how many entries more there is room where a bucket was full. Small, since most room in a bucket stays empty.
const STEP: usize = 4;

#[derive(Drop)]
pub struct Bucket {
    entries: Vec<Entry>,
}

impl Model for Bucket {
    ghost use Rattle.std.specs.Prelude.{List};
    ghost use Rattle.hash_index.specs.declared.entry.Entry.{Entry};

    ghost Value = { List Entry };

    ghost view = { λ b. b.entries.items };
}

impl Bucket {
    pub(crate) fn as_slice(&self) -> &[Entry]
        ensures { result.now ≡ self.now }
    {
        self.entries.as_slice()
    }

    pub(crate) fn push(&mut self, entry: Entry) -> Result<(), Memory>
        ensures added { OnOk result (self.new ≡ self.old ++ entry ∷ []) }
        ensures kept { OnErr result (self.new ≡ self.old) }
    {
        if self.entries.len() == self.entries.capacity() {
            self.entries.reserve_exact(STEP)?;
        }
        self.entries.push_reserved(entry);
        Ok(())
    }

    /// Takes an entry out that is there.
    pub(crate) fn take_out(&mut self, hash: u32, number: usize)
        requires { 0 < times hash number self.old }
        ensures { TakesOne hash number self.old self.new }
    {
        let place = place_in(self.entries.as_slice(), hash, number);
        self.entries.swap_remove(place);
        if self.entries.len() + 2 * STEP < self.entries.capacity() {
            self.entries.shrink_to_fit();
        }
    }

    /// Those of the entries whose bucket is this one, where there are so many buckets.
    pub(crate) fn of(
        alloc: Global,
        entries: &[Entry],
        bits: u32,
        count: usize,
        bucket: usize,
    ) -> Result<Bucket, Memory>
        requires { bits < 32 }
        ensures { IfOk result (λ b. b ≡ filter (λ e. bucket_of bits count e.hash == bucket) entries.now) }
    {
        // About half of them, and some room for more.
        let mut chosen = Bucket {
            entries: Vec::with_capacity(alloc, entries.len() / 2 + 2)?,
        };
        for entry in entries {
            if place_of(bits, count, entry.hash) == bucket {
                chosen.push(*entry)?;
            }
        }
        Ok(chosen)
    }
}

fn place_in(entries: &[Entry], hash: u32, number: usize) -> usize
    requires { 0 < times hash number entries.now }
    ensures within { result < length entries.now }
    ensures found { slice_get entries.now result ≡ Some (record { hash = hash; number = number }) }
{
    for (place, entry) in entries.iter().enumerate() {
        if entry.hash == hash && entry.number as usize == number {
            return place;
        }
    }
    unreachable!()
}
