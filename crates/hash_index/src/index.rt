//! The index: buckets of entries, which a look-up finds by some bits of the hash.
ghost use Rattle.std.specs.Prelude.{◌≡◌, ℕ, ◌+◌, ◌<◌, None, Some, OnOk, OnErr, length, slice_set, vec_len, vec_capacity};
ghost use Rattle.std.specs.List.{Contains};
ghost use Rattle.std.specs.FinMap as map;
ghost use Rattle.hash_index.specs.Buckets.{entries_at, times, bucket_of, Adds, ChangesOneOf, HasAllUnder, IsParted, KeepListed, TakesOne};

use crate::bucket::Bucket;
use crate::entry::Entry;
use crate::place::place_of;
use std::alloc::Global;
use std::marker::Model;
use trie_depth::Memory;

/// How many entries there are for each bucket.
const FULL: usize = 10;

#[derive(Drop)]
pub struct HashIndex {
    alloc: Global,
    buckets: Vec<Bucket>,
    /// So many bits of a hash choose its bucket, or one more.
    bits: u32,
    /// How many entries there are. It decides when a bucket is parted, and nothing else.
    len: usize,
}

impl Model for HashIndex {
    ghost use Rattle.std.specs.Prelude.{ℕ};
    ghost use Rattle.std.specs.Ordering.{nat_cmp};
    ghost use Rattle.std.specs.FinMap as map;
    ghost use Rattle.std.specs.Coded.{coded_ℕ};
    ghost use Rattle.hash_index.specs.Buckets.{hashes_of, IsSound};

    ghost Value = { map.FinMap nat_cmp ℕ };

    ghost coded = { map.code coded_ℕ coded_ℕ };

    ghost view = { λ index. hashes_of index.buckets.items };

    ghost invariant = { λ index. IsSound index.buckets.items index.bits };
}

impl HashIndex {
    pub fn new(alloc: Global) -> HashIndex
        ensures { result ≡ map.empty }
    {
        HashIndex {
            alloc,
            buckets: Vec::new(alloc),
            bits: 0,
            len: 0,
        }
    }

    /// Some entries, those under the hash among them.
    pub fn near(&self, hash: u32) -> &[Entry]
        ensures listed { (e : Entry) → Contains result.now e → map.get self.now e.number ≡ Some e.hash }
        ensures all { HasAllUnder self.now hash result.now }
    {
        let place = place_of(self.bits, self.buckets.len(), hash);
        entries_in(self.buckets.as_slice(), place)
    }

    /// Lists a number under a hash.
    pub fn add(&mut self, hash: u32, number: usize) -> Result<(), Memory>
        requires { map.get self.old number ≡ None }
        ensures added { OnOk result (self.new ≡ map.insert self.old number hash) }
        ensures kept { OnErr result (self.new ≡ self.old) }
    {
        let Some(entry) = Entry::of(hash, number) else {
            return Err(Memory);
        };
        let alloc = self.alloc;
        make_room(&mut self.buckets, &mut self.bits, alloc, self.len);
        put(&mut self.buckets, self.bits, entry)?;
        self.len = self.len.saturating_add(1);
        Ok(())
    }

    /// Takes a number from under its hash. It takes no memory.
    pub fn remove(&mut self, hash: u32, number: usize)
        requires { map.get self.old number ≡ Some hash }
        ensures { self.new ≡ map.remove self.old number }
    {
        take_out(&mut self.buckets, self.bits, hash, number);
        self.len = self.len.saturating_sub(1);
    }
}

fn entries_in<'a>(buckets: &'a [Bucket], place: usize) -> &'a [Entry]
    ensures { result.now ≡ entries_at buckets.now place }
{
    match buckets.get(place) {
        Some(bucket) => bucket.as_slice(),
        None => &[],
    }
}

fn put(buckets: &mut Vec<Bucket>, bits: u32, entry: Entry) -> Result<(), Memory>
    requires { bits < 32 }
    ensures added { OnOk result (ChangesOneOf (Adds entry) bits entry.hash buckets.old.items buckets.new.items) }
    ensures kept { OnErr result (buckets.new.items ≡ buckets.old.items) }
{
    let place = place_of(bits, buckets.len(), entry.hash);
    match buckets.get_mut(place) {
        Some(bucket) => bucket.push(entry),
        // There is none before the first is made.
        None => Err(Memory),
    }
}

fn take_out(buckets: &mut Vec<Bucket>, bits: u32, hash: u32, number: usize)
    requires bits { bits < 32 }
    requires there { 0 < times hash number (entries_at buckets.old.items (bucket_of bits (length buckets.old.items) hash)) }
    ensures { ChangesOneOf (TakesOne hash number) bits hash buckets.old.items buckets.new.items }
{
    let place = place_of(bits, buckets.len(), hash);
    match buckets.get_mut(place) {
        Some(bucket) => bucket.take_out(hash, number),
        None => unreachable!(),
    }
}

// Makes one bucket more where there are enough entries for it. For want of memory the buckets get fuller.
fn make_room(buckets: &mut Vec<Bucket>, bits: &mut u32, alloc: Global, entries: usize)
    requires { bits.old < 32 }
    ensures bits { bits.new < 32 }
    ensures same { KeepListed bits.old buckets.old.items bits.new buckets.new.items }
{
    if entries / FULL >= buckets.len() {
        let _ = part_one(buckets, bits, alloc);
    }
}

// Makes one bucket more, of a part of one that was there.
fn part_one(buckets: &mut Vec<Bucket>, bits: &mut u32, alloc: Global) -> Result<(), Memory>
    requires { bits.old < 32 }
    ensures bits { bits.new < 32 }
    ensures same { KeepListed bits.old buckets.old.items bits.new buckets.new.items }
{
    let wide = next_bits(*bits, buckets.len());
    part(buckets, wide, alloc)?;
    *bits = wide;
    Ok(())
}

fn part(buckets: &mut Vec<Bucket>, bits: u32, alloc: Global) -> Result<(), Memory>
    requires { bits < 32 }
    ensures parted { OnOk result (IsParted bits buckets.old.items buckets.new.items) }
    ensures kept { OnErr result (buckets.new.items ≡ buckets.old.items) }
{
    let count = buckets.len();
    let place = count % (1 << bits);
    let entries = entries_in(buckets.as_slice(), place);
    let stay = Bucket::of(alloc, entries, bits, count + 1, place)?;
    let moved = Bucket::of(alloc, entries, bits, count + 1, count)?;
    reserve_one(buckets)?;
    set_bucket(buckets, place, stay);
    buckets.push_reserved(moved);
    Ok(())
}

fn reserve_one(buckets: &mut Vec<Bucket>) -> Result<(), Memory>
    ensures room { OnOk result (vec_len buckets.new < vec_capacity buckets.new) }
    ensures kept { buckets.new.items ≡ buckets.old.items }
{
    let count = buckets.len();
    if count == buckets.capacity() {
        // Small, since more than this is never empty.
        buckets.reserve_exact(count / 8 + 4)?;
    }
    Ok(())
}

fn set_bucket(buckets: &mut Vec<Bucket>, place: usize, bucket: Bucket)
    ensures set { buckets.new.items ≡ slice_set buckets.old.items place bucket }
    ensures len { vec_len buckets.new ≡ vec_len buckets.old }
    ensures capacity { vec_capacity buckets.new ≡ vec_capacity buckets.old }
{
    if let Some(old) = buckets.get_mut(place) {
        *old = bucket;
    }
}

// One bit more, once there is a bucket for each way in which they can fall.
fn next_bits(bits: u32, count: usize) -> u32
    requires { bits < 32 }
    ensures small { result < 32 }
    ensures same { (hash : ℕ) → bucket_of result count hash ≡ bucket_of bits count hash }
{
    if bits < 31 && count == 1 << (bits + 1) {
        return bits + 1;
    }
    bits
}
