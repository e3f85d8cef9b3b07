//! Where a key belongs among keys that rise. A few are tried one by one, as most lists are short and most keys stand
//! where the last one was found; else the place is guessed from the first key and the last, and found from there by
//! doubled steps and halving.
ghost use Rattle.std.specs.Prelude.{◌≡◌, ℕ, ◌<◌, ◌≤◌, length};
ghost use Rattle.std.proofs.Common.{get_or};
ghost use Rattle.trie_depth.specs.declared.id.Id.{Id};
ghost use Rattle.edge_map.specs.Entries.{KeysRise, place_of};
ghost use Rattle.edge_map.specs.Packing.{keyed, AreBelow, IsBetween};

use trie_depth::Id;

/// How many keys are tried one by one.
const SHORT: usize = 8;

/// The place between two others, by halving.
fn between(keys: &[Id], from: Id, low: usize, high: usize) -> usize
    requires rising { KeysRise (keyed keys.now) }
    requires between { IsBetween keys.now from.0 low high }
    ensures place { result ≡ place_of from.0 (keyed keys.now) }
    ensures within { result ≤ length keys.now }
{
    let mut low = low;
    let mut high = high;
    while low < high {
        let middle = low + (high - low) / 2;
        if keys[middle].0 < from.0 {
            low = middle + 1;
        } else {
            high = middle;
        }
    }
    low
}

/// The place behind a key that is below `from`, by doubled steps.
fn upward(keys: &[Id], from: Id, at: usize) -> usize
    requires rising { KeysRise (keyed keys.now) }
    requires there { at < length keys.now }
    requires below { (d : Id) → (get_or keys.now at d).0 < from.0 }
    ensures place { result ≡ place_of from.0 (keyed keys.now) }
    ensures within { result ≤ length keys.now }
{
    let mut low = at;
    let mut step = 1usize;
    while step < keys.len() - low {
        if keys[low + step].0 >= from.0 {
            return between(keys, from, low + 1, low + step);
        }
        low += step;
        step = step.saturating_mul(2);
    }
    between(keys, from, low + 1, keys.len())
}

/// The place at a key that isn't below `from`, or before it, by doubled steps.
fn downward(keys: &[Id], from: Id, at: usize) -> usize
    requires rising { KeysRise (keyed keys.now) }
    requires there { at < length keys.now }
    requires above { (d : Id) → from.0 ≤ (get_or keys.now at d).0 }
    ensures place { result ≡ place_of from.0 (keyed keys.now) }
    ensures within { result ≤ length keys.now }
{
    let mut high = at;
    let mut step = 1usize;
    while step <= high {
        if keys[high - step].0 < from.0 {
            return between(keys, from, high - step + 1, high);
        }
        high -= step;
        step = step.saturating_mul(2);
    }
    between(keys, from, 0, high)
}

/// A place as far from the first one as `from` is from the first key.
fn guess(keys: &[Id], from: Id) -> usize
    requires { 0 < length keys.now }
    ensures { result < length keys.now }
{
    let last = keys.len() - 1;
    let (least, most) = (keys[0].0, keys[last].0);
    if from.0 <= least {
        return 0;
    }
    if most <= from.0 {
        return last;
    }
    let places = last.min(65_535) as u64;
    let share = u64::from(from.0 - least) * places / u64::from(most - least);
    (share as usize).min(last)
}

/// A place before which all keys are below `from`: the near one, if its key isn't above.
fn start(keys: &[Id], from: Id, near: usize) -> usize
    requires { KeysRise (keyed keys.now) }
    ensures below { AreBelow keys.now from.0 result }
    ensures within { result ≤ length keys.now }
{
    if near < keys.len() && keys[near].0 <= from.0 {
        near
    } else {
        0
    }
}

/// How many keys are below `from`. The search begins at a place that is thought to be near.
pub fn place_in(keys: &[Id], from: Id, near: usize) -> usize
    requires { KeysRise (keyed keys.now) }
    ensures place { result ≡ place_of from.0 (keyed keys.now) }
    ensures within { result ≤ length keys.now }
{
    let first = start(keys, from, near);
    let end = first.saturating_add(SHORT).min(keys.len());
    for at in first..end {
        if keys[at].0 >= from.0 {
            return at;
        }
    }
    if end == keys.len() {
        return end;
    }
    let at = guess(keys, from);
    if keys[at].0 < from.0 {
        upward(keys, from, at)
    } else {
        downward(keys, from, at)
    }
}
