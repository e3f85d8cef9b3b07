//! Common keys of operands.
ghost use Rattle.std.specs.Prelude.{◌≡◌, ◌+◌, ◌-◌, ◌<◌, ◌≤◌, ℕ, length, IsNone, IfSome};
ghost use Rattle.key_join.specs.Common.{AdmitsAt, AllFit, AllAdmit};

use std::sync::ledger::Ledger;
use trie_depth::{Id, Mask, Operand, Steps};

/// Asks the operands behind the one at `at`, which admits the key, in a circle: the first greater key that one answers, and
/// its place. Where all admit the key, it comes back.
fn turn<O: Operand, W: Ledger>(
    ops: &[O],
    masks: &[Mask],
    key: Id,
    at: usize,
    reads: &mut Steps<W>,
) -> Option<(Id, usize)>
    requires same { length ops.now ≡ length masks.now }
    requires fit { AllFit O.depth_of ops.now masks.now }
    requires at { at < length ops.now }
    requires admitted { AdmitsAt O.tuples ops.now masks.now at key.0 }
    ensures none { IsNone result → (k : ℕ) → key.0 ≤ k → AllAdmit O.tuples ops.now masks.now k → ⊥ }
    ensures rise { IfSome result (λ r. key.0 ≤ r.0.0) }
    ensures at { IfSome result (λ r. r.1 < length ops.now) }
    ensures admitted { IfSome result (λ r. AdmitsAt O.tuples ops.now masks.now r.1 r.0.0) }
    ensures skipped { IfSome result (λ r. (k : ℕ) → key.0 ≤ k → k < r.0.0 → AllAdmit O.tuples ops.now masks.now k → ⊥) }
    ensures common { IfSome result (λ r. r.0.0 ≡ key.0 → AllAdmit O.tuples ops.now masks.now key.0) }
{
    for i in 1..ops.len() {
        let place = behind(at, i, ops.len());
        let found = ops[place].seek(masks[place], key, reads)?;
        if found.0 != key.0 {
            return Some((found, place));
        }
    }
    Some((key, at))
}

/// The place that is i places behind another one, of n in a circle.
fn behind(at: usize, i: usize, n: usize) -> usize
    requires at { at < n }
    requires i { i < n }
    ensures within { result < n }
    ensures on { i < n - at → result ≡ at + i }
    ensures around { n - at ≤ i → result + n ≡ at + i }
{
    let left = n - at;
    if i < left { at + i } else { i - left }
}

/// The least key not below `from` that every operand admits at its mask.
pub fn next_common<O: Operand, W: Ledger>(
    ops: &[O],
    masks: &[Mask],
    from: Id,
    reads: &mut Steps<W>,
) -> Option<Id>
    requires some { 1 ≤ length ops.now }
    requires same { length ops.now ≡ length masks.now }
    requires fit { AllFit O.depth_of ops.now masks.now }
    ensures none { IsNone result → (k : ℕ) → from.0 ≤ k → AllAdmit O.tuples ops.now masks.now k → ⊥ }
    ensures common { IfSome result (λ r. AllAdmit O.tuples ops.now masks.now r.0) }
    ensures from { IfSome result (λ r. from.0 ≤ r.0) }
    ensures least { IfSome result (λ r. (k : ℕ) → from.0 ≤ k → k < r.0 → AllAdmit O.tuples ops.now masks.now k → ⊥) }
{
    let mut key = ops[0].seek(masks[0], from, reads)?;
    let mut at = 0;
    loop {
        let (next, place) = turn(ops, masks, key, at, reads)?;
        if next.0 == key.0 {
            return Some(key);
        }
        key = next;
        at = place;
    }
}
