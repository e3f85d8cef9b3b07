//! The place with the least count, of those that are allowed.
ghost use Rattle.std.specs.Prelude.{◌≡◌, ◌<◌, ℕ, IsNone, IfSome, length, MatchOption};
ghost use Rattle.query_plan.specs.Allowed.{IsAllowed, IsLeast, IsBeforeEquals, lesser_of};

/// The allowed place with the least count, the first of equals.
pub fn choose(counts: &[u64], allowed: &[bool]) -> Option<usize>
    requires { length counts.now ≡ length allowed.now }
    ensures none { IsNone result → (i : ℕ) → IsAllowed allowed.now i → ⊥ }
    ensures allowed { IfSome result (λ r. IsAllowed allowed.now r) }
    ensures least { IfSome result (IsLeast counts.now allowed.now) }
    ensures first { IfSome result (IsBeforeEquals counts.now allowed.now) }
{
    let mut best = None;
    for i in 0..counts.len() {
        if allowed[i] {
            best = Some(lesser(counts, best, i));
        }
    }
    best
}

/// Of the two places the one with the lesser count, the first of equals.
fn lesser(counts: &[u64], best: Option<usize>, i: usize) -> usize
    requires best { MatchOption best (Unit {0}) (λ b. b < length counts.now) }
    requires i { i < length counts.now }
    ensures { result ≡ lesser_of counts.now best i }
{
    match best {
        Some(least) if counts[least] <= counts[i] => least,
        _ => i,
    }
}
