//! A 64-bit number for each entry, of which the hash of a node is made. No answer of the program depends on it.
ghost use Rattle.std.specs.Prelude.{◌≡◌, ◌<◌, ◌^◌, ℕ};
ghost use Rattle.trie_depth.specs.Mixing.{round_one, round_two};

use crate::id::Id;

/// A way to mix. Positions past the depth are `Id(0)`.
pub trait Mix {
    ghost mixed: { ℕ → ℕ → ℕ → ℕ → ℕ };

    fn mix(depth: u8, a: Id, b: Id, c: Id) -> u64
        ensures { result ≡ mixed depth a.0 b.0 c.0 };

    ghost small: { (d a b c : ℕ) → mixed d a b c < 2 ^ 64 };
}

/// 0 for every entry: every two nodes then have the same hash.
pub struct ConstMix;

impl Mix for ConstMix {
    ghost use Rattle.trie_depth.specs.MixLaws.{const_small};

    ghost mixed = { λ d a b c. 0 };

    ghost small = { const_small };

    fn mix(_depth: u8, _a: Id, _b: Id, _c: Id) -> u64 {
        0
    }
}

/// The rounds of SplitMix64, one for each position.
pub struct SplitMix;

impl Mix for SplitMix {
    ghost use Rattle.trie_depth.specs.Mixing.{split_mix};
    ghost use Rattle.trie_depth.specs.MixLaws.{split_mix_small};

    ghost mixed = { split_mix };

    ghost small = { split_mix_small };

    fn mix(depth: u8, a: Id, b: Id, c: Id) -> u64 {
        let first = scramble(u64::from(a.0) + 1);
        if depth == 1 {
            return first;
        }
        let second = scramble(first.wrapping_add(u64::from(b.0)).wrapping_add(GOLDEN));
        if depth == 2 {
            return second;
        }
        scramble(second.wrapping_add(u64::from(c.0)).wrapping_add(GOLDEN))
    }
}

/// 2 to the 64 divided by the golden ratio.
const GOLDEN: u64 = 0x9E37_79B9_7F4A_7C15;

#[tactic(auto, unfolding(crate::specs::Mixing::round_one, crate::specs::Mixing::round_two))]
fn scramble(z: u64) -> u64
    ensures { result ≡ round_two (round_one z) }
{
    let one = (z ^ (z >> 30)).wrapping_mul(0xBF58_476D_1CE4_E5B9);
    let two = (one ^ (one >> 27)).wrapping_mul(0x94D0_49BB_1331_11EB);
    two ^ (two >> 31)
}
