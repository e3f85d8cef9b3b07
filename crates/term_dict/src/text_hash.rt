//! A hash of texts under a seed. Who doesn't know the seed can't make texts whose hashes agree.
//!
//! Sixteen bytes at a time are multiplied to 128 bits, and the halves of these are joined. It differs from the standard
//! library's `FoldHasher` in that each factor has a secret in it: no text makes a factor small.
ghost use Rattle.std.specs.Prelude.{◌≡◌, ◌+◌, ◌≤◌, length};
ghost use Rattle.std.specs.Hash.FoldHasher as folding;
ghost use Rattle.term_dict.specs.TextHash.{after, hash_of_texts};

use std::hash::{FoldHasher, Hasher};

/// The secrets that a seed gives.
#[derive(Clone, Copy)]
pub struct TextHash {
    start: u64,
    key: u64,
}

impl TextHash {
    pub(crate) fn of(seed: u64) -> TextHash {
        let mut hasher = FoldHasher::default();
        hasher.write_u64(seed);
        let start = hasher.finish();
        hasher.write_u64(seed);
        TextHash {
            start,
            key: hasher.finish(),
        }
    }

    /// The hash of two texts.
    pub(crate) fn hash(&self, first: &str, second: &str) -> u64
        ensures { result ≡ hash_of_texts self.now first.now second.now }
    {
        let state = self.after(self.start, first.as_bytes());
        self.after(state, second.as_bytes())
    }

    // The state after these bytes.
    fn after(&self, state: u64, bytes: &[u8]) -> u64
        ensures { result ≡ after self.now.key state bytes.now }
    {
        let len = bytes.len();
        if len <= 8 {
            return folded(state ^ short_word(bytes), self.key ^ (2 * len as u64));
        }
        let mut state = state.wrapping_add(len as u64);
        let mut at = 0;
        while len - at > 16 {
            state = folded(word(bytes, at) ^ state, word(bytes, at + 8) ^ self.key);
            at += 16;
        }
        folded(
            word(bytes, len.saturating_sub(16)) ^ state,
            word(bytes, len - 8) ^ self.key,
        )
    }
}

// The halves of a product, joined.
fn folded(a: u64, b: u64) -> u64
    ensures { result ≡ folding.folded_multiply a b }
{
    let product = a as u128 * b as u128;
    (product & 0xFFFF_FFFF_FFFF_FFFF) as u64 ^ (product >> 64) as u64
}

// The eight bytes from here on.
fn word(bytes: &[u8], at: usize) -> u64
    requires { at + 8 ≤ length bytes.now }
    ensures { result ≡ folding.read_u64 bytes.now at }
{
    half_word(bytes, at) | half_word(bytes, at + 4) << 32
}

fn half_word(bytes: &[u8], at: usize) -> u64
    requires { at + 4 ≤ length bytes.now }
    ensures { result ≡ folding.read_u32 bytes.now at }
{
    u32::from_le_bytes([bytes[at], bytes[at + 1], bytes[at + 2], bytes[at + 3]]) as u64
}

// Up to eight bytes, by reads that may overlap.
fn short_word(bytes: &[u8]) -> u64
    ensures { result ≡ folding.read_short bytes.now }
{
    let len = bytes.len();
    if len >= 4 {
        return half_word(bytes, 0) | half_word(bytes, len - 4) << 32;
    }
    if len > 0 {
        return bytes[0] as u64 | (bytes[len / 2] as u64) << 8 | (bytes[len - 1] as u64) << 16;
    }
    0
}
