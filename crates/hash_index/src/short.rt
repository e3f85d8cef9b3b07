//! The part of a 64-bit hash under which a number is listed.
ghost use Rattle.std.specs.Prelude.{◌≡◌};
ghost use Rattle.hash_index.specs.Short.{short_of};

/// The upper half of a hash.
pub fn short_hash(hash: u64) -> u32
    ensures { result ≡ short_of hash }
{
    (hash >> 32) as u32
}
