//! Which bucket a hash belongs to. Buckets come one by one, and each new one takes a part of one that was there: so an
//! index grows without a pause, and never holds its entries twice.
ghost use Rattle.std.specs.Prelude.{◌≡◌, ◌<◌};
ghost use Rattle.hash_index.specs.Buckets.{bucket_of};

/// The bucket of a hash, among so many: by one bit more of the hash, where there is a bucket for these.
pub(crate) fn place_of(bits: u32, count: usize, hash: u32) -> usize
    requires { bits < 32 }
    ensures { result ≡ bucket_of bits count hash }
{
    let place = hash as usize % (1 << (bits + 1));
    if place < count {
        return place;
    }
    hash as usize % (1 << bits)
}
