//! A number under its hash, in eight bytes.
ghost use Rattle.std.specs.Prelude.{◌≡◌, ◌≤◌, ◌^◌, IfSome, IsNone};

/// A number, and the hash under which it is listed.
#[derive(Clone, Copy, Drop)]
pub struct Entry {
    pub hash: u32,
    pub number: u32,
}

impl Entry {
    /// The entry, unless the number takes more than 32 bits.
    pub(crate) fn of(hash: u32, number: usize) -> Option<Entry>
        ensures entry { IfSome result (λ e. e ≡ record { hash = hash; number = number }) }
    {
        if number >= 1 << 32 {
            return None;
        }
        Some(Entry {
            hash,
            number: number as u32,
        })
    }
}
