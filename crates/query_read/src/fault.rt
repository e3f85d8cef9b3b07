//! Why a text isn't read.
ghost use Rattle.std.specs.Prelude.{◌≡◌};
ghost use Rattle.query_read.specs.declared.fault.ReadFault.TheVariants as cause;

use trie_depth::Memory;

/// The first fault of a text, in this order.
#[derive(Clone, Copy, Debug, PartialEq, Eq)]
pub enum ReadFault {
    /// The text is no query.
    NotQuery,
    /// A prefix isn't declared.
    NoPrefix,
    /// There are more than 32 triple patterns.
    TooManyPatterns,
    /// There are more than 128 columns.
    TooManyColumns,
    /// LIMIT or OFFSET doesn't fit 64 bits.
    TooLarge,
    /// No memory was left. It says nothing of the text.
    Memory,
}

impl From<Memory> for ReadFault {
    ghost from_gives = { λ _ fault. fault ≡ cause.Memory };

    fn from(_: Memory) -> ReadFault {
        ReadFault::Memory
    }
}
