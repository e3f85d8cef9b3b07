//! Several positions of a tuple at once. `specs/Masks.antt` says which masks fit a depth.

/// A set of positions: bit i stands for position i.
#[derive(Clone, Copy, Debug, PartialEq, Eq, PartialOrd, Ord)]
pub struct Mask(pub u8);
