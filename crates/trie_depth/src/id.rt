//! Ids of terms, and pairs and triples of them. Their orders are those of the numbers, the first position first.

/// The number that stands for a term.
#[derive(Clone, Copy, Debug, PartialEq, Eq, PartialOrd, Ord)]
pub struct Id(pub u32);

#[derive(Clone, Copy, Debug, PartialEq, Eq, PartialOrd, Ord)]
pub struct Pair(pub Id, pub Id);

/// A triple of ids.
#[derive(Clone, Copy, Debug, PartialEq, Eq, PartialOrd, Ord)]
pub struct Trip(pub Id, pub Id, pub Id);
