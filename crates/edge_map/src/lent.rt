//! The chunks of a map, lent.
use crate::long::Long;
use crate::short::Short;

#[derive(Drop)]
pub enum Lent<'a> {
    /// At most one chunk.
    Short(Short<'a>),
    /// Several chunks.
    Long(&'a Long),
}
