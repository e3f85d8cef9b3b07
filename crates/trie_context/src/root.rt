//! The root of a graph.
use crate::held::Held;
use trie_depth::{L3, Trip};

/// What a graph of triples keeps: nothing, its one triple, or a hold on the row of depth three that stands for its set
/// of two or more. `specs/Roots.antt` says which set that is.
pub enum Root {
    Empty,
    One(Trip),
    Many(Held<L3>),
}
