//! Counters of the nodes that changes of a graph make, look up and hold, and of what listings read. Contracts alone see
//! their numbers.
use std::sync::ledger::Ledger;
use trie_depth::Steps;

/// How many nodes were made or looked up, how many were held once more, and how often a listing read one.
#[derive(Drop)]
pub struct Counts<W: Ledger, V: Ledger, U: Ledger> {
    pub interns: Steps<W>,
    pub retains: Steps<V>,
    pub reads: Steps<U>,
}
