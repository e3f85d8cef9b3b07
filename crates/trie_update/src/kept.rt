//! What a change of a graph replaced.
use change_log::Log;
use trie_context::Root;

/// The root before a change, and the steps that lead back to it. It must be spent, by `settle` or by `undo`.
pub struct Undo {
    pub(crate) was: Root,
    pub(crate) log: Log,
}
