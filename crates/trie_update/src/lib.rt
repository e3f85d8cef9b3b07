//! A batch of triples put into a graph, or taken out of it. A row that nothing else leads to is opened, changed and stored
//! again; any other is copied. What a change replaces is kept until it is settled, so that for want of memory, or by
//! `undo`, everything is as before.
#![tactic(auto)]

mod end;
mod kept;
mod open;
mod replaced;
mod update;

pub use end::{settle, undo};
pub use kept::Undo;
pub use open::{grow_open, shrink_open};
pub use trie_context::Root;
pub use update::{grow, shrink};
