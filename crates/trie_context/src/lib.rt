//! Nodes over three depths, each set stored once, with the count of the edges and holds that lead to it.
//! Equal sets are one row after any history: nodes are compared, and their hashes only find candidates.
//!
//! `specs/Rows.antt` says which set a row stands for, `specs/Holds.antt` what a hold is, and
//! `specs/Kept.antt` what holds of the tables before and after each call. `specs/ShapeLaws.antt` proves that kept
//! tables in which one row of depth three is held, and nothing else, have exactly the rows of the shape of its set.
//! `specs/Opened.antt` says what an opened row is, and `specs/Interned.antt` when a node comes back.
//! A crate above, which makes several calls in a row, finds laws in `specs/MoveLaws.antt`, `specs/StayLaws.antt`,
//! `specs/EdgeLaws.antt` and `specs/NodeLaws.antt`.
#![tactic(auto)]

mod context;
mod held;
mod intern;
mod keep;
mod kept;
mod opened;
mod place;
mod release;
mod retain;
mod root;
mod tables;

pub use context::Context;
pub use held::Held;
pub use kept::Kept;
pub use place::Place;
pub use root::Root;
pub use tables::Tables;
