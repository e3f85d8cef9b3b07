//! The least key that several operands admit at once. `specs/Common.antt` says what that is.
#![tactic(auto)]

mod common;
mod fixed;
mod least;
mod list;

pub use common::next_common;
pub use list::ListOp;
