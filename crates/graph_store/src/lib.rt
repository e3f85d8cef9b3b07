//! The store of a graph: a hypertrie over Ids, with a dictionary of terms, changed by batches of triples. Contracts see
//! it as a graph of RDF, a set of triples of terms (`specs/StoreState.antt`).
//!
//! A batch is staged triple by triple, which may add terms to the dictionary, and then put in as a whole, or abandoned
//! with the terms that it added (`specs/Staging.antt`). Triples that are to go are marked first, and deleted together. The
//! rows that answer a query are listed one by one.
#![tactic(auto)]

mod ids;
mod listed;
mod look_up;
mod report;
mod staged;
mod store;
mod taken;
mod terms;
mod trips;
mod watch;

pub use graph_listing::{Listing, whole_listings};
pub use report::Stats;
pub use staged::{StageFault, Staged};
pub use store::{Changed, Store};
pub use taken::Taken;
pub use watch::{KeepDumps, NoWatch, Watch};
