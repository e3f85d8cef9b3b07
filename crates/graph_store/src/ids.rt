//! The Ids of a list of triples, each once.
ghost use Rattle.std.specs.Prelude.{◌≡◌, IfOk};
ghost use Rattle.trie_depth.specs.Tuples.{trip_tuple};
ghost use Rattle.trie_change.specs.Batches.{set_of_entries};
ghost use Rattle.graph_store.specs.Staging.{numbers, ids_of_all, AreDistinct, HasUsed, HasOnlyUsed};

use std::alloc::Global;
use trie_depth::{Id, Memory, Trip};

/// The Ids of the triples, as they stand there.
fn listed(alloc: Global, batch: &[Trip]) -> Result<Vec<Id>, Memory>
    ensures { IfOk result (λ v. v.items ≡ ids_of_all batch.now) }
{
    let mut ids = Vec::with_capacity(alloc, batch.len().saturating_mul(3))?;
    for trip in batch {
        ids.push(trip.0)?;
        ids.push(trip.1)?;
        ids.push(trip.2)?;
    }
    Ok(ids)
}

/// The Ids that the triples have.
pub(crate) fn ids_in(alloc: Global, batch: &[Trip]) -> Result<Vec<Id>, Memory>
    ensures used { IfOk result (λ v. HasUsed (numbers v.items) (set_of_entries trip_tuple batch.now)) }
    ensures only { IfOk result (λ v. HasOnlyUsed (numbers v.items) (set_of_entries trip_tuple batch.now)) }
    ensures once { IfOk result (λ v. AreDistinct (numbers v.items)) }
{
    let mut ids = listed(alloc, batch)?;
    ids.sort_unstable();
    ids.dedup();
    Ok(ids)
}
