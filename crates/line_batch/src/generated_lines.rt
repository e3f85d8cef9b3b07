//! Generated triples, as the lines of one batch.
ghost use Rattle.std.specs.Prelude.{◌≡◌, ◌≤◌};
ghost use Rattle.script_model.specs.Commands as script;
ghost use Rattle.run_model.specs.Loads.{generated_sayings};
ghost use Rattle.graph_store.specs.StoreState.{IsSettled};
ghost use Rattle.line_batch.specs.Seen.{answer_of};
ghost use Rattle.line_batch.specs.Batches.{IsBatch, IsReady, Generates};

use crate::answer::Answer;
use crate::batch::Batch;
use crate::counts::Counts;
use generated_triples::generated_triple;
use graph_store::Store;
use rdf_term::Scratch;
use std::alloc::Global;
use std::sync::ledger::Ledger;
use trie_depth::Mix;

// The generated triples as a batch. None comes behind one that can't be put in.
fn gathered<M: Mix>(
    alloc: Global,
    store: &mut Store<M>,
    count: u64,
    salt: u64,
    scratch: &mut Scratch,
) -> Batch
    requires most { count ≤ 500000000 }
    requires settled { IsSettled store.old }
    ensures ready { IsReady store.new result }
    ensures batch { IsBatch store.old script.Inserts (generated_sayings count salt) store.new result }
{
    let mut batch = Batch::inserts(alloc, store);
    for k in 0..count {
        let triple = generated_triple(count, salt, k, scratch);
        match batch.with_triple(store, triple, k + 1) {
            Batch::Refused(cause) => return Batch::Refused(cause),
            next => batch = next,
        }
    }
    batch
}

/// Puts in so many generated triples, by a salt, or none of them: as the lines of a block would that say them.
pub fn generate<M: Mix, W: Ledger, V: Ledger, U: Ledger>(
    alloc: Global,
    store: &mut Store<M>,
    count: u64,
    salt: u64,
    scratch: &mut Scratch,
    counts: &mut Counts<W, V, U>,
) -> Answer
    requires most { count ≤ 500000000 }
    requires settled { IsSettled store.old }
    ensures { Generates M.mixed count salt store.old store.new (answer_of result) }
{
    gathered(alloc, store, count, salt, scratch).carry_out(alloc, store, counts)
}
