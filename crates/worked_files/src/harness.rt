//! Runs a script over one file in memory, and keeps what came out.
ghost use Rattle.std.specs.Prelude.{◌<◌};

use graph_store::Store;
use std::alloc::{AllocError, Global};
use tentris_core::Status;
use trie_depth::Mix;
use worked_runs::{Calls, WHOLE, one_file};

/// What a run answered, how it ended, and how many triples it left.
#[derive(Drop)]
pub struct Outcome {
    pub status: Status,
    pub written: Vec<u8>,
    pub triples: u64,
}

/// A file whose reads give at most so many bytes, and the number of a read that fails; 0 is none.
#[derive(Clone, Copy)]
pub struct Pieces<'a> {
    pub file: &'a [u8],
    pub piece: usize,
    pub failing: u64,
}

/// Runs a script over one file, `f`.
pub fn run_over<M: Mix>(
    alloc: Global,
    words: &[&str],
    script: &[u8],
    pieces: Pieces<'_>,
) -> Result<Outcome, AllocError>
    requires { 0 < pieces.piece }
{
    let reads = Calls {
        piece: pieces.piece,
        failing: pieces.failing,
    };
    let mut files = one_file(alloc, pieces.file, reads)?;
    let mut store = Store::<M>::new(alloc);
    let ran = worked_runs::run_over(alloc, words, &mut store, &mut files, script, WHOLE, WHOLE);
    let triples = store.triples();
    store.close();
    let ran = ran?;
    Ok(Outcome {
        status: ran.status,
        written: ran.written,
        triples,
    })
}
