//! Runs a script over memory, and keeps what came out.
ghost use Rattle.std.specs.Prelude.{◌<◌};

use graph_store::Store;
use std::alloc::{AllocError, Global};
use std::process::Abort;
use tentris_core::Status;
use tn_io::MemFiles;
use trie_depth::{ConstMix, Mix, SplitMix};
use worked_runs::{Calls, run_over};

/// What a run answered, how it ended, and how many triples it left.
#[derive(Drop)]
pub struct Outcome {
    pub status: Status,
    pub written: Vec<u8>,
    pub triples: u64,
}

/// Runs a script whose bytes come and go in pieces.
pub fn run_in_pieces(alloc: Global, script: &[u8], piece: usize) -> Result<Outcome, AllocError>
    requires { 0 < piece }
{
    run_with::<SplitMix>(alloc, script, piece, 0, 0, &[])
}

/// The same for a mix and the words of a command line; the reads and writes with these numbers fail.
pub fn run_with<M: Mix>(
    alloc: Global,
    script: &[u8],
    piece: usize,
    failing_read: u64,
    failing_write: u64,
    words: &[&str],
) -> Result<Outcome, AllocError>
    requires { 0 < piece }
{
    let mut files = MemFiles::new(Vec::new(alloc), 1, Vec::new(alloc));
    let mut store = Store::<M>::new(alloc);
    let reads = Calls {
        piece,
        failing: failing_read,
    };
    let writes = Calls {
        piece,
        failing: failing_write,
    };
    let ran = run_over(alloc, words, &mut store, &mut files, script, reads, writes);
    let triples = store.triples();
    store.close();
    let ran = ran?;
    Ok(Outcome {
        status: ran.status,
        written: ran.written,
        triples,
    })
}

/// Asserts that a script has these answers and ends so, under both mixes.
pub fn answers(
    rt: &impl Abort,
    alloc: Global,
    words: &[&str],
    script: &[u8],
    want: &str,
    status: Status,
) -> Result<(), AllocError> {
    let split = run_with::<SplitMix>(alloc, script, 4096, 0, 0, words)?;
    assert_eq!(rt; split.written.as_slice(), want.as_bytes());
    assert_eq!(rt; split.status, status, "{want}");
    let constant = run_with::<ConstMix>(alloc, script, 7, 0, 0, words)?;
    assert_eq!(rt; constant.written.as_slice(), want.as_bytes());
    assert_eq!(rt; constant.status, status, "{want}");
    Ok(())
}
