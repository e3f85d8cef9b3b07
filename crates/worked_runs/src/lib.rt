//! Runs scripts over one store in memory, one after another. Tests stand on it.
#![tactic(auto)]

ghost use Rattle.std.specs.Prelude.{◌<◌};
ghost use Rattle.graph_store.specs.StoreState.{IsSettled};

use graph_store::{NoWatch, Store};
use std::alloc::{AllocError, Global};
use tentris_core::{Status, run};
use tn_io::{Bytes, MemFiles, MemSink, MemSource, Text};
use trie_depth::Mix;

/// A call moves at most so many bytes, and the one with this number fails; 0 is none.
#[derive(Clone, Copy)]
pub struct Calls {
    pub piece: usize,
    pub failing: u64,
}

/// Calls that move whatever they are asked for.
pub const WHOLE: Calls = Calls {
    piece: 4096,
    failing: 0,
};

/// The words that ask for sorted rows.
pub const SORTED: &[&str] = &["--sort"];

/// How a run ended, and what it wrote.
#[derive(Drop)]
pub struct Outcome {
    pub status: Status,
    pub written: Vec<u8>,
}

/// Runs a script over a store and over files, under the words of a command line.
pub fn run_over<M: Mix>(
    alloc: Global,
    words: &[&str],
    store: &mut Store<M>,
    files: &mut MemFiles,
    script: &[u8],
    reads: Calls,
    writes: Calls,
) -> Result<Outcome, AllocError>
    requires settled { IsSettled store.old }
    requires reads { 0 < reads.piece }
    requires writes { 0 < writes.piece }
    ensures { IsSettled store.new }
{
    let mut source = MemSource::new(
        script.to_vec(alloc)?,
        reads.piece,
        [reads.failing].to_vec(alloc)?,
    );
    let mut sink = MemSink::new(alloc, writes.piece, [writes.failing].to_vec(alloc)?);
    let status = run(
        alloc,
        words,
        store,
        files,
        &mut source,
        &mut sink,
        &mut NoWatch,
    );
    Ok(Outcome {
        status,
        written: sink.bytes().to_vec(alloc)?,
    })
}

/// The same without a file, with sorted rows.
pub fn run_on<M: Mix>(
    alloc: Global,
    store: &mut Store<M>,
    script: &[u8],
    reads: Calls,
    writes: Calls,
) -> Result<Outcome, AllocError>
    requires settled { IsSettled store.old }
    requires reads { 0 < reads.piece }
    requires writes { 0 < writes.piece }
    ensures { IsSettled store.new }
{
    let mut files = MemFiles::new(Vec::new(alloc), 1, Vec::new(alloc));
    run_over(alloc, SORTED, store, &mut files, script, reads, writes)
}

/// One file, `f`.
pub fn named(alloc: Global, file: &[u8]) -> Result<Vec<(Text, Bytes)>, AllocError> {
    let Ok(name) = Text::of(alloc, "f") else {
        return Err(AllocError);
    };
    let mut named = Vec::new(alloc);
    named.push((name, Bytes::of(file.to_vec(alloc)?)))?;
    Ok(named)
}

/// The same, read by such calls.
pub fn one_file(alloc: Global, file: &[u8], reads: Calls) -> Result<MemFiles, AllocError>
    requires { 0 < reads.piece }
{
    Ok(MemFiles::new(
        named(alloc, file)?,
        reads.piece,
        [reads.failing].to_vec(alloc)?,
    ))
}

/// What a script answers over the store, where no call fails.
pub fn told<M: Mix>(
    alloc: Global,
    store: &mut Store<M>,
    script: &[u8],
) -> Result<Vec<u8>, AllocError>
    requires { IsSettled store.old }
    ensures { IsSettled store.new }
{
    Ok(run_on(alloc, store, script, WHOLE, WHOLE)?.written)
}

// An INSERT block of the triples of a dump.
fn block_of(alloc: Global, dump: &[u8]) -> Result<Vec<u8>, AllocError> {
    let mut block = b"INSERT\n".to_vec(alloc)?;
    for line in dump.split(|byte| *byte == b'\n') {
        if !line.starts_with(b"ok dump ") {
            block.extend_from_slice(line)?;
            block.push(b'\n')?;
        }
    }
    block.extend_from_slice(b"GO\n")?;
    Ok(block)
}

/// What SHAPE says of the graph of a dump, in a store that never had another one.
pub fn shape_of<M: Mix>(alloc: Global, dump: &[u8]) -> Result<Vec<u8>, AllocError> {
    let block = block_of(alloc, dump)?;
    let mut store = Store::<M>::new(alloc);
    let inserted = told(alloc, &mut store, &block);
    let shape = told(alloc, &mut store, b"SHAPE\n");
    store.close();
    inserted?;
    shape
}
