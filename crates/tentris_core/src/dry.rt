//! A dry run: a script in memory, whose answers nobody reads.
ghost use Rattle.std.specs.Prelude.{◌≡◌, ◌≢◌, map};
ghost use Rattle.command_words.specs.Answers.{answer_to};
ghost use Rattle.graph_store.specs.StoreState.{IsSettled};
ghost use Rattle.graph_store.specs.Stands.{Stands};
ghost use Rattle.tn_io.specs.Memory.{pure_left};
ghost use Rattle.tn_io.specs.MemoryFiles.{pure_files};
ghost use Rattle.tentris_core.specs.Called.{IsByWords};
ghost use Rattle.tentris_core.specs.Dry.{EndsDry};

use crate::running::{Status, run};
use graph_store::{NoWatch, Store};
use std::alloc::Global;
use tn_io::{NullSink, PureFiles, PureSource};
use trie_depth::Mix;

// Carries out what is left of the script.
fn run_unheard<M: Mix>(
    alloc: Global,
    words: &[&str],
    store: &mut Store<M>,
    files: &mut PureFiles,
    script: &mut PureSource,
) -> Status
    requires settled { IsSettled store.old }
    ensures ends { EndsDry M.mixed words.now (pure_left script.old) files.old files.new store.old store.new result }
    ensures words { IsByWords (answer_to (map (λ word. word.now) words.now)) result }
    ensures settled { IsSettled store.new }
    ensures stands { Stands M.mixed store.new }
    ensures files { pure_files files.new ≡ pure_files files.old }
    ensures reads { result ≢ Status.ReadFault }
    ensures writes { result ≢ Status.WriteFault }
{
    let mut sink = NullSink::new();
    run(alloc, words, store, files, script, &mut sink, &mut NoWatch)
}

/// Carries out a script in memory over the store and over files in memory, and drops the answers.
///
/// It is `run` where no read of the script and no write of an answer can fail. A LOAD or UNLOAD of a name that isn't among
/// the files is refused.
pub fn dry_run<M: Mix>(
    alloc: Global,
    words: &[&str],
    store: &mut Store<M>,
    files: &mut PureFiles,
    script: Vec<u8>,
) -> Status
    requires settled { IsSettled store.old }
    ensures ends { EndsDry M.mixed words.now script.items files.old files.new store.old store.new result }
    ensures words { IsByWords (answer_to (map (λ word. word.now) words.now)) result }
    ensures settled { IsSettled store.new }
    ensures stands { Stands M.mixed store.new }
    ensures files { pure_files files.new ≡ pure_files files.old }
    ensures reads { result ≢ Status.ReadFault }
    ensures writes { result ≢ Status.WriteFault }
{
    let mut source = PureSource::new(script);
    run_unheard(alloc, words, store, files, &mut source)
}
