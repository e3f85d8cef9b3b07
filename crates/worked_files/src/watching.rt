//! What a watch is shown: the graph after each command, be it carried out, refused or unanswered.
ghost use Rattle.std.specs.Prelude.{◌<◌};

use graph_store::{KeepDumps, Store};
use std::alloc::{AllocError, Global};
use std::test::Fail;
use tentris_core::{Status, run};
use tn_io::{MemFiles, MemSink, MemSource};
use trie_depth::{ConstMix, Mix, SplitMix};

const B: &str = "<x:a> <x:p> <x:b> .";

const C: &str = "<x:a> <x:p> <x:c> .";

const Z: &str = "<x:z> <x:q> <x:b> .";

// Three changes and a command that changes nothing; then one that is refused, and one that has no end.
const SCRIPT: &str =
    "INSERT\n<x:a> <x:p> <x:c> .\n<x:z> <x:q> <x:b> .\nGO\nINSERT\n<x:a> <x:p> <x:b> .\nGO\n\
    DELETE\n<x:z> <x:q> <x:b> .\nGO\nSHAPE\n";

const REFUSED: &str =
    "LOAD\n# no command\n\nINSERT\n<x:a> <x:p> <x:b> .\nGO\nINSERT\n<x:a> <x:p> <x:c> .\n<x:a>\nGO\nDELETE\n<x:a> <x:p> <x:b> .\n";

// Commands that change nothing, behind one that puts a triple in.
const UNCHANGED: &str =
    "INSERT\n<x:a> <x:p> <x:b> .\nGO\nINSERT\nGO\nSTATS\nSHAPE\nDUMP\nQUERY\nSELECT * { }\nGO\nQUERY\nGO\nGENERATE 0 1\nLOAD none\nUNLOAD none\n";

// Runs a script whose write with this number fails, and keeps what a watch is shown.
fn watched<M: Mix>(
    alloc: Global,
    script: &str,
    failing_write: u64,
) -> Result<(Status, KeepDumps), AllocError> {
    let mut source = MemSource::new(script.as_bytes().to_vec(alloc)?, 7, Vec::new(alloc));
    let mut sink = MemSink::new(alloc, 8192, [failing_write].to_vec(alloc)?);
    let mut files = MemFiles::new(Vec::new(alloc), 1, Vec::new(alloc));
    let mut store = Store::<M>::new(alloc);
    let mut watch = KeepDumps::new(alloc);
    let status = run(
        alloc,
        &[],
        &mut store,
        &mut files,
        &mut source,
        &mut sink,
        &mut watch,
    );
    store.close();
    Ok((status, watch))
}

// Whether these are the lines of the dumps that were kept.
fn has_kept(watch: &KeepDumps, want: &[&[&str]]) -> bool {
    if !watch.tells() || watch.len() != want.len() {
        return false;
    }
    want.iter()
        .enumerate()
        .all(|(place, lines)| has_lines(watch, place, lines))
}

fn has_lines(watch: &KeepDumps, place: usize, want: &[&str]) -> bool {
    if watch.len() <= place {
        return false;
    }
    let shown = watch.at(place);
    if shown.len() != want.len() {
        return false;
    }
    for (row, line) in want.iter().enumerate() {
        if shown.len() <= row || shown.at(row).as_str() != *line {
            return false;
        }
    }
    true
}

#[test]
fn each_command_is_shown_once(rt: HostRuntime) -> Result<(), Fail> {
    let want: [&[&str]; 4] = [&[C, Z], &[B, C, Z], &[B, C], &[B, C]];
    let (status, split) = watched::<SplitMix>(rt.alloc(), SCRIPT, 0)?;
    assert_eq!(rt; status, Status::Done);
    assert!(rt; has_kept(&split, &want));
    let (_, constant) = watched::<ConstMix>(rt.alloc(), SCRIPT, 0)?;
    assert!(rt; has_kept(&constant, &want));
    Ok(())
}

#[test]
fn refused_commands_are_shown(rt: HostRuntime) -> Result<(), Fail> {
    let want: [&[&str]; 4] = [&[], &[B], &[B], &[B]];
    let (status, watch) = watched::<SplitMix>(rt.alloc(), REFUSED, 0)?;
    assert_eq!(rt; status, Status::SomeRefused);
    assert!(rt; has_kept(&watch, &want));
    Ok(())
}

#[test]
fn commands_that_change_nothing_are_shown(rt: HostRuntime) -> Result<(), Fail> {
    let want: [&[&str]; 10] = [&[B]; 10];
    let (_, watch) = watched::<SplitMix>(rt.alloc(), UNCHANGED, 0)?;
    assert!(rt; has_kept(&watch, &want));
    Ok(())
}

#[test]
fn a_command_without_its_answer_is_shown(rt: HostRuntime) -> Result<(), Fail> {
    let want: [&[&str]; 3] = [&[C, Z], &[B, C, Z], &[B, C]];
    for (failing, count) in [(1u64, 1usize), (2, 2), (3, 3)] {
        let (status, watch) = watched::<SplitMix>(rt.alloc(), SCRIPT, failing)?;
        assert_eq!(rt; status, Status::WriteFault, "write {failing}");
        assert!(rt; has_kept(&watch, &want[..count]), "write {failing}");
    }
    Ok(())
}
