//! A store that is filled, refused, emptied and read, with the figures and lines that it tells.
ghost use Rattle.std.specs.Prelude.{◌≡◌, ◌<◌, ◌≤◌, length};
ghost use Rattle.graph_store.specs.StoreState.{IsSettled};
ghost use Rattle.graph_store.specs.Staging.{Fits, AreMarked};

use graph_store::{Changed, StageFault, Staged, Stats, Store, Taken};
use ntriples::read_line;
use ntriples_model::{lines_by_productions, texts_stand_for_their_terms};
use rdf_term::Scratch;
use std::alloc::Global;
use std::marker::Brand;
use std::sync::ledger::{Blank, Ledger};
use trie_depth::{ConstMix, Memory, Mix, SplitMix, Steps};

const FIRST: &[u8] = b"<x:a> <x:p> <x:b> .";

const SECOND: &[u8] = b"<x:a> <x:p> \"b\"@en .";

const THIRD: &[u8] = b"<x:c> <x:p> <x:b> .";

const FOURTH: &[u8] = b"<x:d> <x:q> _:e .";

/// Stages the triple that a line says.
fn stage_line<M: Mix>(
    store: &mut Store<M>,
    staged: &mut Staged,
    line: &[u8],
    scratch: &mut Scratch,
) -> Result<(), StageFault>
    requires line { length line.now ≤ 1048576 }
    requires fits { Fits store.old staged.old }
    ensures { Fits store.new staged.new }
{
    // These calls tell the proof that what a line says is proper.
    lines_by_productions();
    texts_stand_for_their_terms();
    match read_line(line, "", scratch) {
        Ok(Some(triple)) => store.stage(staged, triple),
        Ok(None) | Err(_) => Ok(()),
    }
}

/// Puts in what two lines say, both or none.
fn put<M: Mix, W: Ledger, V: Ledger>(
    alloc: Global,
    store: &mut Store<M>,
    first: &[u8],
    second: &[u8],
    interns: &mut Steps<W>,
    retains: &mut Steps<V>,
) -> Result<Changed, StageFault>
    requires first { length first.now ≤ 1048576 }
    requires second { length second.now ≤ 1048576 }
    requires settled { IsSettled store.old }
    ensures { IsSettled store.new }
{
    let Ok(mut scratch) = Scratch::new(alloc) else {
        return Err(StageFault::Memory);
    };
    store.stands();
    let mut staged = Staged::new(alloc);
    if let Err(fault) = stage_line(store, &mut staged, first, &mut scratch) {
        store.abandon(staged);
        return Err(fault);
    }
    if let Err(fault) = stage_line(store, &mut staged, second, &mut scratch) {
        store.abandon(staged);
        return Err(fault);
    }
    match store.insert(alloc, staged, interns, retains) {
        Ok(changed) => Ok(changed),
        Err(Memory) => Err(StageFault::Memory),
    }
}

/// Marks the triple that a line says.
fn mark_line<M: Mix>(
    store: &Store<M>,
    taken: &mut Taken,
    line: &[u8],
    scratch: &mut Scratch,
) -> Result<(), Memory>
    requires { length line.now ≤ 1048576 }
    ensures { AreMarked store.now taken.old → AreMarked store.now taken.new }
{
    match read_line(line, "", scratch) {
        Ok(Some(triple)) => store.mark(taken, triple),
        Ok(None) | Err(_) => Ok(()),
    }
}

/// Takes out what a line says, which is marked twice.
fn take_out<M: Mix, W: Ledger, V: Ledger>(
    alloc: Global,
    store: &mut Store<M>,
    line: &[u8],
    interns: &mut Steps<W>,
    retains: &mut Steps<V>,
) -> Result<Changed, Memory>
    requires line { length line.now ≤ 1048576 }
    requires settled { IsSettled store.old }
    ensures { IsSettled store.new }
{
    let mut scratch = Scratch::new(alloc)?;
    let mut taken = Taken::new(alloc);
    mark_line(store, &mut taken, line, &mut scratch)?;
    mark_line(store, &mut taken, line, &mut scratch)?;
    store.delete(alloc, taken, interns, retains)
}

/// What each step answered, and the figures after it.
#[derive(Debug, PartialEq, Eq, Drop)]
struct Outcome {
    put: (Result<Changed, StageFault>, Stats),
    again: (Result<Changed, StageFault>, Stats),
    refused: (Result<Changed, StageFault>, Stats),
    shape: usize,
    gone: (Result<Changed, Memory>, Stats),
    dump: usize,
    is_first: bool,
}

fn history<M: Mix, W: Ledger, V: Ledger>(
    alloc: Global,
    store: &mut Store<M>,
    interns: &mut Steps<W>,
    retains: &mut Steps<V>,
) -> Result<Outcome, Memory>
    requires { IsSettled store.old }
{
    store.set_max(3);
    let put_first = put(alloc, store, FIRST, SECOND, interns, retains);
    let after_put = store.stats();
    let put_again = put(alloc, store, SECOND, SECOND, interns, retains);
    let after_again = store.stats();
    let put_more = put(alloc, store, THIRD, FOURTH, interns, retains);
    let after_more = store.stats();
    let shape = store.shape(alloc)?.len();
    let gone = take_out(alloc, store, SECOND, interns, retains);
    let after_gone = store.stats();
    let lines = store.dump(alloc)?;
    let is_first = lines.len() == 1 && lines.at(0).as_str().as_bytes() == FIRST;
    Ok(Outcome {
        put: (put_first, after_put),
        again: (put_again, after_again),
        refused: (put_more, after_more),
        shape,
        gone: (gone, after_gone),
        dump: lines.len(),
        is_first,
    })
}

fn told<M: Mix, W: Ledger, V: Ledger>(
    alloc: Global,
    blank: Blank,
    other: Blank,
) -> Result<Outcome, Memory>
    requires name { blank.name ≡ W.name }
    requires parts { blank.parts ≡ W.parts }
    requires whole { 0 < W.parts }
    requires other_name { other.name ≡ V.name }
    requires other_parts { other.parts ≡ V.parts }
    requires other_whole { 0 < V.parts }
{
    let mut interns = Steps::<W>::new(blank);
    let mut retains = Steps::<V>::new(other);
    let mut store = Store::<M>::new(alloc);
    let told = history(alloc, &mut store, &mut interns, &mut retains);
    store.close();
    told
}

/// Two triples of one subject and predicate: three sets of pairs, of which two share their set of two objects. Putting one
/// in again changes nothing. A batch of two more is one too many: it is refused, and its terms go again. When one of the
/// two is deleted, its object's term goes with it.
#[test]
fn keeps_a_graph_through_batches(rt: HostRuntime) -> Result<(), Memory> {
    let two = Stats {
        triples: 2,
        terms: 4,
        two: 3,
        one: 1,
    };
    let one = Stats {
        triples: 1,
        terms: 3,
        two: 0,
        one: 0,
    };
    let expected = Outcome {
        put: (Ok(Changed { changed: 2, now: 2 }), two),
        again: (Ok(Changed { changed: 0, now: 2 }), two),
        refused: (Err(StageFault::Full), two),
        shape: 4,
        gone: (Ok(Changed { changed: 1, now: 1 }), one),
        dump: 1,
        is_first: true,
    };
    let shared = told::<ConstMix, Brand, Brand>(rt.alloc(), Blank::new(1), Blank::new(1))?;
    let mixed = told::<SplitMix, Brand, Brand>(rt.alloc(), Blank::new(1), Blank::new(1))?;
    assert_eq!(rt; shared, expected);
    assert_eq!(rt; mixed, expected);
    Ok(())
}
