//! A write of the answers fails: each of them in turn.
ghost use Rattle.graph_store.specs.StoreState.{IsSettled};

use crate::tables::{STEPS, closed_within, script_of_steps};
use graph_store::Store;
use std::alloc::{AllocError, Global};
use std::process::Abort;
use std::test::Fail;
use tentris_core::Status;
use trie_depth::{ConstMix, Mix, SplitMix};
use worked_runs::{Calls, WHOLE, run_on, shape_of, told};

const PIECE: usize = 5;

// How many writes the answers take: those of each are passed on before the next command.
fn number_of_writes() -> u64 {
    let mut writes = 0u64;
    for step in STEPS {
        writes = writes.saturating_add(step.answer.len().div_ceil(PIECE) as u64);
    }
    writes
}

// A store whose tables have the shape of its graph, as SHAPE and DUMP show them.
fn is_in_shape<M: Mix>(
    rt: &impl Abort,
    alloc: Global,
    store: &mut Store<M>,
) -> Result<(), AllocError>
    requires { IsSettled store.old }
{
    let shape = told(alloc, store, b"SHAPE\n")?;
    let dump = told(alloc, store, b"DUMP\n")?;
    assert_eq!(rt; shape.as_slice(), shape_of::<M>(alloc, &dump)?.as_slice());
    Ok(())
}

// The script until the write with this number fails.
fn cut_off<M: Mix>(
    rt: &impl Abort,
    alloc: Global,
    store: &mut Store<M>,
    failing: u64,
) -> Result<(), AllocError>
    requires { IsSettled store.old }
{
    let script = script_of_steps(alloc)?;
    let (answers, _) = closed_within(alloc, script.len())?;
    let writes = Calls {
        piece: PIECE,
        failing,
    };
    let got = run_on(alloc, store, &script, WHOLE, writes)?;
    assert_eq!(rt; got.status, Status::WriteFault, "write {failing}");
    assert!(rt; answers.starts_with(&got.written), "write {failing}");
    is_in_shape(rt, alloc, store)
}

// Each write in turn.
fn each_write<M: Mix>(rt: &impl Abort, alloc: Global) -> Result<(), AllocError> {
    for failing in 1..=number_of_writes() {
        let mut store = Store::<M>::new(alloc);
        let tried = cut_off(rt, alloc, &mut store, failing);
        store.close();
        tried?;
    }
    Ok(())
}

#[test]
fn writes_under_the_split_mix(rt: HostRuntime) -> Result<(), Fail> {
    each_write::<SplitMix>(&rt, rt.alloc())?;
    Ok(())
}

#[test]
fn writes_under_the_constant_mix(rt: HostRuntime) -> Result<(), Fail> {
    each_write::<ConstMix>(&rt, rt.alloc())?;
    Ok(())
}
