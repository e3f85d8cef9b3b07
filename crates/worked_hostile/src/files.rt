//! A read of a file fails: each of them in turn. The LOAD is refused as if it weren't there.
ghost use Rattle.std.specs.Prelude.{◌<◌};
ghost use Rattle.graph_store.specs.StoreState.{IsSettled};

use crate::tables::{LOADED, LOADS, PEOPLE};
use graph_store::Store;
use std::alloc::{AllocError, Global};
use std::process::Abort;
use std::test::Fail;
use tentris_core::Status;
use trie_depth::{ConstMix, Mix, SplitMix};
use worked_runs::{Calls, SORTED, WHOLE, one_file, run_over};

// The loads with one failing read, and what they must answer.
fn load<M: Mix>(
    rt: &impl Abort,
    alloc: Global,
    store: &mut Store<M>,
    reads: Calls,
    want: &str,
    status: Status,
) -> Result<(), AllocError>
    requires settled { IsSettled store.old }
    requires piece { 0 < reads.piece }
{
    let mut files = one_file(alloc, PEOPLE.as_bytes(), reads)?;
    let script = LOADS.as_bytes();
    let got = run_over(alloc, SORTED, store, &mut files, script, WHOLE, WHOLE)?;
    assert_eq!(rt;
        got.written.as_slice(),
        want.as_bytes(),
        "read {}",
        reads.failing
    );
    assert_eq!(rt; got.status, status, "read {}", reads.failing);
    Ok(())
}

// The reads that one LOAD makes, the last one at the file's end.
fn reads_of_a_load(piece: usize) -> u64
    requires { 0 < piece }
{
    (PEOPLE.len() as u64)
        .div_ceil(piece as u64)
        .saturating_add(1)
}

// Each read of either LOAD in turn.
fn each_read<M: Mix>(rt: &impl Abort, alloc: Global, piece: usize) -> Result<(), AllocError>
    requires { 0 < piece }
{
    let once = reads_of_a_load(piece);
    for failing in 1..=once.saturating_mul(2).saturating_add(1) {
        let (want, status) = if failing <= once {
            (LOADED[0], Status::SomeRefused)
        } else if failing <= once.saturating_mul(2) {
            (LOADED[1], Status::SomeRefused)
        } else {
            (LOADED[2], Status::Done)
        };
        let mut store = Store::<M>::new(alloc);
        let tried = load(
            rt,
            alloc,
            &mut store,
            Calls { piece, failing },
            want,
            status,
        );
        store.close();
        tried?;
    }
    Ok(())
}

#[test]
fn reads_of_forty_bytes(rt: HostRuntime) -> Result<(), Fail> {
    each_read::<SplitMix>(&rt, rt.alloc(), 40)?;
    each_read::<ConstMix>(&rt, rt.alloc(), 40)?;
    Ok(())
}

#[test]
fn reads_of_three_bytes(rt: HostRuntime) -> Result<(), Fail> {
    each_read::<SplitMix>(&rt, rt.alloc(), 3)?;
    Ok(())
}
