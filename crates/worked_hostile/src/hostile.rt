//! Scripts that mean harm: deep brackets, and lines as long as they may be.
ghost use Rattle.std.specs.Prelude.{◌<◌};

use crate::tables::{HOSTILE, Repeats};
use graph_store::Store;
use std::alloc::{AllocError, Global};
use std::process::Abort;
use std::test::Fail;
use trie_depth::{ConstMix, Mix, SplitMix};
use worked_runs::{Calls, WHOLE, run_on};

// The script of a row.
fn script_of(alloc: Global, row: Repeats) -> Result<Vec<u8>, AllocError> {
    let mut script = row.front.as_bytes().to_vec(alloc)?;
    for _ in 0..row.times {
        script.extend_from_slice(row.repeated.as_bytes())?;
    }
    script.extend_from_slice(row.middle.as_bytes())?;
    if !row.closing.is_empty() {
        for _ in 0..row.times {
            script.extend_from_slice(row.closing.as_bytes())?;
        }
    }
    script.extend_from_slice(row.end.as_bytes())?;
    Ok(script)
}

// Runs the script of a row in pieces.
fn tried<M: Mix>(
    rt: &impl Abort,
    alloc: Global,
    row: Repeats,
    piece: usize,
) -> Result<(), AllocError>
    requires { 0 < piece }
{
    let script = script_of(alloc, row)?;
    let mut store = Store::<M>::new(alloc);
    let got = run_on(
        alloc,
        &mut store,
        &script,
        Calls { piece, failing: 0 },
        WHOLE,
    );
    store.close();
    assert_eq!(rt; got?.written.as_slice(), row.answer.as_bytes());
    Ok(())
}

#[test]
fn small_pieces(rt: HostRuntime) -> Result<(), Fail> {
    for row in HOSTILE {
        tried::<SplitMix>(&rt, rt.alloc(), row, 61)?;
    }
    Ok(())
}

#[test]
fn large_pieces(rt: HostRuntime) -> Result<(), Fail> {
    for row in HOSTILE {
        tried::<ConstMix>(&rt, rt.alloc(), row, 65536)?;
    }
    Ok(())
}
