//! A script that ends behind any of its bytes.
ghost use Rattle.std.specs.Prelude.{◌<◌};
ghost use Rattle.graph_store.specs.StoreState.{IsSettled};

use crate::tables::{CUTS, STEPS, script_of_steps};
use graph_store::Store;
use std::alloc::{AllocError, Global};
use std::process::Abort;
use std::test::Fail;
use trie_depth::{ConstMix, Mix, SplitMix};
use worked_runs::{Calls, WHOLE, run_on};

// The row for a script of so many bytes.
fn row_of(cut: usize) -> (usize, &'static str) {
    for (end, steps, refusal) in CUTS {
        if cut <= end {
            return (steps, refusal);
        }
    }
    (STEPS.len(), "")
}

// The answers of the script's front of so many bytes.
fn answers_of(alloc: Global, cut: usize) -> Result<Vec<u8>, AllocError> {
    let (steps, refusal) = row_of(cut);
    let mut answers = Vec::new(alloc);
    for step in STEPS.iter().take(steps) {
        answers.extend_from_slice(step.answer.as_bytes())?;
    }
    answers.extend_from_slice(refusal.as_bytes())?;
    Ok(answers)
}

// The front of the script over a new store.
fn cut_off<M: Mix>(
    rt: &impl Abort,
    alloc: Global,
    script: &[u8],
    reads: Calls,
) -> Result<(), AllocError>
    requires { 0 < reads.piece }
{
    let mut store = Store::<M>::new(alloc);
    let got = run_on(alloc, &mut store, script, reads, WHOLE);
    store.close();
    let cut = script.len();
    assert_eq!(rt;
        got?.written.as_slice(),
        answers_of(alloc, cut)?.as_slice(),
        "{cut} bytes"
    );
    Ok(())
}

// Each front, in pieces.
fn each_cut<M: Mix>(rt: &impl Abort, alloc: Global, piece: usize) -> Result<(), AllocError>
    requires { 0 < piece }
{
    let script = script_of_steps(alloc)?;
    let reads = Calls { piece, failing: 0 };
    for (cut, _) in script.iter().enumerate() {
        if cut <= 62 {
            cut_off::<M>(rt, alloc, &script[..cut], reads)?;
        }
    }
    Ok(())
}

#[test]
fn cuts_in_pieces(rt: HostRuntime) -> Result<(), Fail> {
    each_cut::<SplitMix>(&rt, rt.alloc(), 1)?;
    each_cut::<SplitMix>(&rt, rt.alloc(), 7)?;
    Ok(())
}

#[test]
fn cuts_in_large_pieces(rt: HostRuntime) -> Result<(), Fail> {
    each_cut::<SplitMix>(&rt, rt.alloc(), 64)?;
    each_cut::<ConstMix>(&rt, rt.alloc(), 64)?;
    Ok(())
}
