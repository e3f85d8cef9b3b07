//! A read of the script fails: each of them in turn.
ghost use Rattle.std.specs.Prelude.{◌<◌};
ghost use Rattle.graph_store.specs.StoreState.{IsSettled};

use crate::tables::{closed_within, script_of_steps};
use graph_store::Store;
use std::alloc::{AllocError, Global};
use std::process::Abort;
use std::test::Fail;
use tentris_core::Status;
use trie_depth::{ConstMix, Mix, SplitMix};
use worked_runs::{Calls, WHOLE, run_on, told};

// The script up to a read that fails, once so many of its bytes were taken.
fn cut_off<M: Mix>(
    rt: &impl Abort,
    alloc: Global,
    store: &mut Store<M>,
    script: &[u8],
    reads: Calls,
    taken: usize,
) -> Result<(), AllocError>
    requires settled { IsSettled store.old }
    requires piece { 0 < reads.piece }
{
    let (answers, dump) = closed_within(alloc, taken)?;
    let got = run_on(alloc, store, script, reads, WHOLE)?;
    assert_eq!(rt; got.status, Status::ReadFault, "behind {taken}");
    assert_eq!(rt;
        got.written.as_slice(),
        answers.as_slice(),
        "behind {taken}"
    );
    assert_eq!(rt;
        told(alloc, store, b"DUMP\n")?.as_slice(),
        dump.as_bytes(),
        "behind {taken}"
    );
    Ok(())
}

// Each read of the script in turn, the one at its end included.
fn each_read<M: Mix>(rt: &impl Abort, alloc: Global, piece: usize) -> Result<(), AllocError>
    requires { 0 < piece }
{
    let script = script_of_steps(alloc)?;
    for failing in 1..=300u64 {
        let taken = script
            .len()
            .min(((failing - 1) as usize).saturating_mul(piece));
        let mut store = Store::<M>::new(alloc);
        let tried = cut_off(
            rt,
            alloc,
            &mut store,
            &script,
            Calls { piece, failing },
            taken,
        );
        store.close();
        tried?;
        if taken == script.len() {
            break;
        }
    }
    Ok(())
}

#[test]
fn reads_of_one_byte(rt: HostRuntime) -> Result<(), Fail> {
    each_read::<SplitMix>(&rt, rt.alloc(), 1)?;
    Ok(())
}

#[test]
fn reads_of_seven_bytes(rt: HostRuntime) -> Result<(), Fail> {
    each_read::<ConstMix>(&rt, rt.alloc(), 7)?;
    Ok(())
}

#[test]
fn reads_of_sixty_four_bytes(rt: HostRuntime) -> Result<(), Fail> {
    each_read::<SplitMix>(&rt, rt.alloc(), 64)?;
    each_read::<ConstMix>(&rt, rt.alloc(), 64)?;
    Ok(())
}
