//! A larger graph changed by blocks of one line.
ghost use Rattle.graph_store.specs.StoreState.{IsSettled};

use graph_store::Store;
use std::alloc::{AllocError, Global};
use std::process::Abort;
use std::test::Fail;
use tentris_core::Status;
use trie_depth::{Mix, SplitMix};
use worked_runs::{WHOLE, run_on, told};

// Two thousand blocks of one line each and the figures after them; and what they answer over 187,501 triples, up to the
// number of terms.
fn single_blocks(alloc: Global) -> Result<(Vec<u8>, Vec<u8>), AllocError> {
    let mut blocks = Vec::new(alloc);
    let mut answers = Vec::new(alloc);
    for i in 1..2001u32 {
        let now = 187_501 + i;
        blocks.extend_from_slice(
            format!(in alloc; "INSERT\n<x:s> <x:p> <x:n{i}> .\nGO\n")?
                .as_str()
                .as_bytes(),
        )?;
        answers.extend_from_slice(
            format!(in alloc; "ok new 1 now {now}\n")?
                .as_str()
                .as_bytes(),
        )?;
    }
    blocks.extend_from_slice(b"STATS\n")?;
    answers.extend_from_slice(b"triples 189501\nterms ")?;
    Ok((blocks, answers))
}

fn one_by_one<M: Mix>(
    rt: &impl Abort,
    alloc: Global,
    store: &mut Store<M>,
) -> Result<(), AllocError>
    requires { IsSettled store.old }
{
    let generated = told(alloc, store, b"GENERATE 200000 7\n")?;
    assert_eq!(rt;
        generated.as_slice(),
        "ok new 187501 now 187501\n".as_bytes()
    );
    let (blocks, answers) = single_blocks(alloc)?;
    let ran = run_on(alloc, store, &blocks, WHOLE, WHOLE)?;
    assert_eq!(rt; ran.status, Status::Done);
    assert!(rt; ran.written.starts_with(&answers));
    assert_eq!(rt; store.triples(), 189_501);
    Ok(())
}

#[test]
fn two_thousand_blocks_of_one_line(rt: HostRuntime) -> Result<(), Fail> {
    let mut store = Store::<SplitMix>::new(rt.alloc());
    let tried = one_by_one(&rt, rt.alloc(), &mut store);
    store.close();
    tried?;
    Ok(())
}
