//! A generated graph that loses half its triples has one shape, whatever the mix.
ghost use Rattle.std.specs.Prelude.{◌<◌};

use graph_store::Store;
use std::alloc::{AllocError, Global};
use std::process::Abort;
use std::test::Fail;
use trie_depth::{ConstMix, Mix, SplitMix};
use worked_runs::{Calls, SORTED, WHOLE, one_file, run_over, shape_of, told};

// The odd ones of the 300 generated triples, by the formulas of docs/SCRIPT.md.
fn odd_lines(alloc: Global) -> Result<Vec<u8>, AllocError> {
    let mut lines = Vec::new(alloc);
    for half in 0..150u64 {
        let k = 2 * half + 1;
        let (s, p, o) = ((7 * k + 1) % 77, k % 3, (k * k * k + k + 5) / 8 % 77);
        let line = format!(in alloc; "<urn:n:{s}> <urn:p:{p}> <urn:n:{o}> .\n")?;
        lines.extend_from_slice(line.as_str().as_bytes())?;
    }
    Ok(lines)
}

// What SHAPE says once they are gone. It is the shape of the graph that DUMP shows.
fn shape_of_half<M: Mix>(
    rt: &impl Abort,
    alloc: Global,
    piece: usize,
) -> Result<Vec<u8>, AllocError>
    requires { 0 < piece }
{
    let mut files = one_file(alloc, &odd_lines(alloc)?, Calls { piece, failing: 0 })?;
    let mut store = Store::<M>::new(alloc);
    let script = b"GENERATE 300 1\nUNLOAD f\n";
    let halved = run_over(alloc, SORTED, &mut store, &mut files, script, WHOLE, WHOLE);
    let shape = told(alloc, &mut store, b"SHAPE\n");
    let dump = told(alloc, &mut store, b"DUMP\n");
    store.close();
    halved?;
    let shape = shape?;
    assert_eq!(rt; shape.as_slice(), shape_of::<M>(alloc, &dump?)?.as_slice());
    Ok(shape)
}

#[test]
fn one_shape_under_both_mixes(rt: HostRuntime) -> Result<(), Fail> {
    let split = shape_of_half::<SplitMix>(&rt, rt.alloc(), 64)?;
    let constant = shape_of_half::<ConstMix>(&rt, rt.alloc(), 7)?;
    assert_eq!(rt; split.as_slice(), constant.as_slice());
    assert!(rt; split.starts_with(b"one\t"));
    Ok(())
}
