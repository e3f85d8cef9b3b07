//! Graphs and the nodes that they share, after several histories and under two mixes.
use crate::harness::run_with;
use std::test::Fail;
use tentris_core::Status;
use trie_depth::{ConstMix, SplitMix};

const SHARED: &str =
    "one\t2\t<x:b>\t<x:c>\ntwo\t1\t<x:a> <x:b>\t<x:a> <x:c>\ntwo\t1\t<x:p> <x:b>\t<x:p> <x:c>\ntwo\t2\t<x:a> <x:p>\nok shape\n";

// Each script with its answers, but for the shape of two triples with one subject and one predicate,
// which may follow them.
const CASES: [(&str, &str, &str, bool); 6] = [
    (
        "one triple has no rows",
        "INSERT\n<x:a> <x:p> <x:b> .\nGO\nSHAPE\nSTATS\n",
        "ok new 1 now 1\nok shape\ntriples 1\nterms 3\ntwo 0\none 0\nok stats\n",
        false,
    ),
    (
        "equal slices are one row",
        "INSERT\n<x:a> <x:p> <x:b> .\n<x:a> <x:p> <x:c> .\nGO\nSTATS\nSHAPE\n",
        "ok new 2 now 2\ntriples 2\nterms 4\ntwo 3\none 1\nok stats\n",
        true,
    ),
    (
        "a subject and an object have one slice",
        "INSERT\n<x:a> <x:b> <x:c> .\n<x:b> <x:c> <x:x> .\nGO\nSHAPE\n",
        "ok new 2 now 2\ntwo\t1\t<x:a> <x:b>\ntwo\t1\t<x:a> <x:c>\ntwo\t1\t<x:b> <x:x>\ntwo\t1\t<x:c> <x:x>\ntwo\t2\t<x:b> <x:c>\nok shape\n",
        false,
    ),
    (
        "another history of the same graph",
        "INSERT\n<x:a> <x:p> <x:c> .\n<x:z> <x:q> <x:b> .\nGO\nINSERT\n<x:a> <x:p> <x:b> .\nGO\nDELETE\n<x:z> <x:q> <x:b> .\nGO\nSHAPE\n",
        "ok new 2 now 2\nok new 1 now 3\nok gone 1 now 2\n",
        true,
    ),
    (
        "what a triple leaves when it goes",
        "INSERT\n<x:a> <x:p> <x:b> .\n<x:a> <x:p> <x:c> .\nGO\nDELETE\n<x:a> <x:p> <x:c> .\nGO\nSHAPE\nSTATS\n",
        "ok new 2 now 2\nok gone 1 now 1\nok shape\ntriples 1\nterms 3\ntwo 0\none 0\nok stats\n",
        false,
    ),
    (
        "figures after repeats",
        "INSERT\n<x:a> <x:p> <x:b> .\n<x:a> <x:p> <x:c> .\nGO\nINSERT\n<x:a> <x:p> <x:d> .\n<x:a> <x:p> <x:d> .\n<x:a> <x:p> <x:b> .\nGO\nSTATS\n",
        "ok new 2 now 2\nok new 1 now 3\ntriples 3\nterms 5\ntwo 3\none 1\nok stats\n",
        false,
    ),
];

#[test]
fn graphs_share_their_nodes(rt: HostRuntime) -> Result<(), Fail> {
    for (name, script, answers, shared) in CASES {
        let mut want = answers.as_bytes().to_vec(rt.alloc())?;
        if shared {
            want.extend_from_slice(SHARED.as_bytes())?;
        }
        let split = run_with::<SplitMix>(rt.alloc(), script.as_bytes(), 64, 0, 0, &[])?;
        assert_eq!(rt; split.written.as_slice(), want.as_slice(), "{name}");
        assert_eq!(rt; split.status, Status::Done, "{name}");
        let constant = run_with::<ConstMix>(rt.alloc(), script.as_bytes(), 64, 0, 0, &[])?;
        assert_eq!(rt; constant.written.as_slice(), want.as_slice(), "{name}");
    }
    Ok(())
}

#[test]
fn a_graph_that_is_full(rt: HostRuntime) -> Result<(), Fail> {
    let script =
        b"INSERT\n<x:a> <x:p> <x:b> .\n<x:a> <x:p> <x:c> .\n<x:a> <x:p> <x:d> .\nGO\nINSERT\n<x:a> <x:p> <x:b> .\n<x:a> <x:p> <x:c> .\nGO\nINSERT\n<x:a> <x:p> <x:b> .\nGO\nINSERT\n<x:a> .\n<x:a> <x:p> <x:d> .\nGO\n";
    let want = b"refused 5 full 3\nok new 2 now 2\nok new 0 now 2\nrefused 3 line 1\n";
    let got = run_with::<SplitMix>(
        rt.alloc(),
        script.as_slice(),
        64,
        0,
        0,
        &["--max-triples", "2"],
    )?;
    assert_eq!(rt; got.written.as_slice(), want.as_slice());
    assert_eq!(rt; got.status, Status::SomeRefused);
    Ok(())
}
