//! Scripts over files in memory, whose answers nobody reads.
use crate::tables::{DRY, PEOPLE};
use graph_store::Store;
use std::alloc::{AllocError, Global};
use std::test::Fail;
use tentris_core::{Status, dry_run};
use tn_io::PureFiles;
use trie_depth::{ConstMix, Mix, SplitMix};
use worked_runs::named;

// How a script ends, and how many triples it leaves.
fn ending<M: Mix>(
    alloc: Global,
    words: &[&str],
    script: &str,
) -> Result<(Status, u64), AllocError> {
    let mut files = PureFiles::new(named(alloc, PEOPLE.as_bytes())?);
    let script = script.as_bytes().to_vec(alloc)?;
    let mut store = Store::<M>::new(alloc);
    let status = dry_run(alloc, words, &mut store, &mut files, script);
    let triples = store.triples();
    store.close();
    Ok((status, triples))
}

#[test]
fn dry_runs(rt: HostRuntime) -> Result<(), Fail> {
    for (words, script, status, triples) in DRY {
        let (split_status, split_triples) = ending::<SplitMix>(rt.alloc(), words, script)?;
        assert_eq!(rt; split_status, status, "{script}");
        assert_eq!(rt; split_triples, triples, "{script}");
        let (constant_status, constant_triples) = ending::<ConstMix>(rt.alloc(), words, script)?;
        assert_eq!(rt; constant_status, status, "{script}");
        assert_eq!(rt; constant_triples, triples, "{script}");
    }
    Ok(())
}
