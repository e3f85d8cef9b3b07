//! Larger graphs: a query of a thousand rows that is cut off, and a generated graph that loses half its triples.
ghost use Rattle.std.specs.Prelude.{◌≤◌};
ghost use Rattle.graph_store.specs.StoreState.{IsSettled};

use crate::harness::{Pieces, run_over};
use generated_triples::generated_triple;
use graph_store::Store;
use rdf_term::{Scratch, TermRef};
use std::alloc::{AllocError, Global};
use std::process::Abort;
use std::test::Fail;
use tentris_core::Status;
use trie_depth::{ConstMix, Mix, SplitMix};
use worked_runs::{Calls, WHOLE, run_on, told};

// Writes of which the second one fails.
const SECOND_FAILS: Calls = Calls {
    piece: 8192,
    failing: 2,
};

const OBJECTS: &[u8] = b"QUERY\nSELECT ?o { ?s ?p ?o }\nGO\n";

// A block of a thousand triples, and the answer of the query for their objects.
fn a_thousand(alloc: Global) -> Result<(Vec<u8>, Vec<u8>), AllocError> {
    let mut block = b"INSERT\n".to_vec(alloc)?;
    let mut rows = b"?o\n".to_vec(alloc)?;
    for i in 1000..2000u32 {
        block.extend_from_slice(
            format!(in alloc; "<x:s> <x:p> <x:o{i}> .\n")?
                .as_str()
                .as_bytes(),
        )?;
        rows.extend_from_slice(format!(in alloc; "<x:o{i}>\n")?.as_str().as_bytes())?;
    }
    block.extend_from_slice(b"GO\n")?;
    rows.extend_from_slice(b"ok rows 1000\n")?;
    Ok((block, rows))
}

fn cut_off<M: Mix>(rt: &impl Abort, alloc: Global, store: &mut Store<M>) -> Result<(), AllocError>
    requires { IsSettled store.old }
{
    let (block, rows) = a_thousand(alloc)?;
    assert_eq!(rt; rows.len(), 10_016);
    told(alloc, store, &block)?;
    let cut = run_on(alloc, store, OBJECTS, WHOLE, SECOND_FAILS)?;
    assert_eq!(rt; cut.status, Status::WriteFault);
    assert!(rt; cut.written.len() <= 8192 && rows.starts_with(&cut.written));
    let whole = run_on(alloc, store, OBJECTS, WHOLE, WHOLE)?;
    assert_eq!(rt; whole.status, Status::Done);
    assert_eq!(rt; whole.written.as_slice(), rows.as_slice());
    assert_eq!(rt; store.triples(), 1000);
    Ok(())
}

#[test]
fn an_answer_that_is_cut_off(rt: HostRuntime) -> Result<(), Fail> {
    let mut split = Store::<SplitMix>::new(rt.alloc());
    let tried = cut_off(&rt, rt.alloc(), &mut split);
    split.close();
    tried?;
    let mut constant = Store::<ConstMix>::new(rt.alloc());
    let tried = cut_off(&rt, rt.alloc(), &mut constant);
    constant.close();
    tried?;
    Ok(())
}

// The generated triples with odd numbers, one line each.
fn odd_lines(alloc: Global, count: u64, salt: u64) -> Result<Vec<u8>, AllocError>
    requires { count ≤ 500000000 }
{
    let mut lines = Vec::new(alloc);
    let Ok(mut scratch) = Scratch::new(alloc) else {
        return Ok(lines);
    };
    for k in 0..count {
        if k % 2 == 0 {
            continue;
        }
        let triple = generated_triple(count, salt, k, &mut scratch);
        for term in [triple.s, triple.p, triple.o] {
            if let TermRef::Iri(text) = term {
                lines.push(b'<')?;
                lines.extend_from_slice(text.as_bytes())?;
                lines.extend_from_slice(b"> ")?;
            }
        }
        lines.extend_from_slice(b".\n")?;
    }
    Ok(lines)
}

const HALVED: &str = "GENERATE 200000 7\n\
    QUERY\nSELECT * { ?a <urn:p:0> ?b . ?b <urn:p:1> ?c . ?c <urn:p:2> ?a }\nGO\n\
    UNLOAD f\nSTATS\n";

const HALF: &str =
    "ok new 187501 now 187501\n?a\t?b\t?c\n<urn:n:1244>\t<urn:n:5382>\t<urn:n:6393>\nok rows 1\n\
    ok gone 87501 now 100000\ntriples 100000\nterms 44403\ntwo 61631\none 35827\nok stats\n";

// The figures were reckoned from the definitions by another program.
#[test]
fn a_graph_that_is_halved(rt: HostRuntime) -> Result<(), Fail> {
    let lines = odd_lines(rt.alloc(), 200_000, 7)?;
    let pieces = Pieces {
        file: &lines,
        piece: 65536,
        failing: 0,
    };
    let got = run_over::<SplitMix>(rt.alloc(), &["--sort"], HALVED.as_bytes(), pieces)?;
    assert_eq!(rt; got.written.as_slice(), HALF.as_bytes());
    assert_eq!(rt; got.status, Status::Done);
    Ok(())
}
