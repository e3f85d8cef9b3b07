//! Scripts, the answers that they want, and how they end.
use crate::harness::{answers, run_in_pieces};
use graph_store::{NoWatch, Store};
use std::test::Fail;
use tentris_core::{Status, run};
use tn_io::{MemFiles, MemSink, MemSource};
use trie_depth::SplitMix;

const TWO: &str = "INSERT\n<x:a> <x:p> <x:b> .\n<x:a> <x:p> <x:c> .\nGO\n";

#[test]
fn scripts_have_their_answers(rt: HostRuntime) -> Result<(), Fail> {
    let cases = [
        ("the empty script", "", "", Status::Done, 0),
        ("the two triples", TWO, "ok new 2 now 2\n", Status::Done, 2),
        (
            "a literal",
            "INSERT\n<x:a> <x:p> \"a\" .\nGO",
            "ok new 1 now 1\n",
            Status::Done,
            1,
        ),
        (
            "no command form",
            "insert\nGO\nLOAD\n INSERT x\n",
            "refused 1 command\nrefused 1 command\nrefused 1 command\nrefused 1 command\n",
            Status::SomeRefused,
            0,
        ),
        (
            "a block without its end",
            "INSERT\n<x:a> <x:p> <x:b> .\n",
            "refused 10 unended\n",
            Status::SomeRefused,
            0,
        ),
        (
            "a bad line in a block without its end",
            "INSERT\n<x:a> .\n",
            "refused 10 unended\n",
            Status::SomeRefused,
            0,
        ),
        (
            "a refused block changes nothing",
            "INSERT\n<x:a> <x:p> <x:b> .\n<x:a> <x:p> <x:c> .\nGO\nINSERT\n<x:a> <x:p> <x:e> .\n# note\n<x:a> <x:p> .\nGO\nSTATS\n",
            "ok new 2 now 2\nrefused 3 line 3\ntriples 2\nterms 4\ntwo 3\none 1\nok stats\n",
            Status::SomeRefused,
            2,
        ),
        (
            "an escape that stands for a blank in an IRI",
            "INSERT\n<x:a\\u0020b> <x:p> <x:b> .\nGO\n",
            "refused 3 line 1\n",
            Status::SomeRefused,
            0,
        ),
        (
            "a relative IRI",
            "INSERT\n<a> <x:p> <x:b> .\nGO\n",
            "refused 3 line 1\n",
            Status::SomeRefused,
            0,
        ),
        (
            "no blanks, and a comment right behind",
            "INSERT\n<x:a><x:p>_:o.#c\nGO\n",
            "ok new 1 now 1\n",
            Status::Done,
            1,
        ),
        (
            "repeats count once",
            "INSERT\n<x:a> <x:p> <x:b> .\n<x:a> <x:p> <x:b> .\nGO\nINSERT\n<x:a> <x:p> <x:b> .\nGO\n",
            "ok new 1 now 1\nok new 0 now 1\n",
            Status::Done,
            1,
        ),
        (
            "one term in two spellings, and a tag in lower case",
            "INSERT\n<x:a> <x:p> \"a\" .\n<x:a> <x:p> \"a\"^^<http://www.w3.org/2001/XMLSchema#string> .\n<x:a> <x:p> \"t\\t\\n\"@EN .\nGO\nDUMP\n",
            "ok new 2 now 2\n<x:a> <x:p> \"a\" .\n<x:a> <x:p> \"t\t\\n\"@en .\nok dump 2\n",
            Status::Done,
            2,
        ),
        (
            "what isn't there isn't taken away",
            "INSERT\n<x:a> <x:p> <x:b> .\n<x:a> <x:p> <x:c> .\nGO\nDELETE\n<x:q> <x:p> <x:b> .\nGO\nDELETE\n<x:a> <x:p> <x:b> .\n<x:a> <x:p> <x:b> .\nGO\n",
            "ok new 2 now 2\nok gone 0 now 2\nok gone 1 now 1\n",
            Status::Done,
            1,
        ),
        (
            "lines end at CR, LF and CR LF",
            "# a script\r\n\r\tINSERT \r\n<x:a> <x:p> <x:b> .\r<x:a> <x:p> <x:c> .\n\nGO\r\n",
            "ok new 2 now 2\n",
            Status::Done,
            2,
        ),
        (
            "a block that holds nothing",
            "INSERT\nGO\nDELETE\n# nothing\nGO",
            "ok new 0 now 0\nok gone 0 now 0\n",
            Status::Done,
            0,
        ),
        (
            "a dump",
            "INSERT\n<x:a> <x:p> \"t\\t\\n\"@EN .\n<x:a> <x:p> <x:b> .\n_:b <x:p> \"q\\\"\\\\\" .\nGO\nDUMP\n",
            "ok new 3 now 3\n<x:a> <x:p> \"t\t\\n\"@en .\n<x:a> <x:p> <x:b> .\n_:b <x:p> \"q\\\"\\\\\" .\nok dump 3\n",
            Status::Done,
            3,
        ),
        (
            "a refused block, and a dump of what was there",
            "INSERT\n<x:a> <x:p> <x:b> .\n<x:a> <x:p> <x:c> .\nGO\nINSERT\n<x:a> <x:p> <x:e> .\n# note\n<x:a> <x:p> .\nGO\nDUMP\n",
            "ok new 2 now 2\nrefused 3 line 3\n<x:a> <x:p> <x:b> .\n<x:a> <x:p> <x:c> .\nok dump 2\n",
            Status::SomeRefused,
            2,
        ),
    ];
    for (name, script, want, status, triples) in cases {
        for piece in 1..=64usize {
            let got = run_in_pieces(rt.alloc(), script.as_bytes(), piece)?;
            assert_eq!(rt;
                got.written.as_slice(),
                want.as_bytes(),
                "{name}, in pieces of {piece}"
            );
            assert_eq!(rt; got.status, status, "{name}, in pieces of {piece}");
            assert_eq!(rt; got.triples, triples, "{name}, in pieces of {piece}");
        }
        answers(&rt, rt.alloc(), &[], script.as_bytes(), want, status)?;
    }
    Ok(())
}

// The lines between the first and the last line of an answer: those of a dump.
fn lines_within(answer: &[u8]) -> &[u8] {
    let Some(first) = answer.iter().position(|b| *b == b'\n') else {
        return &answer[..0];
    };
    answer
        .get(first + 1..answer.len().saturating_sub(b"ok dump 3\n".len()))
        .unwrap_or(&answer[..0])
}

#[test]
fn a_dump_is_an_insert(rt: HostRuntime) -> Result<(), Fail> {
    let alloc = rt.alloc();
    let script =
        b"INSERT\n_:b <x:p> \"q\\\"\\\\ \\r\\n\" .\n<x:a> <x:p> \"t\\t\"@en-GB .\n<x:a> <x:p> \"1\"^^<x:i> .\nGO\nDUMP\n";
    let first = run_in_pieces(alloc, script.as_slice(), 64)?;
    let mut again = b"INSERT\n".to_vec(alloc)?;
    again.extend_from_slice(lines_within(first.written.as_slice()))?;
    again.extend_from_slice(b"GO\nDUMP\n")?;
    let second = run_in_pieces(alloc, again.as_slice(), 64)?;
    assert_eq!(rt; first.triples, 3);
    assert_eq!(rt; second.written.as_slice(), first.written.as_slice());
    Ok(())
}

#[test]
fn queries_have_their_answers(rt: HostRuntime) -> Result<(), Fail> {
    let cases = [
        (
            "one column",
            TWO,
            "SELECT ?s { ?s ?p ?o }",
            "?s\n<x:a>\n<x:a>\nok rows 2\n",
        ),
        (
            "each row once",
            TWO,
            "SELECT DISTINCT ?s { ?s ?p ?o }",
            "?s\n<x:a>\nok rows 1\n",
        ),
        (
            "no row of none",
            TWO,
            "SELECT ?s { ?s ?p ?o } LIMIT 0",
            "?s\nok rows 0\n",
        ),
        (
            "past the last row",
            TWO,
            "SELECT ?s { ?s ?p ?o } OFFSET 5",
            "?s\nok rows 0\n",
        ),
        (
            "a blank node of the query",
            TWO,
            "SELECT ?s { ?s <x:p> _:o }",
            "?s\n<x:a>\n<x:a>\nok rows 2\n",
        ),
        (
            "one variable at three places",
            "INSERT\n<x:a> <x:a> <x:a> .\n<x:a> <x:p> <x:a> .\n<x:a> <x:p> <x:b> .\nGO\n",
            "SELECT ?x { ?x ?x ?x }",
            "?x\n<x:a>\nok rows 1\n",
        ),
        ("no pattern", "", "SELECT * { }", "\n\nok rows 1\n"),
        (
            "a column without a label",
            TWO,
            "SELECT ?z { ?s ?p ?o }",
            "?z\n\n\nok rows 2\n",
        ),
        (
            "a constant that isn't there",
            TWO,
            "SELECT ?o { <x:none> ?p ?o }",
            "?o\nok rows 0\n",
        ),
        (
            "a literal as subject",
            TWO,
            "SELECT ?p { \"a\" ?p ?o }",
            "?p\nok rows 0\n",
        ),
        (
            "two columns and a tab in a string",
            "INSERT\n<x:a> <x:p> \"t\\t\\n\"@EN .\nGO\n",
            "SELECT ?s ?o {\n  ?s ?p ?o\n}",
            "?s\t?o\n<x:a>\t\"t\\t\\n\"@en\nok rows 1\n",
        ),
        (
            "no prefix",
            "",
            "SELECT * { ?s ex:p ?o }",
            "refused 7 prefix\n",
        ),
        (
            "a relative IRI",
            "",
            "SELECT * { ?s <p> ?o }",
            "refused 2 query\n",
        ),
        (
            "a number that is too large",
            "",
            "SELECT * { } LIMIT 18446744073709551616",
            "refused 8 size\n",
        ),
    ];
    for (name, before, query, want) in cases {
        let alloc = rt.alloc();
        let mut script = before.as_bytes().to_vec(alloc)?;
        script.extend_from_slice(b"QUERY\n")?;
        script.extend_from_slice(query.as_bytes())?;
        script.extend_from_slice(b"\nGO\n")?;
        for piece in [1usize, 7, 8192] {
            let got = run_in_pieces(alloc, script.as_slice(), piece)?;
            assert!(rt;
                got.written.as_slice().ends_with(want.as_bytes()),
                "{name}, in pieces of {piece}"
            );
        }
    }
    Ok(())
}

#[test]
fn long_queries(rt: HostRuntime) -> Result<(), Fail> {
    let alloc = rt.alloc();
    for (more, want) in [(0usize, "?s\nok rows 0\n"), (1, "refused 6 long\n")] {
        let mut script = b"QUERY\nSELECT ?s { ?s ?p ?o }\n".to_vec(alloc)?;
        script.resize(6 + 1_048_576 - 1 + more, b' ')?;
        script.extend_from_slice(b"\nGO\n")?;
        let got = run_in_pieces(alloc, script.as_slice(), 8192)?;
        assert_eq!(rt; got.written.as_slice(), want.as_bytes(), "{more} more");
    }
    let unended = run_in_pieces(alloc, b"QUERY\nSELECT * { }\n".as_slice(), 8192)?;
    assert_eq!(rt;
        unended.written.as_slice(),
        b"refused 10 unended\n".as_slice()
    );
    assert_eq!(rt; unended.status, Status::SomeRefused);
    Ok(())
}

#[test]
fn a_line_that_is_no_text_is_refused(rt: HostRuntime) -> Result<(), Fail> {
    let script = b"INSERT\n<x:a> <x:p> \"\xff\" .\nGO\n# \xff\n";
    let got = run_in_pieces(rt.alloc(), script.as_slice(), 7)?;
    assert_eq!(rt; got.written.as_slice(), b"refused 3 line 1\n".as_slice());
    assert_eq!(rt; got.status, Status::SomeRefused);
    Ok(())
}

#[test]
fn long_lines(rt: HostRuntime) -> Result<(), Fail> {
    let alloc = rt.alloc();
    for (more, want) in [(0usize, "ok new 1 now 1\n"), (1, "refused 3 line 1\n")] {
        let mut script = b"INSERT\n<x:a> <x:p> \"".to_vec(alloc)?;
        script.resize(7 + 1_048_576 - 3 + more, b'a')?;
        script.extend_from_slice(b"\" .\nGO\n")?;
        let got = run_in_pieces(alloc, script.as_slice(), 8192)?;
        assert_eq!(rt; got.written.as_slice(), want.as_bytes(), "{more} more");
    }
    let mut script = Vec::new(alloc);
    script.resize(1_048_577, b' ')?;
    script.extend_from_slice(b"\nINSERT\nGO\n")?;
    let got = run_in_pieces(alloc, script.as_slice(), 8192)?;
    assert_eq!(rt;
        got.written.as_slice(),
        b"refused 1 command\nok new 0 now 0\n".as_slice()
    );
    Ok(())
}

#[test]
fn words_that_are_bad(rt: HostRuntime) -> Result<(), Fail> {
    let alloc = rt.alloc();
    let mut source = MemSource::new(TWO.as_bytes().to_vec(alloc)?, 64, Vec::new(alloc));
    let mut sink = MemSink::new(alloc, 64, Vec::new(alloc));
    let mut files = MemFiles::new(Vec::new(alloc), 1, Vec::new(alloc));
    let mut store = Store::<SplitMix>::new(alloc);
    let status = run(
        alloc,
        &["--max-triples", "0"],
        &mut store,
        &mut files,
        &mut source,
        &mut sink,
        &mut NoWatch,
    );
    let triples = store.triples();
    store.close();
    assert_eq!(rt; status, Status::BadWords);
    assert_eq!(rt; status.code(), 2);
    assert_eq!(rt; sink.bytes().len(), 0);
    assert_eq!(rt; triples, 0);
    Ok(())
}
