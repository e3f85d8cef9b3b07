//! Queries in scripts: the answers of those that are queries, and the refusals of those that aren't.
use crate::harness::{answers, run_with};
use std::alloc::{AllocError, Global};
use std::test::Fail;
use tentris_core::Status;
use trie_depth::SplitMix;

const TWO: &str = "INSERT\n<x:a> <x:p> <x:b> .\n<x:a> <x:p> <x:c> .\nGO\n";

const LOOPS: &str = "INSERT\n<x:a> <x:a> <x:a> .\n<x:a> <x:p> <x:a> .\n<x:a> <x:p> <x:b> .\nGO\n";

const STRINGS: &str =
    "INSERT\n<x:a> <x:p> \"a\" .\n<x:a> <x:p> \"a\"^^<http://www.w3.org/2001/XMLSchema#string> .\n\
    <x:a> <x:p> \"t\\t\\n\"@EN .\nGO\n";

// What comes before a query, the query, and all answers, whatever the order of rows.
const SETTLED: [(&str, &str, &str); 14] = [
    (
        TWO,
        "SELECT ?s { ?s ?p ?o }",
        "ok new 2 now 2\n?s\n<x:a>\n<x:a>\nok rows 2\n",
    ),
    (
        TWO,
        "SELECT REDUCED ?s { ?s ?p ?o }",
        "ok new 2 now 2\n?s\n<x:a>\n<x:a>\nok rows 2\n",
    ),
    (
        TWO,
        "SELECT DISTINCT ?s { ?s ?p ?o }",
        "ok new 2 now 2\n?s\n<x:a>\nok rows 1\n",
    ),
    (
        TWO,
        "SELECT ?s { ?s ?p ?o } LIMIT 0",
        "ok new 2 now 2\n?s\nok rows 0\n",
    ),
    (
        TWO,
        "SELECT ?s { ?s ?p ?o } LIMIT 1",
        "ok new 2 now 2\n?s\n<x:a>\nok rows 1\n",
    ),
    (
        TWO,
        "SELECT ?s { ?s ?p ?o } OFFSET 5",
        "ok new 2 now 2\n?s\nok rows 0\n",
    ),
    (
        TWO,
        "SELECT ?s { ?s <x:p> _:o }",
        "ok new 2 now 2\n?s\n<x:a>\n<x:a>\nok rows 2\n",
    ),
    (
        TWO,
        "SELECT ?z { ?s ?p ?o }",
        "ok new 2 now 2\n?z\n\n\nok rows 2\n",
    ),
    (
        TWO,
        "SELECT DISTINCT ?z { ?s ?p ?o }",
        "ok new 2 now 2\n?z\n\nok rows 1\n",
    ),
    (
        TWO,
        "SELECT ?o { <x:none> ?p ?o }",
        "ok new 2 now 2\n?o\nok rows 0\n",
    ),
    (
        TWO,
        "SELECT ?p { \"a\" ?p ?o }",
        "ok new 2 now 2\n?p\nok rows 0\n",
    ),
    (
        LOOPS,
        "SELECT ?x { ?x ?x ?x }",
        "ok new 3 now 3\n?x\n<x:a>\nok rows 1\n",
    ),
    ("", "SELECT * { }", "\n\nok rows 1\n"),
    ("", "SELECT * { ?s ?p ?o }", "?s\t?p\t?o\nok rows 0\n"),
];

// The same where rows are sorted.
const SORTED: [(&str, &str, &str); 6] = [
    (
        TWO,
        "SELECT ?o { ?s ?p ?o } OFFSET 1 LIMIT 1",
        "ok new 2 now 2\n?o\n<x:c>\nok rows 1\n",
    ),
    (
        TWO,
        "SELECT ?o { ?s ?p ?o } LIMIT 1 OFFSET 1",
        "ok new 2 now 2\n?o\n<x:c>\nok rows 1\n",
    ),
    (
        TWO,
        "SELECT ?o { ?s ?p ?o } LIMIT 18446744073709551615 OFFSET 0",
        "ok new 2 now 2\n?o\n<x:b>\n<x:c>\nok rows 2\n",
    ),
    (
        TWO,
        "PREFIX : <x:> SELECT ?a ?b { [] :p ?a, ?b }",
        "ok new 2 now 2\n?a\t?b\n<x:b>\t<x:b>\n<x:b>\t<x:c>\n<x:c>\t<x:b>\n<x:c>\t<x:c>\nok rows 4\n",
    ),
    (
        LOOPS,
        "SELECT ?x ?p { ?x ?p ?x }",
        "ok new 3 now 3\n?x\t?p\n<x:a>\t<x:a>\n<x:a>\t<x:p>\nok rows 2\n",
    ),
    (
        STRINGS,
        "SELECT ?o { ?s ?p ?o }\nGO\nDUMP\nQUERY\nSELECT *{}LIMIT 0",
        "ok new 2 now 2\n?o\n\"a\"\n\"t\\t\\n\"@en\nok rows 2\n<x:a> <x:p> \"a\" .\n<x:a> <x:p> \"t\t\\n\"@en .\nok dump 2\n\nok rows 0\n",
    ),
];

// A script of some lines and a query.
fn script_of(alloc: Global, before: &str, query: &[u8]) -> Result<Vec<u8>, AllocError> {
    let mut script = before.as_bytes().to_vec(alloc)?;
    script.extend_from_slice(b"QUERY\n")?;
    script.extend_from_slice(query)?;
    script.extend_from_slice(b"\nGO\n")?;
    Ok(script)
}

#[test]
fn answers_without_an_order(rt: HostRuntime) -> Result<(), Fail> {
    for (before, query, want) in SETTLED {
        let script = script_of(rt.alloc(), before, query.as_bytes())?;
        answers(&rt, rt.alloc(), &[], &script, want, Status::Done)?;
        answers(&rt, rt.alloc(), &["--sort"], &script, want, Status::Done)?;
    }
    Ok(())
}

#[test]
fn sorted_answers(rt: HostRuntime) -> Result<(), Fail> {
    for (before, query, want) in SORTED {
        let script = script_of(rt.alloc(), before, query.as_bytes())?;
        answers(&rt, rt.alloc(), &["--sort"], &script, want, Status::Done)?;
    }
    Ok(())
}

const NO_QUERY: &str = "refused 2 query\n";

const NO_PREFIX: &str = "refused 7 prefix\n";

const SIZE: &str = "refused 8 size\n";

// Texts of queries, and why they are refused.
const BAD: [(&[u8], &str); 27] = [
    (b"", NO_QUERY),
    (b"SELECT * { ?s ?p \"\xff\" }", NO_QUERY),
    (b"SELECT * { } # \xff", NO_QUERY),
    (b"SELECT * { ?s ?p ~ }", NO_QUERY),
    (b"SELECT * { ?s <p> ?o }", NO_QUERY),
    (b"PREFIX a: <p> SELECT * { }", NO_QUERY),
    (b"SELECT * { ?s <x:\\u0020> ?o }", NO_QUERY),
    (b"SELECT * { ?s ?p '\\uD800' }", NO_QUERY),
    (b"SELECT * { ?s ?p '\\q' }", NO_QUERY),
    (b"SELECT * { ?s ?p ?o } LIMIT 1 LIMIT 1", NO_QUERY),
    (b"SELECT * { ?s ?p ?o } SELECT", NO_QUERY),
    (b"SELECT * { ?s ?p ?o } }", NO_QUERY),
    (b"SELECT * { ?s ?p ?o ", NO_QUERY),
    (b"SELECT { ?s ?p ?o }", NO_QUERY),
    (b"SELECT * { ?s ?p }", NO_QUERY),
    (b"SELECT * { ?s 'p' ?o }", NO_QUERY),
    (b"SELECT * { FILTER(true) }", NO_QUERY),
    (b"SELECT * { ?x ^<x:p> ?y }", NO_QUERY),
    (b"ASK { }", NO_QUERY),
    (b"BASE <x:a> SELECT * { }", NO_QUERY),
    (b"SELECT * { ?s ?p ?o } LIMIT -1", NO_QUERY),
    (b"SELECT * { ?s ex:p ?o }", NO_PREFIX),
    (b"PREFIX EX: <x:> SELECT * { ?s ex:p ?o }", NO_PREFIX),
    (b"SELECT * { ?s ?p 1^^ex:p }", NO_QUERY),
    (
        b"SELECT * { ?s ?p '1'^^ex:p } OFFSET 18446744073709551616",
        NO_PREFIX,
    ),
    (b"SELECT * { } LIMIT 18446744073709551616", SIZE),
    (
        b"SELECT * { } OFFSET 100000000000000000000000 LIMIT 1",
        SIZE,
    ),
];

#[test]
fn bad_queries(rt: HostRuntime) -> Result<(), Fail> {
    for (query, want) in BAD {
        let script = script_of(rt.alloc(), "", query)?;
        answers(&rt, rt.alloc(), &[], &script, want, Status::SomeRefused)?;
    }
    Ok(())
}

#[test]
fn many_patterns(rt: HostRuntime) -> Result<(), Fail> {
    let alloc = rt.alloc();
    let rows = "ok new 2 now 2\n?s\n<x:a>\n<x:a>\nok rows 2\n";
    let cases = [
        (32usize, "", rows),
        (33, "", "ok new 2 now 2\nrefused 8 size\n"),
        (33, "?s ex:p ?o", "ok new 2 now 2\nrefused 7 prefix\n"),
        (33, "?s <p> ?o", "ok new 2 now 2\nrefused 2 query\n"),
    ];
    for (count, last, want) in cases {
        let mut query = b"SELECT ?s { ".to_vec(alloc)?;
        for _pattern in 0..count {
            query.extend_from_slice(b"?s ?p ?o . ")?;
        }
        query.extend_from_slice(last.as_bytes())?;
        query.push(b'}')?;
        let script = script_of(alloc, TWO, &query)?;
        let status = if count == 32 {
            Status::Done
        } else {
            Status::SomeRefused
        };
        answers(&rt, alloc, &[], &script, want, status)?;
    }
    Ok(())
}

#[test]
fn many_columns(rt: HostRuntime) -> Result<(), Fail> {
    let alloc = rt.alloc();
    for (count, want, refused) in [
        (128u32, "ok rows 0\n", false),
        (129, "refused 8 size\n", true),
    ] {
        let mut query = b"SELECT ?v0".to_vec(alloc)?;
        for column in 0..count {
            query.extend_from_slice(format!(in alloc; " ?v{column}")?.as_str().as_bytes())?;
        }
        query.extend_from_slice(b" { ?s ?p ?o }")?;
        let script = script_of(alloc, "", &query)?;
        let got = run_with::<SplitMix>(alloc, &script, 4096, 0, 0, &[])?;
        assert_eq!(rt; got.status == Status::SomeRefused, refused);
        assert!(rt; got.written.ends_with(want.as_bytes()));
    }
    Ok(())
}

// A text of 1,048,576 bytes, its last LF included, is no query; one of a byte more is too long, whatever it says.
#[test]
fn the_longest_query(rt: HostRuntime) -> Result<(), Fail> {
    let alloc = rt.alloc();
    for (length, want) in [(1_048_575usize, NO_QUERY), (1_048_576, "refused 6 long\n")] {
        let mut query = b"nothing\n".to_vec(alloc)?;
        query.resize(length, b' ')?;
        let script = script_of(alloc, "", &query)?;
        answers(&rt, alloc, &[], &script, want, Status::SomeRefused)?;
    }
    Ok(())
}

const FIRST: &str =
    "GENERATE 200000 7\nQUERY\nSELECT * { ?a1 ?b1 ?c1 . ?a2 ?b2 ?c2 . ?a3 ?b3 ?c3 . ?a4 ?b4 ?c4 . ?a5 ?b5 ?c5 . \
    ?a6 ?b6 ?c6 . ?a7 ?b7 ?c7 . ?a8 ?b8 ?c8 . ?a9 ?b9 ?c9 . ?a ?b ?c } LIMIT 1\nGO\n";

const HEADER: &str =
    "ok new 187501 now 187501\n?a1\t?b1\t?c1\t?a2\t?b2\t?c2\t?a3\t?b3\t?c3\t?a4\t?b4\t?c4\t?a5\t?b5\t?c5\t\
    ?a6\t?b6\t?c6\t?a7\t?b7\t?c7\t?a8\t?b8\t?c8\t?a9\t?b9\t?c9\t?a\t?b\t?c\n<urn:n:";

#[test]
fn the_first_of_many_rows(rt: HostRuntime) -> Result<(), Fail> {
    let got = run_with::<SplitMix>(rt.alloc(), FIRST.as_bytes(), 4096, 0, 0, &[])?;
    assert_eq!(rt; got.status, Status::Done);
    assert!(rt; got.written.starts_with(HEADER.as_bytes()));
    assert!(rt; got.written.ends_with(b">\nok rows 1\n"));
    let lines = got.written.iter().filter(|b| **b == b'\n').count();
    assert_eq!(rt; lines, 4);
    Ok(())
}
