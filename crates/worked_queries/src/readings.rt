//! Queries with what they mean, taken from the grammar by hand.
use query_plan::{Place, Query};
use query_read::{ReadFault, read};
use rdf_term::canon_text;
use std::alloc::Global;
use std::process::Abort;
use std::test::Fail;
use tn_io::Text;

/// The text is read as a query whose parts are written so.
fn reads(rt: &impl Abort, alloc: Global, text: &str, meaning: &str) -> Result<(), Fail> {
    match read(alloc, text.as_bytes()) {
        Ok(query) => assert!(rt; written(alloc, &query)?.as_str() == meaning, "{text}"),
        Err(_) => panic!(rt; "{text}"),
    }
    Ok(())
}

/// A query: its columns, its patterns, and its modifiers.
fn written(alloc: Global, query: &Query) -> Result<String, Fail> {
    let mut text = String::new(alloc);
    for i in 0..query.columns.len() {
        let column = query.columns.at(i);
        text.push_str(column.name.as_str())?;
        if let Some(label) = column.label {
            text.push_str(format!(in alloc; " {label}")?.as_str())?;
        }
        text.push_str(", ")?;
    }
    text.push_str(format!(in alloc; "of {}", query.labels)?.as_str())?;
    for i in 0..query.patterns.len() {
        let pattern = query.patterns.at(i);
        text.push_str(" |")?;
        put_place(alloc, &mut text, &pattern.s)?;
        put_place(alloc, &mut text, &pattern.p)?;
        put_place(alloc, &mut text, &pattern.o)?;
    }
    if query.distinct {
        text.push_str(" distinct")?;
    }
    if let Some(limit) = query.limit {
        text.push_str(format!(in alloc; " limit {limit}")?.as_str())?;
    }
    text.push_str(format!(in alloc; " offset {}", query.offset)?.as_str())?;
    Ok(text)
}

fn put_place(alloc: Global, text: &mut String, place: &Place) -> Result<(), Fail> {
    match place {
        Place::Label(label) => text.push_str(format!(in alloc; " {label}")?.as_str())?,
        Place::Const(term) => {
            text.push_str(" ")?;
            let mut canon = Text::new(alloc);
            canon_text(alloc, term.lent(), &mut canon)?;
            text.push_str(canon.as_str())?;
        }
    }
    Ok(())
}

#[test]
fn queries(rt: HostRuntime) -> Result<(), Fail> {
    let cases = [
        (
            "SELECT ?x ?x { ?x a [ <x:p> _:o ] }",
            "x 0, of 3 | 1 <x:p> 2 | 0 <http://www.w3.org/1999/02/22-rdf-syntax-ns#type> 1 offset 0",
        ),
        (
            "SELECT * { ?s ?p -1.5e3 . } OFFSET 2 LIMIT 3",
            "s 0, p 1, of 2 | 0 1 \"-1.5e3\"^^<http://www.w3.org/2001/XMLSchema#double> limit 3 offset 2",
        ),
        (
            "select distinct $x ?y where { ?x ?p ?x }",
            "x 0, y, of 2 | 0 1 0 distinct offset 0",
        ),
        (
            "PREFIX a: <x:1> prefix a: <x:2> PREFIX : <y:> SELECT * { a:b\\.c%2F : a: }",
            "of 0 | <x:2b.c%2F> <y:> <x:2> offset 0",
        ),
        (
            "SELECT REDUCED * { ?s ?p 'b'@EN-Gb, \"c\\u0064\", '''e'f\n''' ; ?q 1, true }",
            "s 0, p 1, q 2, of 3 | 0 1 \"b\"@en-gb | 0 1 \"cd\" | 0 1 \"e'f\\n\" | 0 2 \"1\"^^<http://www.w3.org/2001/XMLSchema#integer> | 0 2 \"true\"^^<http://www.w3.org/2001/XMLSchema#boolean> offset 0",
        ),
        (
            "SELECT ?n { [] ?p [ ?q '1'^^<x:t> ] } LIMIT 007",
            "n, of 4 | 2 3 \"1\"^^<x:t> | 0 1 2 limit 7 offset 0",
        ),
        ("SELECT ?n {} # nothing", "n, of 0 offset 0"),
    ];
    for (text, meaning) in cases {
        reads(&rt, rt.alloc(), text, meaning)?;
    }
    Ok(())
}

#[test]
fn first_faults(rt: HostRuntime) {
    let cases = [
        ("SELECT ?x { ?x A <x:p> }", ReadFault::NotQuery),
        ("SELECT * { <p> <x:p> <x:o> }", ReadFault::NotQuery),
        ("SELECT * { <x:p> <x:p> '\\uD800' }", ReadFault::NotQuery),
        ("SELECT * { ?s ?p ?o } }", ReadFault::NotQuery),
        ("SELECT * { ?s ?p [ ?q ] }", ReadFault::NotQuery),
        (
            "SELECT * { ?s a:b ?o } LIMIT 18446744073709551616",
            ReadFault::NoPrefix,
        ),
        ("SELECT * { ?s ?p '1'^^a:b }", ReadFault::NoPrefix),
        (
            "SELECT * { ?s ?p 1,2,3,4,5,6,7,8,9,10,11,12,13,14,15,16,17,18,19,20,21,22,23,24,25,26,27,28,29,30,31,32,33 } LIMIT 18446744073709551616",
            ReadFault::TooManyPatterns,
        ),
        (
            "select * where { ?s ?p ?o } limit 18446744073709551616",
            ReadFault::TooLarge,
        ),
        (
            "select * where { ?s ?p ?o } offset 99999999999999999999 limit 1",
            ReadFault::TooLarge,
        ),
    ];
    for (text, fault) in cases {
        match read(rt.alloc(), text.as_bytes()) {
            Ok(_) => panic!(&rt; "{text}"),
            Err(found) => assert!(&rt; found == fault, "{text}"),
        }
    }
}

// Texts that are no query: by a byte, a token, an IRI, an escape, a character's number, or what stands where.
const NO_QUERY: [&[u8]; 20] = [
    b"",
    b"SELECT * { ?s ?p \"\xff\" }",
    b"SELECT * { } # \xc3",
    b"SELECT * { ?s ?p ~ }",
    b"SELECT * { ?s ?p - 1 }",
    b"SELECT * { ?s ?p <x:a b> }",
    b"SELECT * { ?s <p> ?o }",
    b"SELECT * { ?s <> ?o }",
    b"SELECT * { ?s <1x:p> ?o }",
    b"PREFIX a: <p> SELECT * { }",
    b"SELECT * { ?s <x:\\u0020> ?o }",
    b"SELECT * { ?s ?p '\\q' }",
    b"SELECT * { ?s ?p '\\uDFFF' }",
    b"SELECT * { ?s ?p '\\U00110000' }",
    b"SELECT * { ?s ?p ?o } LIMIT 1 LIMIT 1",
    b"SELECT * { ?s ?p ?o } SELECT",
    b"SELECT * { ?s ?p ?o } .",
    b"SELECT * { ?s ?p ?o } LIMIT 1.0",
    b"SELECT * { FILTER(true) }",
    b"PREFIX a: <x:> SELECT * { ?s ?p 1^^a:b }",
];

#[test]
fn texts_that_are_no_query(rt: HostRuntime) {
    for text in NO_QUERY {
        match read(rt.alloc(), text) {
            Ok(_) => panic!(&rt; "a text of {} bytes", text.len()),
            Err(fault) => assert_eq!(&rt;
                fault,
                ReadFault::NotQuery,
                "a text of {} bytes",
                text.len()
            ),
        }
    }
}

#[test]
fn too_many_columns(rt: HostRuntime) -> Result<(), Fail> {
    for (count, is_read) in [(128, true), (129, false)] {
        let mut text = String::from_str(rt.alloc(), "SELECT")?;
        for i in 0..count {
            text.push_str(format!(in rt.alloc(); " ?v{i} ?v{i}")?.as_str())?;
        }
        text.push_str("{}")?;
        match read(rt.alloc(), text.as_str().as_bytes()) {
            Ok(query) => assert!(rt; is_read && query.columns.len() == 128),
            Err(fault) => assert!(rt; !is_read && fault == ReadFault::TooManyColumns),
        }
    }
    Ok(())
}
