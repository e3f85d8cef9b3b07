//! The texts of answers, one after another.
use answer_text::{
    Figures, Refusal, Reply, end_row, field, header, ok, put_figures, put_lines, refused,
};
use query_plan::{Column, Columns, Patterns, Query};
use rdf_term::{KindRef, TermRef};
use std::alloc::Global;
use std::test::Fail;
use tn_io::{Lines, MemSink, Out, Text};
use trie_depth::Memory;

/// Each reply and each refusal, one after another.
#[test]
fn lines_of_answers(rt: HostRuntime) -> Result<(), Fail> {
    let mut sink = MemSink::new(rt.alloc(), 7, Vec::new(rt.alloc()));
    let mut out = Out::new(&mut sink);
    let replies = [
        Reply::New(2, 12),
        Reply::Gone(0, 18_446_744_073_709_551_615),
        Reply::Rows(10),
        Reply::Stats,
        Reply::Shape,
        Reply::Dump(3),
    ];
    for reply in replies {
        assert!(rt; ok(reply, &mut out).is_ok());
    }
    let refusals = [
        Refusal::Command,
        Refusal::Query,
        Refusal::Line(3),
        Refusal::File,
        Refusal::Full(20),
        Refusal::Long,
        Refusal::Prefix,
        Refusal::Size,
        Refusal::Memory,
        Refusal::Unended,
    ];
    for refusal in refusals {
        assert!(rt; refused(refusal, &mut out).is_ok());
    }
    assert!(rt; out.flush().is_ok());
    let want =
        "ok new 2 now 12\nok gone 0 now 18446744073709551615\nok rows 10\nok stats\nok shape\nok dump 3\nrefused 1 command\nrefused 2 query\nrefused 3 line 3\nrefused 4 file\nrefused 5 full 20\nrefused 6 long\nrefused 7 prefix\nrefused 8 size\nrefused 9 memory\nrefused 10 unended\n";
    assert_eq!(rt; sink.bytes(), want.as_bytes());
    Ok(())
}

/// Lines with figures behind them.
#[test]
fn lines_and_figures(rt: HostRuntime) -> Result<(), Fail> {
    let alloc = rt.alloc();
    let mut lines = Lines::new(alloc);
    lines.push(Text::of(alloc, "a line")?)?;
    let numbers = Figures {
        triples: 2,
        terms: 4,
        two: 3,
        one: 1,
    };
    let mut sink = MemSink::new(alloc, 64, Vec::new(alloc));
    let mut out = Out::new(&mut sink);
    assert!(rt; put_lines(&lines, &mut out).is_ok());
    assert!(rt; put_figures(numbers, &mut out).is_ok());
    assert!(rt; out.flush().is_ok());
    let want = "a line\ntriples 2\nterms 4\ntwo 3\none 1\n";
    assert_eq!(rt; sink.bytes(), want.as_bytes());
    Ok(())
}

/// A query that asks for columns of these names.
fn query_of(alloc: Global, names: &[&str]) -> Result<Query, Memory> {
    let mut columns = Columns::new(alloc);
    for name in names {
        columns.push(Column {
            name: Text::of(alloc, name)?,
            label: None,
        })?;
    }
    Ok(Query {
        columns,
        labels: 0,
        distinct: false,
        patterns: Patterns::new(alloc),
        limit: None,
        offset: 0,
    })
}

/// The headers of two columns, of none and of one, each with rows under it.
#[test]
fn headers_and_rows(rt: HostRuntime) -> Result<(), Fail> {
    let alloc = rt.alloc();
    let two = query_of(alloc, &["x", "p"])?;
    let none = query_of(alloc, &[])?;
    let one = query_of(alloc, &["empty"])?;
    let iri = Some(TermRef::Iri("x:a"));
    let tagged = Some(TermRef::Literal("a\tb", KindRef::Tagged("en")));
    let mut sink = MemSink::new(alloc, 64, Vec::new(alloc));
    let mut out = Out::new(&mut sink);
    assert!(rt; header(&two, &mut out).is_ok());
    for (x, p) in [(iri, tagged), (None, iri), (tagged, None)] {
        assert!(rt; field(x, true, &mut out).is_ok());
        assert!(rt; field(p, false, &mut out).is_ok());
        assert!(rt; end_row(&mut out).is_ok());
    }
    assert!(rt; header(&none, &mut out).is_ok());
    assert!(rt; end_row(&mut out).is_ok());
    assert!(rt; header(&one, &mut out).is_ok());
    assert!(rt; field(None, true, &mut out).is_ok());
    assert!(rt; end_row(&mut out).is_ok());
    assert!(rt; out.flush().is_ok());
    let want = "?x\t?p\n<x:a>\t\"a\\tb\"@en\n\t<x:a>\n\"a\\tb\"@en\t\n\n\n?empty\n\n";
    assert_eq!(rt; sink.bytes(), want.as_bytes());
    Ok(())
}
