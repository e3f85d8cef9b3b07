//! Terminals, texts and terms on inputs whose answers were taken from the W3C texts by hand.
use rdf_term::{
    KindRef, Scratch, TermRef, XSD_STRING, canon_text, canon_to, is_same, is_same_ref, order_of,
    read_iri, read_label, read_string, read_tag, tsv_text, tsv_to,
};
use std::alloc::{AllocError, Global};
use std::cmp::Ordering;
use std::test::Fail;
use tn_io::{MemSink, Out, Text};
use trie_depth::Memory;

#[derive(Clone, Copy)]
enum Terminal {
    Iri,
    Quoted,
    Label,
    Tag,
}

/// Whether a terminal is read as it should be, where nothing was read before.
fn is_read(
    scratch: &mut Scratch,
    terminal: Terminal,
    bytes: &[u8],
    want: Option<(&str, usize)>,
) -> bool {
    scratch.clear();
    if bytes.len() > 100 {
        return false;
    }
    let size = match terminal {
        Terminal::Iri => read_iri(bytes, scratch),
        Terminal::Quoted => read_string(bytes, scratch),
        Terminal::Label => read_label(bytes, scratch),
        Terminal::Tag => read_tag(bytes, scratch),
    };
    match (size, want) {
        (Some(n), Some((text, m))) => n == m && scratch.len() == 1 && scratch.last() == text,
        (None, None) => scratch.len() == 0,
        _ => false,
    }
}

/// The first line of a table that isn't read as it should be. A line has the size of the terminal or `none`, its text, and
/// what is read, parted by tabs.
fn first_wrong<'a>(scratch: &mut Scratch, terminal: Terminal, table: &'a str) -> Option<&'a str> {
    for line in table.lines() {
        let Some((size, behind)) = line.split_once('\t') else {
            return Some(line);
        };
        let Some((text, input)) = behind.split_once('\t') else {
            return Some(line);
        };
        let want = match size.parse::<usize>() {
            Ok(size) => Some((text, size)),
            Err(_) => None,
        };
        if !is_read(scratch, terminal, input.as_bytes(), want) {
            return Some(line);
        }
    }
    None
}

#[test]
fn iris(rt: HostRuntime) -> Result<(), Fail> {
    let mut scratch = Scratch::new(rt.alloc())?;
    let table = "7\turn:a\t<urn:a> x\n\
        4\ta:\t<a:>\n\
        10\ta+1.-Z:b\t<a+1.-Z:b>\n\
        23\thttp://example/\u{E9}\t<http://example/\\u00E9>\n\
        27\thttp://example/\u{1F600}\t<http://example/\\U0001F600>.\n\
        10\ta:b\t<\\u0061:b>\n\
        48\ta:!\u{D7FF}\u{E000}\u{FFFF}\u{10000}\u{10FFFF}\t<a:\\u0021\\uD7FF\\uE000\\uFFFF\\U00010000\\U0010FFFF>\n\
        13\ta:\u{80}\u{800}\u{10000}\t<a:\u{80}\u{800}\u{10000}>\n\
        16\ta:\u{E9}\u{AF}\t<a:\\u00e9\\u00aF>\n\
        none\t\t\n\
        none\t\ta:b>\n\
        none\t\t<a:b\n\
        none\t\t<>\n\
        none\t\t<a>\n\
        none\t\t<:a>\n\
        none\t\t<1a:b>\n\
        none\t\t<a_b:c>\n\
        none\t\t<a:b c>\n\
        none\t\t<a:\"b>\n\
        none\t\t<a:{b>\n\
        none\t\t<a:\\>\n\
        none\t\t<a:\\t>\n\
        none\t\t<a:\\u0020>\n\
        none\t\t<a:\\u003E>\n\
        none\t\t<a:\\uD800>\n\
        none\t\t<a:\\U00110000>\n\
        none\t\t<a:\\u00G0>";
    let wrong = first_wrong(&mut scratch, Terminal::Iri, table);
    assert!(rt; wrong.is_none(), "{wrong:?}");
    assert!(rt; is_read(&mut scratch, Terminal::Iri, b"<a:\xFFb>", None));
    Ok(())
}

#[test]
fn strings(rt: HostRuntime) -> Result<(), Fail> {
    let mut scratch = Scratch::new(rt.alloc())?;
    let table = "2\t\t\"\" .\n\
        3\ta\t\"a\"b\"\n\
        24\t\u{D7FF}\u{E000}\u{10FFFF}\t\"\\uD7FF\\uE000\\U0010FFFF\"\n\
        21\tABB43\t\"\\u0041B\\U0000004243\"\n\
        11\t\u{7FF}\u{FFFF}\u{10FFFF}\t\"\u{7FF}\u{FFFF}\u{10FFFF}\"\n\
        none\t\t\n\
        none\t\t\"\n\
        none\t\t\"a\n\
        none\t\ta\"\n\
        none\t\t\"\\a\"\n\
        none\t\t\"\\\"\n\
        none\t\t\"\\uDFFF\"\n\
        none\t\t\"\\U00110000\"\n\
        none\t\t\"\\u12\"";
    let wrong = first_wrong(&mut scratch, Terminal::Quoted, table);
    assert!(rt; wrong.is_none(), "{wrong:?}");
    assert!(rt;
        is_read(
            &mut scratch,
            Terminal::Quoted,
            b"\"\\t\\b\\n\\r\\f\\\"\\'\\\\\"",
            Some(("\t\u{8}\n\r\u{C}\"'\\", 18))
        )
    );
    assert!(rt;
        is_read(
            &mut scratch,
            Terminal::Quoted,
            b"\"<{}|^`>\t \x00\x7F\"",
            Some(("<{}|^`>\t \0\u{7F}", 13))
        )
    );
    assert!(rt;
        is_read(
            &mut scratch,
            Terminal::Quoted,
            b"\"\\u0000\\u0022\\u005C\"",
            Some(("\0\"\\", 20))
        )
    );
    assert!(rt;
        is_read(
            &mut scratch,
            Terminal::Quoted,
            b"\"\\u000A\\U0000000D\"",
            Some(("\n\r", 18))
        )
    );
    assert!(rt; is_read(&mut scratch, Terminal::Quoted, b"\"a\nb\"", None));
    assert!(rt; is_read(&mut scratch, Terminal::Quoted, b"\"a\rb\"", None));
    assert!(rt; is_read(&mut scratch, Terminal::Quoted, b"\"\xC3\"", None));
    Ok(())
}

#[test]
fn labels(rt: HostRuntime) -> Result<(), Fail> {
    let mut scratch = Scratch::new(rt.alloc())?;
    let table = "3\ta\t_:a\n\
        5\ta.b\t_:a.b.\n\
        3\ta\t_:a..\n\
        7\ta...b\t_:a...b c\n\
        5\t0-9\t_:0-9\n\
        4\ta-\t_:a-\n\
        6\t:a:b\t_::a:b\n\
        3\t_\t_:_\n\
        8\tAZaz09\t_:AZaz09<\n\
        3\ta\t_:a\"\n\
        7\t\u{E9}.\u{B7}\t_:\u{E9}.\u{B7} .\n\
        none\t\t\n\
        none\t\t_\n\
        none\t\t_:\n\
        none\t\t_a\n\
        none\t\ta:b\n\
        none\t\t_:.a\n\
        none\t\t_:-a\n\
        none\t\t_:\u{B7}";
    let wrong = first_wrong(&mut scratch, Terminal::Label, table);
    assert!(rt; wrong.is_none(), "{wrong:?}");
    assert!(rt; is_read(&mut scratch, Terminal::Label, b"_:a\xFF", Some(("a", 3))));
    assert!(rt; is_read(&mut scratch, Terminal::Label, b"_:a.\xC3", Some(("a", 3))));
    assert!(rt; is_read(&mut scratch, Terminal::Label, b"_:\xC3", None));
    Ok(())
}

#[test]
fn tags(rt: HostRuntime) -> Result<(), Fail> {
    let mut scratch = Scratch::new(rt.alloc())?;
    let table = "3\ten\t@en\n\
        11\ten-latn-x1\t@EN-Latn-x1 .\n\
        6\ta-1-2\t@a-1-2\n\
        2\ta\t@a-\n\
        2\ta\t@a--b\n\
        2\ta\t@a1\n\
        3\taz\t@aZ@\n\
        4\ta-b\t@a-b_\n\
        none\t\t\n\
        none\t\t@\n\
        none\t\ten\n\
        none\t\t@1\n\
        none\t\t@-a\n\
        none\t\t@\u{E9}";
    let wrong = first_wrong(&mut scratch, Terminal::Tag, table);
    assert!(rt; wrong.is_none(), "{wrong:?}");
    Ok(())
}

/// The first of these numbers that an IRI can have as an escape.
fn first_allowed<'a>(
    alloc: Global,
    scratch: &mut Scratch,
    numbers: &'a str,
) -> Result<Option<&'a str>, AllocError> {
    for number in numbers.split(' ') {
        let iri = format!(in alloc; "<a:\\u{number}>")?;
        if !is_read(scratch, Terminal::Iri, iri.as_bytes(), None) {
            return Ok(Some(number));
        }
    }
    Ok(None)
}

#[test]
fn characters_that_an_iri_leaves_out(rt: HostRuntime) -> Result<(), Fail> {
    let mut scratch = Scratch::new(rt.alloc())?;
    let numbers = "0000 0009 000A 001F 0020 0022 003C 003E 005C 005E 0060 007B 007C 007D";
    let allowed = first_allowed(rt.alloc(), &mut scratch, numbers)?;
    assert!(rt; allowed.is_none(), "{allowed:?}");
    Ok(())
}

/// The first character that doesn't stand in a label where it should, or stands where it shouldn't.
fn first_odd(
    alloc: Global,
    scratch: &mut Scratch,
    chars: &str,
    begins: bool,
    goes_on: bool,
) -> Result<Option<char>, AllocError> {
    for c in chars.chars() {
        let first = format!(in alloc; "_:{c}")?;
        let first_text = format!(in alloc; "{c}")?;
        let want = if begins {
            Some((first_text.as_str(), first.len()))
        } else {
            None
        };
        if !is_read(scratch, Terminal::Label, first.as_bytes(), want) {
            return Ok(Some(c));
        }
        let later = format!(in alloc; "_:x{c}")?;
        let later_text = format!(in alloc; "x{c}")?;
        let want = if goes_on {
            (later_text.as_str(), later.len())
        } else {
            ("x", 3)
        };
        if !is_read(scratch, Terminal::Label, later.as_bytes(), Some(want)) {
            return Ok(Some(c));
        }
    }
    Ok(None)
}

/// Each end of each range of PN_CHARS, and what stands right outside it.
#[test]
fn ends_of_the_ranges_of_labels(rt: HostRuntime) -> Result<(), Fail> {
    let mut scratch = Scratch::new(rt.alloc())?;
    let everywhere =
        "AZaz_:09\u{C0}\u{D6}\u{D8}\u{F6}\u{F8}\u{2FF}\u{370}\u{37D}\u{37F}\u{1FFF}\u{200C}\u{200D}\
        \u{2070}\u{218F}\u{2C00}\u{2FEF}\u{3001}\u{D7FF}\u{F900}\u{FDCF}\u{FDF0}\u{FFFD}\u{10000}\
        \u{EFFFF}";
    let odd = first_odd(rt.alloc(), &mut scratch, everywhere, true, true)?;
    assert!(rt; odd.is_none(), "{odd:?}");
    let behind_the_first = "-\u{B7}\u{300}\u{36F}\u{203F}\u{2040}";
    let odd = first_odd(rt.alloc(), &mut scratch, behind_the_first, false, true)?;
    assert!(rt; odd.is_none(), "{odd:?}");
    let nowhere =
        "@[`{/;,\u{B6}\u{B8}\u{BF}\u{D7}\u{F7}\u{37E}\u{2000}\u{200B}\u{200E}\u{203E}\u{2041}\
        \u{206F}\u{2190}\u{2BFF}\u{2FF0}\u{3000}\u{E000}\u{F8FF}\u{FDD0}\u{FDEF}\u{FFFE}\u{FFFF}\
        \u{F0000}";
    let odd = first_odd(rt.alloc(), &mut scratch, nowhere, false, false)?;
    assert!(rt; odd.is_none(), "{odd:?}");
    Ok(())
}

/// Several terminals of one line: each text stays where it was.
#[test]
fn texts_of_a_line(rt: HostRuntime) -> Result<(), Fail> {
    let mut scratch = Scratch::new(rt.alloc())?;
    assert!(rt; read_iri(b"<urn:a>", &mut scratch) == Some(7));
    assert!(rt; scratch.len() == 1);
    assert!(rt; scratch.text(0) == "urn:a");
    scratch.add();
    scratch.join("b");
    scratch.join("c");
    assert!(rt; scratch.len() == 2);
    assert!(rt; scratch.text(0) == "urn:a");
    assert!(rt; scratch.last() == "bc");
    scratch.drop_last();
    assert!(rt; scratch.len() == 1);
    assert!(rt; scratch.last() == "urn:a");
    scratch.clear();
    assert!(rt; scratch.len() == 0);
    Ok(())
}

/// Whether both texts of a term are put and added as they should be.
fn is_written(alloc: Global, term: TermRef<'_>, canon: &str, tsv: &str) -> Result<bool, Memory> {
    let mut text = Text::of(alloc, "=")?;
    canon_text(alloc, term, &mut text)?;
    tsv_text(alloc, term, &mut text)?;
    let both = format!(in alloc; "{canon}{tsv}")?;
    let want = format!(in alloc; "={both}")?;
    let mut sink = MemSink::new(alloc, 3, Vec::new(alloc));
    let mut out = Out::new(&mut sink);
    let put = canon_to(term, &mut out).is_ok()
        && tsv_to(term, &mut out).is_ok()
        && out.flush().is_ok();
    Ok(put && sink.bytes() == both.as_bytes() && text.as_str() == want.as_str())
}

#[test]
fn texts_of_terms(rt: HostRuntime) -> Result<(), Fail> {
    let alloc = rt.alloc();
    let string = KindRef::Typed(XSD_STRING);
    assert!(rt; is_written(alloc, TermRef::Iri("urn:a"), "<urn:a>", "<urn:a>")?);
    assert!(rt; is_written(alloc, TermRef::Blank("a.b"), "_:a.b", "_:a.b")?);
    assert!(rt; is_written(alloc, TermRef::Literal("", string), "\"\"", "\"\"")?);
    let form = "a\tb\n\r\"\\\u{8}\u{E9}";
    assert!(rt;
        is_written(
            alloc,
            TermRef::Literal(form, string),
            "\"a\tb\\n\\r\\\"\\\\\u{8}\u{E9}\"",
            "\"a\\tb\\n\\r\\\"\\\\\u{8}\u{E9}\""
        )?
    );
    assert!(rt;
        is_written(
            alloc,
            TermRef::Literal("1", KindRef::Typed("urn:t")),
            "\"1\"^^<urn:t>",
            "\"1\"^^<urn:t>"
        )?
    );
    assert!(rt;
        is_written(
            alloc,
            TermRef::Literal("\tt", KindRef::Tagged("en")),
            "\"\tt\"@en",
            "\"\\tt\"@en"
        )?
    );
    Ok(())
}

/// Whether a string and the tag behind it are read again as the same literal.
fn is_read_again(alloc: Global, text: &str, term: TermRef<'_>) -> Result<bool, Memory> {
    let bytes = text.as_bytes();
    let mut again = Scratch::new(alloc)?;
    if bytes.len() > 100 {
        return Ok(false);
    }
    let Some(size) = read_string(bytes, &mut again) else {
        return Ok(false);
    };
    if read_tag(&bytes[size..], &mut again).is_none() {
        return Ok(false);
    }
    Ok(is_same_ref(
        TermRef::Literal(again.text(0), KindRef::Tagged(again.text(1))),
        term,
    ))
}

/// A literal with tabs, a line end and an upper case tag: each of its texts is read again as the same term.
#[test]
fn texts_are_read_again(rt: HostRuntime) -> Result<(), Fail> {
    let mut first = Scratch::new(rt.alloc())?;
    let line: &[u8] = b"\"t\\t\t\\n\"@EN";
    assert!(rt; read_string(line, &mut first) == Some(8));
    assert!(rt; read_tag(&line[8..], &mut first) == Some(3));
    let term = TermRef::Literal(first.text(0), KindRef::Tagged(first.text(1)));
    let mut canon = Text::new(rt.alloc());
    canon_text(rt.alloc(), term, &mut canon)?;
    assert!(rt; is_read_again(rt.alloc(), canon.as_str(), term)?);
    let mut tsv = Text::new(rt.alloc());
    tsv_text(rt.alloc(), term, &mut tsv)?;
    assert!(rt; is_read_again(rt.alloc(), tsv.as_str(), term)?);
    Ok(())
}

/// The first of some terms in order that is compared wrongly with another.
fn first_misplaced(alloc: Global, in_order: &[TermRef<'_>]) -> Result<Option<usize>, Memory> {
    for (i, a) in in_order.iter().enumerate() {
        let own = (*a).own(alloc)?;
        if !is_same_ref(own.lent(), *a) {
            return Ok(Some(i));
        }
        for (j, b) in in_order.iter().enumerate() {
            let other = (*b).own(alloc)?;
            if order_of(&own, &other) != i.cmp(&j) || is_same(&own, &other) != (i == j) {
                return Ok(Some(i));
            }
        }
    }
    Ok(None)
}

#[test]
fn terms(rt: HostRuntime) -> Result<(), Fail> {
    let misplaced = first_misplaced(
        rt.alloc(),
        &[
            TermRef::Iri("a"),
            TermRef::Iri("b"),
            TermRef::Blank("a"),
            TermRef::Literal("a", KindRef::Typed("x")),
            TermRef::Literal("a", KindRef::Tagged("x")),
            TermRef::Literal("b", KindRef::Typed("w")),
        ],
    )?;
    assert!(rt; misplaced.is_none(), "{misplaced:?}");
    Ok(())
}
