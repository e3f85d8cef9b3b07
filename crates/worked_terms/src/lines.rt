//! Lines of every production and rule. What they say was read off RDF 1.1 N-Triples by hand.
ghost use Rattle.std.specs.Prelude.{◌≤◌, length};

use ntriples::{LineFault, read_line};
use rdf_term::{KindRef, Scratch, TermRef, XSD_STRING, canon_text};
use std::alloc::Global;
use std::test::Fail;
use tn_io::Text;
use trie_depth::Memory;

/// Lines whose objects are IRIs and blank nodes, each with the canonical text of its object.
const NAMES: &str = r#"<x:a> <x:p> <x:b> . => <x:b>
<x:a><x:p><x:b>. => <x:b>
 <x:a>  <x:p> <x:b>  .  => <x:b>
<x:a> <x:p> <x:b> .# comment => <x:b>
<x:a> <x:p> <x:b>.# => <x:b>
<x:a> <x:p> <x:\u00e9\u00E9> . => <x:éé>
<x:a> <x:p> <x:\U0001F600> . => <x:😀>
<x:a> <x:p> <x:é> . => <x:é>
<x:a> <x:p> <a1+.-:b> . => <a1+.-:b>
<x:a> <x:p> <x:> . => <x:>
<x:a> <x:p> <\u0078:a> . => <x:a>
<x:a> <x:p> <x:'()*#f?q=1&r;%20> . => <x:'()*#f?q=1&r;%20>
<x:a> <x:p> <x:\u0021\u007E> . => <x:!~>
<x:a> <x:p> _:b . => _:b
<x:a> <x:p> _:1 . => _:1
<x:a> <x:p> _:_ . => _:_
<x:a> <x:p> _:: . => _::
<x:a> <x:p> _:a-b . => _:a-b
<x:a> <x:p> _:a.b. => _:a.b
<x:a> <x:p> _:a..b. => _:a..b
<x:a> <x:p> _:a.#c => _:a
<x:a> <x:p> _:a . => _:a"#;

/// Lines whose objects are literals.
const LITERALS: &str = r##"<x:a> <x:p> "a" . => "a"
<x:a> <x:p> "" . => ""
<x:a> <x:p> "a". => "a"
<x:a> <x:p> "\n\r\"\'\\" . => "\n\r\"'\\"
<x:a> <x:p> "\u00e9" . => "é"
<x:a> <x:p> "\U0001F600" . => "😀"
<x:a> <x:p> "é😀" . => "é😀"
<x:a> <x:p> "# <> '{}|^`" . => "# <> '{}|^`"
<x:a> <x:p> "\\u0041" . => "\\u0041"
<x:a> <x:p> "\u0041" . => "A"
<x:a> <x:p> "a"@en . => "a"@en
<x:a> <x:p> "a"@EN . => "a"@en
<x:a> <x:p> "a"@en-US-x1 . => "a"@en-us-x1
<x:a> <x:p> "a"@a-1-2b. => "a"@a-1-2b
<x:a> <x:p> "a"  @en . => "a"@en
<x:a> <x:p> "a"^^<x:t> . => "a"^^<x:t>
<x:a> <x:p> "a"^^<x:t>. => "a"^^<x:t>
<x:a> <x:p> "a" ^^ <x:t> . => "a"^^<x:t>
<x:a> <x:p> "a"^^<http://www.w3.org/2001/XMLSchema#string> . => "a"
<x:a> <x:p> "a"^^<http://www.w3.org/1999/02/22-rdf-syntax-ns#langString> . => "a"^^<http://www.w3.org/1999/02/22-rdf-syntax-ns#langString>"##;

/// Lines with too few terms, too many, or one in a wrong place.
const BAD_SHAPES: &str = r#"<x:a> <x:p> .
<x:a> <x:p> <x:b>
<x:a> <x:p> <x:b> x
<x:a> <x:p> <x:b> . x
<x:a> <x:p> <x:b> . .
<x:a> <x:p> <x:b> ;
<x:a> <x:p> <x:b> <x:c> .
"a" <x:p> <x:b> .
<x:a> _:p <x:b> .
<x:a> "p" <x:b> .
<x:a> .
<x:a>
.
@prefix x: <x:> .
a
<x:a> <x:p> _: .
<x:a> <x:p> _: b .
<x:a> <x:p> _:-a .
<x:a> <x:p> _:.a .
<x:a> <x:p> _:a..
<x:a> <x:p> _:a. .
<x:a> <x:p> _:a× .
<x:a> <x:p> _ :a .
<x:a> <x:p> :a ."#;

/// Lines with IRIs that are not.
const BAD_IRIS: &str = r#"<a> <x:p> <x:b> .
<x:a> <p> <x:b> .
<x:a> <x:p> <b> .
<x:a> <x:p> <1x:b> .
<x:a> <x:p> <:b> .
<x:a> <x:p> <> .
<x:a> <x:p> <\u0031:b> .
<x:a> <x:p> <x:a b> .
<x:a> <x:p> <x:a<b> .
<x:a> <x:p> <x:a"b> .
<x:a> <x:p> <x:a{b> .
<x:a> <x:p> <x:a}b> .
<x:a> <x:p> <x:a|b> .
<x:a> <x:p> <x:a^b> .
<x:a> <x:p> <x:a`b> .
<x:a> <x:p> <x:a\b> .
<x:a> <x:p> <x:\u0020> .
<x:a> <x:p> <x:\u0000> .
<x:a> <x:p> <x:\u003C> .
<x:a> <x:p> <x:\u003e> .
<x:a> <x:p> <x:\u0022> .
<x:a> <x:p> <x:\u007B> .
<x:a> <x:p> <x:\u007D> .
<x:a> <x:p> <x:\u007C> .
<x:a> <x:p> <x:\u005E> .
<x:a> <x:p> <x:\u0060> .
<x:a> <x:p> <x:\U0000005C> .
<x:a> <x:p> <x:\uD800> .
<x:a> <x:p> <x:\U00110000> .
<x:a> <x:p> <x:\n> .
<x:a> <x:p> <x:b ."#;

/// Lines with literals that are not.
const BAD_LITERALS: &str = r#"<x:a> <x:p> "\uD800" .
<x:a> <x:p> "\uDFFF" .
<x:a> <x:p> "\U00110000" .
<x:a> <x:p> "\UFFFFFFFF" .
<x:a> <x:p> "\u12" .
<x:a> <x:p> "\u12G4" .
<x:a> <x:p> "\U0001F60" .
<x:a> <x:p> "\x" .
<x:a> <x:p> "\" .
<x:a> <x:p> "a
<x:a> <x:p> "a .
<x:a> <x:p> a" .
<x:a> <x:p> 'a' .
<x:a> <x:p> "a""b" .
<x:a> <x:p> "a"@ .
<x:a> <x:p> "a"@1 .
<x:a> <x:p> "a"@en- .
<x:a> <x:p> "a"@en--us .
<x:a> <x:p> "a"@en_us .
<x:a> <x:p> "a"@ en .
<x:a> <x:p> "a"@en@en .
<x:a> <x:p> "a"@en^^<x:t> .
<x:a> <x:p> "a"^<x:t> .
<x:a> <x:p> "a"^ ^<x:t> .
<x:a> <x:p> "a"^^ .
<x:a> <x:p> "a"^^t .
<x:a> <x:p> "a"^^<t> .
<x:a> <x:p> "a"^^"t" .
<x:a> <x:p> "a"^^_:t .
<x:a> <x:p> <x:b>@en ."#;

/// The object of a line, where its subject and predicate are `<x:a>` and `<x:p>`.
fn object<'a>(line: &[u8], to: &'a mut Scratch) -> Option<TermRef<'a>>
    requires { length line.now ≤ 1048576 }
{
    let triple = read_line(line, "", to).ok()??;
    if triple.s == TermRef::Iri("x:a") && triple.p == TermRef::Iri("x:p") {
        Some(triple.o)
    } else {
        None
    }
}

/// The first row of a table whose line hasn't the object that stands behind it.
fn first_wrong<'a>(alloc: Global, table: &'a str) -> Result<Option<&'a str>, Memory> {
    let mut to = Scratch::new(alloc)?;
    for row in table.lines() {
        let Some((line, want)) = row.split_once(" => ") else {
            return Ok(Some(row));
        };
        if line.len() > 1000 {
            return Ok(Some(row));
        }
        let mut text = Text::new(alloc);
        if let Some(term) = object(line.as_bytes(), &mut to) {
            canon_text(alloc, term, &mut text)?;
        }
        if text.as_str() != want {
            return Ok(Some(row));
        }
    }
    Ok(None)
}

/// The first line of a table that isn't refused for its shape.
fn first_read<'a>(to: &mut Scratch, table: &'a str) -> Option<&'a str> {
    for line in table.lines() {
        if line.len() > 1000 {
            return Some(line);
        }
        if !matches!(read_line(line.as_bytes(), "", to), Err(LineFault::Shape)) {
            return Some(line);
        }
    }
    None
}

#[test]
fn good_lines(rt: HostRuntime) -> Result<(), Fail> {
    for table in [NAMES, LITERALS] {
        let wrong = first_wrong(rt.alloc(), table)?;
        assert!(rt; wrong.is_none(), "{wrong:?}");
    }
    Ok(())
}

#[test]
fn bad_lines(rt: HostRuntime) -> Result<(), Fail> {
    let mut to = Scratch::new(rt.alloc())?;
    for table in [BAD_SHAPES, BAD_IRIS, BAD_LITERALS] {
        let read = first_read(&mut to, table);
        assert!(rt; read.is_none(), "{read:?}");
    }
    Ok(())
}

/// Characters that no text of this file could show.
#[test]
fn lines_with_controls(rt: HostRuntime) -> Result<(), Memory> {
    let mut to = Scratch::new(rt.alloc())?;
    let string = KindRef::Typed(XSD_STRING);
    let good: [(&[u8], TermRef<'static>); 6] = [
        (b"\t <x:a>\t\t<x:p> \t<x:b> \t . \t", TermRef::Iri("x:b")),
        (b"<x:a> <x:p> <x:\x7f> .", TermRef::Iri("x:\u{7f}")),
        (
            b"<x:a> <x:p> \"\\t\\b\\f\" .",
            TermRef::Literal("\t\u{8}\u{c}", string),
        ),
        (b"<x:a> <x:p> \"a\tb\" .", TermRef::Literal("a\tb", string)),
        (
            b"<x:a> <x:p> \"\\u0000\" .",
            TermRef::Literal("\u{0}", string),
        ),
        (
            b"<x:a> <x:p> \"\\uD7FF\\uE000\\U0010FFFF\" .",
            TermRef::Literal("\u{d7ff}\u{e000}\u{10ffff}", string),
        ),
    ];
    for (line, want) in good {
        assert!(rt; line.len() < 1000);
        assert_eq!(rt;
            object(line, &mut to),
            Some(want),
            "{}",
            line.escape_ascii()
        );
    }
    let bad: [&[u8]; 7] = [
        b"<x:a> <x:p> <x:\x1f> .",
        b"<x:a> <x:p> <x:\t> .",
        b"<x:a> <x:p> \"a\nb\" .",
        b"<x:a> <x:p> \"a\rb\" .",
        b"\xef\xbb\xbf<x:a> <x:p> <x:b> .",
        b"<x:a> <x:p> <x:b>\xc2\xa0.",
        b"<x:a> <x:p> <x:b> .\r",
    ];
    for line in bad {
        assert!(rt; line.len() < 1000);
        let refused = matches!(read_line(line, "", &mut to), Err(LineFault::Shape));
        assert!(rt; refused, "{}", line.escape_ascii());
    }
    Ok(())
}

#[test]
fn lines_that_are_not_utf8(rt: HostRuntime) -> Result<(), Memory> {
    let mut to = Scratch::new(rt.alloc())?;
    let lines: [&[u8]; 8] = [
        b"<x:a> <x:p> \"\xff\" .",
        b"#\xff",
        b"<x:a> <x:p> \"\xc3\" .",
        b"<x:a> <x:p> \"\xc0\x80\" .",
        b"<x:a> <x:p> \"\xed\xa0\x80\" .",
        b"<x:a> <x:p> \"\xf4\x90\x80\x80\" .",
        b"<x:a> <x:p> <x:b> . #\x80",
        b"x\xff",
    ];
    for line in lines {
        assert!(rt; line.len() < 1000);
        let refused = matches!(read_line(line, "", &mut to), Err(LineFault::Utf8));
        assert!(rt; refused, "{}", line.escape_ascii());
    }
    Ok(())
}

#[test]
fn lines_that_say_nothing(rt: HostRuntime) -> Result<(), Memory> {
    let mut to = Scratch::new(rt.alloc())?;
    let lines: [&[u8]; 8] = [
        b"",
        b" ",
        b"\t",
        b" \t ",
        b"#",
        b"# comment",
        b"\t # <x:a> <x:p>",
        b"#\xc3\xa9",
    ];
    for line in lines {
        assert!(rt; line.len() < 1000);
        let nothing = matches!(read_line(line, "", &mut to), Ok(None));
        assert!(rt; nothing, "{}", line.escape_ascii());
    }
    Ok(())
}

#[test]
fn labels_under_a_scope(rt: HostRuntime) -> Result<(), Memory> {
    let mut to = Scratch::new(rt.alloc())?;
    for (scope, s, o) in [("", "me", "you.1"), ("s1", "s1..me", "s1..you.1")] {
        let Ok(Some(triple)) = read_line(b"_:me <x:p> _:you.1.", scope, &mut to) else {
            assert!(rt; false);
            return Ok(());
        };
        assert_eq!(rt; triple.s, TermRef::Blank(s));
        assert_eq!(rt; triple.o, TermRef::Blank(o));
    }
    Ok(())
}
