//! Texts with the kinds and places of their tokens, taken from the grammar by hand.
use TokenKind::{
    Decimal, Double, Integer, Iri, Label, LangTag, Mark, PnameLn, PnameNs, SignedDecimal,
    SignedDouble, SignedInteger, Str, Var, Word,
};
use query_lex::{LexFault, Lexer, Token, TokenKind};
use std::process::Abort;

/// The tokens have these kinds and places, and then the text ends; or, where it isn't whole, no token follows.
fn reads(rt: &impl Abort, text: &str, tokens: &[(TokenKind, usize, usize)], is_whole: bool) {
    let mut lexer = Lexer::new(text);
    for (kind, from, to) in tokens {
        let token = Token {
            kind: *kind,
            from: *from,
            to: *to,
        };
        assert!(rt; lexer.next() == Ok(Some(token)), "{text}");
    }
    let end = if is_whole { Ok(None) } else { Err(LexFault) };
    assert!(rt; lexer.next() == end, "{text}");
    assert!(rt; lexer.next() == end, "{text}");
}

#[test]
fn names(rt: HostRuntime) {
    reads(
        &rt,
        "?s?p$o",
        &[(Var, 0, 2), (Var, 2, 4), (Var, 4, 6)],
        true,
    );
    reads(&rt, "?\u{E9}\u{B7}1-", &[(Var, 0, 6)], false);
    reads(
        &rt,
        "ex:p ex: : :a",
        &[
            (PnameLn, 0, 4),
            (PnameNs, 5, 8),
            (PnameNs, 9, 10),
            (PnameLn, 11, 13),
        ],
        true,
    );
    reads(&rt, "ex:p.", &[(PnameLn, 0, 4), (Mark, 4, 5)], true);
    reads(
        &rt,
        "e.x-1:a%4F\\~b..c.",
        &[(PnameLn, 0, 16), (Mark, 16, 17)],
        true,
    );
    reads(&rt, "ex::", &[(PnameLn, 0, 4)], true);
    reads(&rt, "ex:%4", &[(PnameNs, 0, 3)], false);
    reads(&rt, "_:o.", &[(Label, 0, 3), (Mark, 3, 4)], true);
    reads(&rt, "_:1.a_:b:c", &[(Label, 0, 6), (PnameLn, 6, 10)], true);
    reads(&rt, "_:a:b", &[(Label, 0, 3), (PnameLn, 3, 5)], true);
    reads(
        &rt,
        "a LIMIT5OFFSET1",
        &[
            (Word, 0, 1),
            (Word, 2, 7),
            (Integer, 7, 8),
            (Word, 8, 14),
            (Integer, 14, 15),
        ],
        true,
    );
    reads(
        &rt,
        "a.b.c:d a.b.c d",
        &[
            (PnameLn, 0, 7),
            (Word, 8, 9),
            (Mark, 9, 10),
            (Word, 10, 11),
            (Mark, 11, 12),
            (Word, 12, 13),
            (Word, 14, 15),
        ],
        true,
    );
    reads(
        &rt,
        "a.b.:c",
        &[
            (Word, 0, 1),
            (Mark, 1, 2),
            (Word, 2, 3),
            (Mark, 3, 4),
            (PnameLn, 4, 6),
        ],
        true,
    );
    reads(&rt, "\u{E9}a:b \u{E9}a", &[(PnameLn, 0, 5)], false);
}

#[test]
fn numbers(rt: HostRuntime) {
    reads(
        &rt,
        "1 1.2 .3 1e4",
        &[
            (Integer, 0, 1),
            (Decimal, 2, 5),
            (Decimal, 6, 8),
            (Double, 9, 12),
        ],
        true,
    );
    reads(
        &rt,
        "1. .",
        &[(Integer, 0, 1), (Mark, 1, 2), (Mark, 3, 4)],
        true,
    );
    reads(
        &rt,
        "1.e5 .5E-6 1.5e+",
        &[
            (Double, 0, 4),
            (Double, 5, 10),
            (Decimal, 11, 14),
            (Word, 14, 15),
        ],
        false,
    );
    reads(
        &rt,
        "-1 +1.5 -1.5e3 -.5",
        &[
            (SignedInteger, 0, 2),
            (SignedDecimal, 3, 7),
            (SignedDouble, 8, 14),
            (SignedDecimal, 15, 18),
        ],
        true,
    );
    reads(&rt, "1.2.3", &[(Decimal, 0, 3), (Decimal, 3, 5)], true);
    reads(&rt, "- 1", &[], false);
}

#[test]
fn texts(rt: HostRuntime) {
    reads(&rt, "\"a\"@en-GB", &[(Str, 0, 3), (LangTag, 3, 9)], true);
    reads(
        &rt,
        "'a'^^<x:a>",
        &[(Str, 0, 3), (Mark, 3, 5), (Iri, 5, 10)],
        true,
    );
    reads(&rt, "'''a'b'''", &[(Str, 0, 9)], true);
    reads(&rt, "'''a\n''b'''''", &[(Str, 0, 11), (Str, 11, 13)], true);
    reads(&rt, "\"\"\"\"\"\"\"\"", &[(Str, 0, 6), (Str, 6, 8)], true);
    reads(&rt, "'\\'\\u00e9\\U0001F600\\t'", &[(Str, 0, 22)], true);
    reads(&rt, "'\u{1F600}'", &[(Str, 0, 6)], true);
    reads(&rt, "'\\x'", &[], false);
    reads(&rt, "'a\n'", &[], false);
    reads(&rt, "'''a'", &[(Str, 0, 2), (Str, 2, 5)], true);
    reads(&rt, "<http://a/\\u00e9>", &[(Iri, 0, 17)], true);
    reads(&rt, "<>", &[(Iri, 0, 2)], true);
    reads(&rt, "<a b>", &[], false);
    reads(&rt, "@1", &[], false);
    reads(&rt, "@en-", &[(LangTag, 0, 3)], false);
}

#[test]
fn between(rt: HostRuntime) {
    reads(&rt, "", &[], true);
    reads(
        &rt,
        " # ?a\r\t{#b\n}#c",
        &[(Mark, 7, 8), (Mark, 11, 12)],
        true,
    );
    reads(
        &rt,
        "[];,*",
        &[
            (Mark, 0, 1),
            (Mark, 1, 2),
            (Mark, 2, 3),
            (Mark, 3, 4),
            (Mark, 4, 5),
        ],
        true,
    );
    reads(&rt, "^", &[], false);
    reads(&rt, "?a\u{A0}", &[(Var, 0, 2)], false);
    reads(&rt, "(", &[], false);
}
