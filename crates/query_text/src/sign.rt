//! The terminals of the grammar of queries (SPARQL 1.1, section 19.8).
ghost use Rattle.std.specs.Prelude.{◌≡◌, map, slice_index};
ghost use Rattle.std.specs.Char.{to_ascii_lowercase};
ghost use Rattle.std.specs.Str.{bytes_eq};
ghost use Rattle.query_grammar.specs.Meaning.{is_sign};
ghost use Rattle.query_grammar.specs.Signs as spec;
ghost use Rattle.query_lex.specs.Kinds.{kind_of};
ghost use Rattle.query_text.specs.Seen.{sign_seen};

use query_lex::TokenKind;

/// A terminal: a word, a mark, or the kind of a token that has a text of its own.
#[derive(Clone, Copy, Debug)]
pub enum Sign {
    Prefix,
    Select,
    Distinct,
    Reduced,
    Where,
    Limit,
    Offset,
    True,
    False,
    /// The word `a`.
    TypeOf,
    OtherWord,
    Iri,
    PnameNs,
    PnameLn,
    Label,
    Variable,
    LangTag,
    Integer,
    /// The other numbers.
    Number,
    Text,
    OpenBrace,
    CloseBrace,
    Open,
    Close,
    Stop,
    Comma,
    Semicolon,
    Star,
    Carets,
}

impl Sign {
    /// The sign of a token.
    pub(crate) fn of(kind: TokenKind, text: &str) -> Sign
        ensures { sign_seen result ≡ spec.sign_by (kind_of kind) text.now }
    {
        match kind {
            TokenKind::Iri => Sign::Iri,
            TokenKind::PnameNs => Sign::PnameNs,
            TokenKind::PnameLn => Sign::PnameLn,
            TokenKind::Label => Sign::Label,
            TokenKind::Var => Sign::Variable,
            TokenKind::LangTag => Sign::LangTag,
            TokenKind::Integer => Sign::Integer,
            TokenKind::Str => Sign::Text,
            TokenKind::Word => word_sign(text),
            TokenKind::Mark => mark_sign(text),
            _ => Sign::Number,
        }
    }

    /// Whether the two are the same.
    pub fn is(self, other: Sign) -> bool
        ensures { result ≡ is_sign (sign_seen self) (sign_seen other) }
    {
        self.number() == other.number()
    }

    fn number(self) -> u8
        ensures { result ≡ spec.number_of (sign_seen self) }
    {
        self as u8
    }
}

/// Whether the two texts are the same without regard to the case of letters of ASCII.
fn is_word(text: &str, word: &str) -> bool
    ensures { result ≡ bytes_eq (map to_ascii_lowercase text.now) (map to_ascii_lowercase word.now) }
{
    text.eq_ignore_ascii_case(word)
}

/// The sign of a word. The word `a` is the small letter alone.
fn word_sign(text: &str) -> Sign
    ensures { sign_seen result ≡ spec.word_sign text.now (map to_ascii_lowercase text.now) }
{
    if is_word(text, "prefix") {
        return Sign::Prefix;
    }
    if is_word(text, "select") {
        return Sign::Select;
    }
    if is_word(text, "distinct") {
        return Sign::Distinct;
    }
    if is_word(text, "reduced") {
        return Sign::Reduced;
    }
    if is_word(text, "where") {
        return Sign::Where;
    }
    if is_word(text, "limit") {
        return Sign::Limit;
    }
    if is_word(text, "offset") {
        return Sign::Offset;
    }
    if is_word(text, "true") {
        return Sign::True;
    }
    if is_word(text, "false") {
        return Sign::False;
    }
    if text == "a" {
        return Sign::TypeOf;
    }
    Sign::OtherWord
}

/// The byte at a place, or 0 where there is none.
pub(crate) fn byte_at(text: &str, i: usize) -> u8
    ensures { result ≡ slice_index text.now i }
{
    text.as_bytes().get(i).copied().unwrap_or(0)
}

/// The sign of a mark, by its first byte.
#[tactic(auto, using(std::proofs::lemmas::Bool::Decides::nat_tests))]
fn mark_sign(text: &str) -> Sign
    ensures { sign_seen result ≡ spec.mark_sign (slice_index text.now 0) }
{
    match byte_at(text, 0) {
        b'{' => Sign::OpenBrace,
        b'}' => Sign::CloseBrace,
        b'[' => Sign::Open,
        b']' => Sign::Close,
        b'.' => Sign::Stop,
        b',' => Sign::Comma,
        b';' => Sign::Semicolon,
        b'*' => Sign::Star,
        _ => Sign::Carets,
    }
}
