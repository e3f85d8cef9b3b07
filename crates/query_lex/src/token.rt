//! Tokens and their kinds. Their forms are defined in `query_tokens`.

/// The kind of a token, by the grammar of SPARQL 1.1 (section 19.8).
#[derive(Clone, Copy, Debug, PartialEq, Eq)]
pub enum TokenKind {
    /// `<http://a.example/>`, with its escapes as they are written.
    Iri,
    /// `ex:`, or `:`.
    PnameNs,
    /// `ex:name`.
    PnameLn,
    /// `_:name`.
    Label,
    /// `?name` or `$name`.
    Var,
    /// `@en-GB`.
    LangTag,
    /// `12`.
    Integer,
    /// `1.2` or `.2`.
    Decimal,
    /// `1e2`, `1.2e3` or the like.
    Double,
    /// An integer with its sign.
    SignedInteger,
    /// A decimal with its sign.
    SignedDecimal,
    /// A double with its sign.
    SignedDouble,
    /// A string in any of the four forms of quotes, with its escapes as they are written.
    Str,
    /// Letters of ASCII.
    Word,
    /// One of `{ } [ ] . ; , *`, or `^^`.
    Mark,
}

/// A token of a text, from the byte `from` up to the byte `to`.
#[derive(Clone, Copy, Debug, PartialEq, Eq)]
pub struct Token {
    pub kind: TokenKind,
    pub from: usize,
    /// The first byte behind the token.
    pub to: usize,
}

/// What follows is neither a blank nor a comment, and no token begins it.
#[derive(Clone, Copy, Debug, PartialEq, Eq)]
pub struct LexFault;
