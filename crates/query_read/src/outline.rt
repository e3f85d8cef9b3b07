//! A query but for its triples: prefixes, head, braces and what follows them (SPARQL 1.1, section 19.8, rules 2 and 4 to 10,
//! and 18 to 27 with 53), token by token. The braces are found here, and all that stands between them is left to the
//! reader of triples.
ghost use Rattle.std.specs.Prelude.{◌≡◌, map};
ghost use Rattle.query_grammar.specs.Outline.{has_outline};
ghost use Rattle.query_grammar.specs.Signs.{sign_of};
ghost use Rattle.query_read.specs.Outlines as spec;
ghost use Rattle.query_text.specs.Seen.{sign_seen};

use query_text::{Lexeme, Sign};

/// Where the tokens have led to.
#[derive(Clone, Copy)]
enum Outline {
    /// Before SELECT.
    Prologue,
    PrefixWord,
    PrefixName,
    /// Behind SELECT.
    Select,
    /// Behind DISTINCT or REDUCED.
    Modified,
    /// Behind one variable at least.
    Variables,
    /// Behind the star.
    Star,
    Where,
    Within,
    /// Behind the braces.
    Behind,
    LimitWord,
    /// Behind a LIMIT with its number.
    Limited,
    OffsetWord,
    /// Behind an OFFSET with its number.
    Shifted,
    /// At the number that nothing may follow.
    LastLimit,
    LastOffset,
    Ended,
    /// No query begins so.
    Failed,
}

impl Outline {
    /// What a further token leads to.
    fn step(self, sign: Sign) -> Outline
        ensures { result ≡ spec.moves self (sign_seen sign) }
    {
        match (self, sign) {
            (Outline::Prologue, Sign::Prefix) => Outline::PrefixWord,
            (Outline::PrefixWord, Sign::PnameNs) => Outline::PrefixName,
            (Outline::PrefixName, Sign::Iri) => Outline::Prologue,
            (Outline::Prologue, Sign::Select) => Outline::Select,
            (Outline::Select, Sign::Distinct | Sign::Reduced) => Outline::Modified,
            (Outline::Select | Outline::Modified | Outline::Variables, Sign::Variable) =>
                Outline::Variables,
            (Outline::Select | Outline::Modified, Sign::Star) => Outline::Star,
            (Outline::Variables | Outline::Star, Sign::Where) => Outline::Where,
            (Outline::Variables | Outline::Star | Outline::Where, Sign::OpenBrace) =>
                Outline::Within,
            (Outline::Within, _) => within(sign),
            (Outline::Behind, Sign::Limit) => Outline::LimitWord,
            (Outline::Behind, Sign::Offset) => Outline::OffsetWord,
            (Outline::LimitWord, Sign::Integer) => Outline::Limited,
            (Outline::OffsetWord, Sign::Integer) => Outline::Shifted,
            (Outline::Limited, Sign::Offset) => Outline::LastOffset,
            (Outline::Shifted, Sign::Limit) => Outline::LastLimit,
            (Outline::LastOffset | Outline::LastLimit, Sign::Integer) => Outline::Ended,
            _ => Outline::Failed,
        }
    }

    /// Whether a query may end there.
    fn may_end(self) -> bool
        ensures { result ≡ spec.may_end self }
    {
        matches!(
            self,
            Outline::Behind | Outline::Limited | Outline::Shifted | Outline::Ended
        )
    }
}

/// Between the braces, of which there is one pair.
fn within(sign: Sign) -> Outline
    ensures { result ≡ spec.moves_within (sign_seen sign) }
{
    match sign {
        Sign::CloseBrace => Outline::Behind,
        Sign::OpenBrace => Outline::Failed,
        _ => Outline::Within,
    }
}

/// Whether the tokens are a query but for its triples.
pub(crate) fn has_outline(all: &[Lexeme<'_>]) -> bool
    ensures { result ≡ has_outline (map sign_of all.now) }
{
    let mut outline = Outline::Prologue;
    for lexeme in all {
        outline = outline.step(lexeme.sign());
    }
    outline.may_end()
}
