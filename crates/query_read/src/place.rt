//! Tokens by their places.
ghost use Rattle.std.specs.Prelude.{◌≡◌, ◌≤◌, length};
ghost use Rattle.query_grammar.specs.Meaning as spec;
ghost use Rattle.query_grammar.specs.Signs.{sign_of};
ghost use Rattle.query_lex.specs.Kinds.{kind_of};
ghost use Rattle.query_text.specs.Seen.{sign_seen};

use query_lex::TokenKind;
use query_text::{Lexeme, Sign};

/// The sign at a place, or that of a word with no meaning behind the end.
pub(crate) fn sign_at(all: &[Lexeme<'_>], i: usize) -> Sign
    ensures { sign_seen result ≡ sign_of (spec.at all.now i) }
{
    if i >= all.len() {
        return Sign::OtherWord;
    }
    all[i].sign()
}

/// The text at a place, with nothing in it behind the end.
pub(crate) fn text_at<'a>(all: &[Lexeme<'a>], i: usize) -> &'a str
    ensures { result.now ≡ (spec.at all.now i).text }
{
    if i >= all.len() {
        return "";
    }
    all[i].text()
}

/// The kind at a place, or that of a word behind the end.
pub(crate) fn kind_at(all: &[Lexeme<'_>], i: usize) -> TokenKind
    ensures { kind_of result ≡ (spec.at all.now i).kind }
{
    if i >= all.len() {
        return TokenKind::Word;
    }
    all[i].kind()
}

/// The first place of a sign, or the number of the tokens where there is none.
pub(crate) fn place_of(all: &[Lexeme<'_>], sign: Sign) -> usize
    ensures place { result ≡ spec.place_of (sign_seen sign) all.now }
    ensures within { result ≤ length all.now }
{
    for i in 0..all.len() {
        if sign.is(all[i].sign()) {
            return i;
        }
    }
    all.len()
}

/// Whether a sign is there.
pub(crate) fn has_sign(all: &[Lexeme<'_>], sign: Sign) -> bool
    ensures { result ≡ spec.has_sign (sign_seen sign) all.now }
{
    place_of(all, sign) < all.len()
}
