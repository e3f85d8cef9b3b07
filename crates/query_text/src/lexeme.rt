//! A token with its text.
ghost use Rattle.std.specs.Prelude.{◌≡◌};
ghost use Rattle.query_grammar.specs.Signs.{sign_of};
ghost use Rattle.query_lex.specs.Kinds.{kind_of};
ghost use Rattle.query_text.specs.Seen.{sign_seen};

use crate::sign::Sign;
use query_lex::TokenKind;
use std::marker::Model;

/// A token of a query, with its sign.
#[derive(Drop)]
pub struct Lexeme<'a> {
    kind: TokenKind,
    sign: Sign,
    text: &'a str,
}

impl<'a> Model for Lexeme<'a> {
    ghost use Rattle.std.specs.Prelude.{◌≡◌};
    ghost use Rattle.query_grammar.specs.Lexemes as model;
    ghost use Rattle.query_grammar.specs.Signs.{sign_by};
    ghost use Rattle.query_lex.specs.Kinds.{kind_of};

    ghost Value = { model.Lexeme };

    ghost use Rattle.query_text.specs.Seen.{sign_seen};

    ghost view = { λ l. record { kind = kind_of l.kind; text = l.text.now } };

    ghost invariant = { λ l. sign_seen l.sign ≡ sign_by (kind_of l.kind) l.text.now };
}

impl<'a> Lexeme<'a> {
    pub fn new(kind: TokenKind, text: &'a str) -> Lexeme<'a>
        ensures { result ≡ record { kind = kind_of kind; text = text.now } }
    {
        Lexeme {
            kind,
            sign: Sign::of(kind, text),
            text,
        }
    }

    #[tactic(auto, unfolding(query_grammar::specs::Signs::sign_of))]
    pub fn sign(&self) -> Sign
        ensures { sign_seen result ≡ sign_of self.now }
    {
        self.sign
    }

    pub fn kind(&self) -> TokenKind
        ensures { kind_of result ≡ self.now.kind }
    {
        self.kind
    }

    pub fn text(&self) -> &'a str
        ensures { result.now ≡ self.now.text }
    {
        self.text
    }
}
