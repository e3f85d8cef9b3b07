//! A Lexer reads a text token by token. What it gives is said by `Gives` of `specs/Reading.antt`, in the words of
//! `query_tokens`.
ghost use Rattle.std.specs.Prelude.{◌≡◌, length, if◌then◌else◌};
ghost use Rattle.std.specs.Str.{chars};
ghost use Rattle.query_tokens.specs.Front.{token_at, gap_at};
ghost use Rattle.query_lex.specs.Meaning.{kind_read};
ghost use Rattle.query_lex.specs.Reading.{Gives, IsBehind};
ghost use Rattle.query_lex.specs.Runs as spec;
ghost use Rattle.query_lex.specs.Runs.{IsBarren};
ghost use Rattle.query_lex.specs.Scan.{IsFound, IsBetter};

use crate::gap::Gap;
use crate::state::{Prefixed, State};
use crate::token::{LexFault, Token, TokenKind};
use std::marker::Model;

/// Reads the tokens of a text in their order.
#[derive(Drop)]
pub struct Lexer<'a> {
    text: &'a str,
    rest: &'a str,
    /// Where more bytes than these are to come, none of them ends a prefix.
    barren: usize,
}

impl<'a> Model for Lexer<'a> {
    ghost use Rattle.std.specs.Prelude.{◌-◌, length};
    ghost use Rattle.query_lex.specs.Reading.{Reading, IsRest};
    ghost use Rattle.query_lex.specs.Runs.{IsBarren};

    ghost Value = { Reading };

    ghost view = { λ l. record { text = l.text.now; place = length l.text.now - length l.rest.now } };

    ghost invariant = { λ l. IsRest l.text.now l.rest.now × IsBarren l.rest.now l.barren };
}

/// What stands behind the blanks and comments that begin the text.
fn behind_gap(text: &str) -> &str
    ensures { IsBehind text.now (gap_at (chars text.now)) result.now }
{
    let mut gap = Gap::Blanks;
    let mut rest = text;
    let mut ahead = text.chars();
    while let Some(c) = ahead.next() {
        let Some(next) = gap.step(c) else {
            return rest;
        };
        gap = next;
        rest = ahead.as_str();
    }
    rest
}

/// The longest token that begins the text: its kind, and what stands behind it. Where more than `barren` bytes are to come
/// no prefix ends, and that is known for more of the text afterwards.
fn longest_token<'a>(text: &'a str, barren: &mut usize) -> Option<(TokenKind, &'a str)>
    requires { IsBarren text.now barren.old }
    ensures found { IsFound text.now result (token_at (chars text.now)) }
    ensures barren { IsBarren text.now barren.new }
{
    let mut state = State::Start;
    let mut found = None;
    let mut rest = text;
    let mut ahead = text.chars();
    while let Some(c) = ahead.next() {
        let Some(next) = state.step(c) else {
            end_run(state, rest, barren);
            return found;
        };
        state = next;
        rest = ahead.as_str();
        found = or_here(state, rest, found);
        if is_in_prefix(state) && rest.len() > *barren {
            return found;
        }
    }
    end_run(state, rest, barren);
    found
}

/// Whether a prefix was read, or the beginning of one, and no word.
fn is_in_prefix(state: State) -> bool
    ensures { result ≡ spec.is_in_prefix state }
{
    matches!(
        state,
        State::Prefixed(Prefixed::Prefix | Prefixed::PrefixStop)
    )
}

/// Notes that no colon ends the prefix that was read.
fn end_run(state: State, rest: &str, barren: &mut usize)
    ensures { barren.new ≡ (if spec.is_in_prefix state then length rest.now else barren.old) }
{
    if is_in_prefix(state) {
        *barren = rest.len();
    }
}

/// What was read, where it is a token, or else what was found before.
fn or_here<'a>(
    state: State,
    rest: &'a str,
    found: Option<(TokenKind, &'a str)>,
) -> Option<(TokenKind, &'a str)>
    ensures { IsBetter (kind_read state) rest.now found.entry result }
{
    match state.kind() {
        Some(kind) => Some((kind, rest)),
        None => found,
    }
}

impl<'a> Lexer<'a> {
    /// A Lexer of the text, of which nothing was read.
    pub fn new(text: &'a str) -> Self
        ensures { result ≡ record { text = text.now; place = 0 } }
    {
        Lexer {
            text,
            rest: text,
            barren: text.len(),
        }
    }

    /// The next token, or none where only blanks and comments are left.
    pub fn next(&mut self) -> Result<Option<Token>, LexFault>
        ensures { Gives self.old result self.new }
    {
        let rest = behind_gap(self.rest);
        if rest.is_empty() {
            return Ok(None);
        }
        let mut barren = self.barren;
        let Some((kind, behind)) = longest_token(rest, &mut barren) else {
            return Err(LexFault);
        };
        let token = Token {
            kind,
            from: self.text.len() - rest.len(),
            to: self.text.len() - behind.len(),
        };
        self.rest = behind;
        self.barren = barren;
        Ok(Some(token))
    }
}
