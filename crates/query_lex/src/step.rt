//! How a further character changes what was read of a token. The steps are those of `specs/Steps.antt`, and
//! `proofs/Moving.antt` has that they are what the forms of tokens ask for.
#![tactic(auto, using(std::proofs::lemmas::Bool::Decides::nat_tests), unfolding(crate::specs::Steps::is_in))]

ghost use Rattle.std.specs.Prelude.{◌≡◌, [], ◌∷◌, codes, None};
ghost use Rattle.std.specs.Option.{option_map};
ghost use Rattle.query_lex.specs.Kinds.{kind_of};
ghost use Rattle.query_lex.specs.Meaning.{kind_read};
ghost use Rattle.query_lex.specs.Meaning as spec_kind;
ghost use Rattle.query_lex.specs.declared.state.Named.TheVariants as named;
ghost use Rattle.query_lex.specs.declared.state.State.TheVariants as state;
ghost use Rattle.query_lex.specs.declared.state.Prefixed.TheVariants as prefixed;
ghost use Rattle.query_lex.specs.Steps.{PrefixStart, Digit, run, to, stop, moves, start_moves, within_moves, number_moves, backslash_moves, quoted_moves, named_moves, tagged_moves, signed_moves, prefixed_moves, escape_moves, code_of, One, is_in, step_of};
ghost use Rattle.query_lex.specs.Steps as spec;

use crate::classes::{
    begins_local, begins_name, begins_prefix, is_digit, is_hex, is_letter, is_letter_or_digit,
    is_local_char, is_outside_iri, is_prefix_char, is_var_char,
};
use crate::state::{Body, Digits, Named, Number, Prefixed, Quote, Quoted, Sign, State, Tagged};
use crate::token::TokenKind;

fn start(c: char) -> Option<State>
    ensures { result ≡ run start_moves c }
{
    match c {
        '<' => Some(State::Quoted(Quoted::Within(Body::Iri))),
        '\'' => Some(State::Quoted(Quoted::Opened(Quote::Single))),
        '"' => Some(State::Quoted(Quoted::Opened(Quote::Double))),
        '?' | '$' => Some(State::Named(Named::VarMark)),
        '_' => Some(State::Named(Named::Underscore)),
        '@' => Some(State::Tagged(Tagged::Mark)),
        '+' | '-' => Some(State::Sign),
        '.' => Some(State::Stop),
        '0'..='9' => Some(State::Number(Sign::Absent, Number::Integer)),
        ':' => Some(State::Prefixed(Prefixed::Colon)),
        '^' => Some(State::Caret),
        '{' | '}' | '[' | ']' | ';' | ',' | '*' => Some(State::MarkEnd),
        'A'..='Z' | 'a'..='z' => Some(State::Prefixed(Prefixed::Word)),
        _ => begin_prefix(c),
    }
}

fn begin_prefix(c: char) -> Option<State>
    ensures { result ≡ run (to PrefixStart (state.Prefixed prefixed.Prefix) stop) c }
{
    if begins_prefix(c) {
        Some(State::Prefixed(Prefixed::Prefix))
    } else {
        None
    }
}

fn within(body: Body, c: char) -> Option<State>
    ensures { result ≡ run (within_moves body) c }
{
    let within = Some(State::Quoted(Quoted::Within(body)));
    match (body, c) {
        (Body::Iri, '>') => Some(State::IriEnd),
        (Body::Short(Quote::Single), '\'') | (Body::Short(Quote::Double), '"') => Some(
            State::StringEnd,
        ),
        (Body::Long(q @ Quote::Single), '\'') | (Body::Long(q @ Quote::Double), '"') => Some(
            State::Quoted(Quoted::Closed(q)),
        ),
        (_, '\\') => Some(State::Quoted(Quoted::Backslash(body))),
        (Body::Iri, _) if is_outside_iri(c) => None,
        (Body::Short(_), '\n' | '\r') => None,
        _ => within,
    }
}

/// After a digit of an escape.
fn behind_digit(body: Body, left: Digits) -> State
    ensures { result ≡ spec.behind_digit body left }
{
    let left = match left {
        Digits::One => return State::Quoted(Quoted::Within(body)),
        Digits::Two => Digits::One,
        Digits::Three => Digits::Two,
        Digits::Four => Digits::Three,
        Digits::Five => Digits::Four,
        Digits::Six => Digits::Five,
        Digits::Seven => Digits::Six,
        Digits::Eight => Digits::Seven,
    };
    State::Quoted(Quoted::Escape(body, left))
}

fn backslash(body: Body, c: char) -> Option<State>
    ensures { result ≡ run (backslash_moves body) c }
{
    match (body, c) {
        (Body::Short(_) | Body::Long(_), 't' | 'b' | 'n' | 'r' | 'f' | '"' | '\'' | '\\') => Some(
            State::Quoted(Quoted::Within(body)),
        ),
        (_, 'u') => Some(State::Quoted(Quoted::Escape(body, Digits::Four))),
        (_, 'U') => Some(State::Quoted(Quoted::Escape(body, Digits::Eight))),
        _ => None,
    }
}

/// Whether the character is the quote.
fn is_quote(c: char, quote: Quote) -> bool
    ensures { result ≡ is_in (One (code_of quote ∷ [])) c }
{
    match quote {
        Quote::Single => c == '\'',
        Quote::Double => c == '"',
    }
}

fn quoted(part: Quoted, c: char) -> Option<State>
    ensures { result ≡ run (quoted_moves part) c }
{
    match part {
        Quoted::Within(body) => within(body, c),
        Quoted::Backslash(body) => backslash(body, c),
        Quoted::Escape(body, left) if is_hex(c) => Some(behind_digit(body, left)),
        Quoted::Escape(..) => None,
        Quoted::Opened(quote) if is_quote(c, quote) => Some(State::Quoted(Quoted::OpenedTwice(
            quote,
        ))),
        Quoted::Opened(quote) => within(Body::Short(quote), c),
        Quoted::OpenedTwice(quote) if is_quote(c, quote) => Some(State::Quoted(Quoted::Within(
            Body::Long(quote),
        ))),
        Quoted::OpenedTwice(_) => None,
        Quoted::Closed(quote) if is_quote(c, quote) => Some(State::Quoted(Quoted::ClosedTwice(
            quote,
        ))),
        Quoted::ClosedTwice(quote) if is_quote(c, quote) => Some(State::StringEnd),
        Quoted::Closed(quote) | Quoted::ClosedTwice(quote) => within(Body::Long(quote), c),
    }
}

fn label(c: char) -> Option<State>
    ensures { result ≡ run (named_moves named.Label) c }
{
    if is_prefix_char(c) {
        Some(State::Named(Named::Label))
    } else if c == '.' {
        Some(State::Named(Named::LabelStop))
    } else {
        None
    }
}

fn named(part: Named, c: char) -> Option<State>
    ensures { result ≡ run (named_moves part) c }
{
    match part {
        Named::VarMark if begins_name(c) => Some(State::Named(Named::Var)),
        Named::Var if is_var_char(c) => Some(State::Named(Named::Var)),
        Named::Underscore if c == ':' => Some(State::Named(Named::LabelMark)),
        Named::LabelMark if begins_name(c) => Some(State::Named(Named::Label)),
        Named::Label | Named::LabelStop => label(c),
        _ => None,
    }
}

fn tagged(part: Tagged, c: char) -> Option<State>
    ensures { result ≡ run (tagged_moves part) c }
{
    let next = match part {
        Tagged::Mark | Tagged::Letters if is_letter(c) => Tagged::Letters,
        Tagged::Dash | Tagged::Subtag if is_letter_or_digit(c) => Tagged::Subtag,
        Tagged::Letters | Tagged::Subtag if c == '-' => Tagged::Dash,
        _ => return None,
    };
    Some(State::Tagged(next))
}

fn number(sign: Sign, part: Number, c: char) -> Option<State>
    ensures { result ≡ run (signed_moves sign part) c }
{
    let next = match (part, c) {
        (Number::Integer, '0'..='9') => Number::Integer,
        (Number::IntegerStop | Number::Decimal, '0'..='9') => Number::Decimal,
        (_, '0'..='9') => Number::Double,
        (Number::Integer, '.') => Number::IntegerStop,
        (Number::Integer | Number::IntegerStop | Number::Decimal, 'e' | 'E') => Number::Exponent,
        (Number::Exponent, '+' | '-') => Number::ExponentSign,
        _ => return None,
    };
    Some(State::Number(sign, next))
}

fn prefix_stop(c: char) -> Option<State>
    ensures { result ≡ run (prefixed_moves prefixed.PrefixStop) c }
{
    if is_prefix_char(c) {
        Some(State::Prefixed(Prefixed::Prefix))
    } else if c == '.' {
        Some(State::Prefixed(Prefixed::PrefixStop))
    } else {
        None
    }
}

fn prefix(c: char) -> Option<State>
    ensures { result ≡ run (prefixed_moves prefixed.Prefix) c }
{
    if c == ':' {
        Some(State::Prefixed(Prefixed::Colon))
    } else {
        prefix_stop(c)
    }
}

fn local_escape(c: char) -> Option<State>
    ensures { result ≡ run escape_moves c }
{
    match c {
        '%' => Some(State::Prefixed(Prefixed::Percent)),
        '\\' => Some(State::Prefixed(Prefixed::Backslash)),
        _ => None,
    }
}

fn local(c: char) -> Option<State>
    ensures { result ≡ run (prefixed_moves prefixed.Local) c }
{
    if is_local_char(c) {
        Some(State::Prefixed(Prefixed::Local))
    } else if c == '.' {
        Some(State::Prefixed(Prefixed::LocalStop))
    } else {
        local_escape(c)
    }
}

#[tactic(auto)]
fn behind_backslash(c: char) -> Option<State>
    ensures { result ≡ run (prefixed_moves prefixed.Backslash) c }
{
    if escapes_local(c) {
        Some(State::Prefixed(Prefixed::Local))
    } else {
        None
    }
}

fn prefixed(part: Prefixed, c: char) -> Option<State>
    ensures { result ≡ run (prefixed_moves part) c }
{
    match part {
        Prefixed::Word if is_letter(c) => Some(State::Prefixed(Prefixed::Word)),
        Prefixed::Word | Prefixed::Prefix => prefix(c),
        Prefixed::PrefixStop => prefix_stop(c),
        Prefixed::Colon if begins_local(c) => Some(State::Prefixed(Prefixed::Local)),
        Prefixed::Colon => local_escape(c),
        Prefixed::Local | Prefixed::LocalStop => local(c),
        Prefixed::Percent if is_hex(c) => Some(State::Prefixed(Prefixed::PercentDigit)),
        Prefixed::PercentDigit if is_hex(c) => Some(State::Prefixed(Prefixed::Local)),
        Prefixed::Percent | Prefixed::PercentDigit => None,
        Prefixed::Backslash => behind_backslash(c),
    }
}

/// A character that a local name may have behind a backslash.
fn escapes_local(c: char) -> bool
    ensures { result ≡ is_in (One (codes "_~.!$&'()*+,;=/?#@%-")) c }
{
    matches!(
        c,
        '_' | '~'
            | '.'
            | '!'
            | '$'
            | '&'
            | '\''
            | '('
            | ')'
            | '*'
            | '+'
            | ','
            | ';'
            | '='
            | '/'
            | '?'
            | '#'
            | '@'
            | '%'
            | '-'
    )
}

impl State {
    /// What was read with a further character, or none where no token goes on like this.
    pub(crate) fn step(self, c: char) -> Option<State>
        ensures { result ≡ step_of self c }
    {
        match self {
            State::Start => start(c),
            State::Quoted(part) => quoted(part, c),
            State::Named(part) => named(part, c),
            State::Tagged(part) => tagged(part, c),
            State::Number(sign, part) => number(sign, part, c),
            State::Prefixed(part) => prefixed(part, c),
            State::Sign if c == '.' => Some(State::SignStop),
            State::Sign => number_behind(Sign::Present, Number::Integer, c),
            State::Stop => number_behind(Sign::Absent, Number::Decimal, c),
            State::SignStop => number_behind(Sign::Present, Number::Decimal, c),
            State::Caret if c == '^' => Some(State::MarkEnd),
            State::IriEnd | State::StringEnd | State::Caret | State::MarkEnd => None,
        }
    }

    /// The kind of what was read, where it is a token.
    #[tactic(auto)]
    pub(crate) fn kind(self) -> Option<TokenKind>
        ensures { option_map kind_of result ≡ kind_read self }
    {
        match self {
            State::IriEnd => Some(TokenKind::Iri),
            State::StringEnd | State::Quoted(Quoted::OpenedTwice(_)) => Some(TokenKind::Str),
            State::Named(Named::Var) => Some(TokenKind::Var),
            State::Named(Named::Label) => Some(TokenKind::Label),
            State::Tagged(Tagged::Letters | Tagged::Subtag) => Some(TokenKind::LangTag),
            State::Stop | State::MarkEnd => Some(TokenKind::Mark),
            State::Number(sign, part) => number_kind(sign, part),
            State::Prefixed(Prefixed::Word) => Some(TokenKind::Word),
            State::Prefixed(Prefixed::Colon) => Some(TokenKind::PnameNs),
            State::Prefixed(Prefixed::Local) => Some(TokenKind::PnameLn),
            _ => None,
        }
    }
}

/// A digit, and what was read with it.
fn number_behind(sign: Sign, part: Number, c: char) -> Option<State>
    ensures { result ≡ run (to Digit (state.Number sign part) stop) c }
{
    if is_digit(c) {
        Some(State::Number(sign, part))
    } else {
        None
    }
}

#[tactic(auto)]
fn number_kind(sign: Sign, part: Number) -> Option<TokenKind>
    ensures { option_map kind_of result ≡ spec_kind.number_kind sign part }
{
    match (sign, part) {
        (Sign::Absent, Number::Integer) => Some(TokenKind::Integer),
        (Sign::Absent, Number::Decimal) => Some(TokenKind::Decimal),
        (Sign::Absent, Number::Double) => Some(TokenKind::Double),
        (Sign::Present, Number::Integer) => Some(TokenKind::SignedInteger),
        (Sign::Present, Number::Decimal) => Some(TokenKind::SignedDecimal),
        (Sign::Present, Number::Double) => Some(TokenKind::SignedDouble),
        (_, Number::IntegerStop | Number::Exponent | Number::ExponentSign) => None,
    }
}
