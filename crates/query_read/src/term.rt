//! The terms of tokens.
ghost use Rattle.std.specs.Prelude.{◌≡◌, ◌+◌, ◌<◌, true, IfOk, map, length, is_some};
ghost use Rattle.std.specs.Char.{to_ascii_lowercase};
ghost use Rattle.std.specs.List.{list_all};
ghost use Rattle.std.specs.Option.{option_map};
ghost use Rattle.query_grammar.specs.Meaning as spec;
ghost use Rattle.query_grammar.specs.Texts.{is_sound, name_iri, string_text};
ghost use Rattle.query_lex.specs.Kinds.{kind_of};
ghost use Rattle.query_read.specs.Reads.{Declares, Knows, prefixed_by, literal_at};
ghost use Rattle.query_grammar.specs.Signs.{sign_of};
ghost use Rattle.rdf_model.specs.Terms as rdf;
ghost use Rattle.rdf_term.specs.Seen as seen;
ghost use Rattle.std.specs.BTreeMap.{get_by_text};
ghost use Rattle.rdf_term.specs.Seen.{term_of};

use crate::place::{kind_at, sign_at, text_at};
use crate::prefixes::Prefixes;
use query_lex::TokenKind;
use query_text::{
    Lexeme, Sign, behind_one, iri_text, local_text, lowered, prefix_and_local, string_text,
};
use rdf_term::{Kind, Term};
use std::alloc::Global;
use tn_io::Text;
use trie_depth::Memory;

/// The datatype of a number.
fn number_type(kind: TokenKind) -> &'static str
    ensures { result.now ≡ spec.number_type (kind_of kind) }
{
    match kind {
        TokenKind::Integer | TokenKind::SignedInteger => "http://www.w3.org/2001/XMLSchema#integer",
        TokenKind::Decimal | TokenKind::SignedDecimal => "http://www.w3.org/2001/XMLSchema#decimal",
        _ => "http://www.w3.org/2001/XMLSchema#double",
    }
}

/// A literal with a datatype.
fn typed(alloc: Global, form: &str, datatype: &str) -> Result<Term, Memory>
    ensures { IfOk result (λ t. term_of t ≡ rdf.Literal form.now (rdf.Typed datatype.now)) }
{
    let form = Text::of(alloc, form)?;
    Ok(Term::Literal(form, Kind::Typed(Text::of(alloc, datatype)?)))
}

/// The IRI of a prefixed name; none where its prefix isn't declared.
fn prefixed_iri(alloc: Global, prefixes: &Prefixes, name: &str) -> Result<Option<Text>, Memory>
    ensures { IfOk result (λ r. r ≡ prefixed_by (get_by_text prefixes.now.iris) name.now) }
{
    let Some(iri) = prefixes.get(prefix_and_local(name).0) else {
        return Ok(None);
    };
    let mut whole = Text::of(alloc, iri.as_str())?;
    whole.push(local_text(alloc, name)?.as_str())?;
    Ok(Some(whole))
}

/// The IRI of the prefix alone.
fn prefix_iri(alloc: Global, prefixes: &Prefixes, name: &str) -> Result<Option<Text>, Memory>
    ensures { IfOk result (λ r. r ≡ get_by_text prefixes.now.iris name.now) }
{
    match prefixes.get(name) {
        Some(iri) => Ok(Some(Text::of(alloc, iri.as_str())?)),
        None => Ok(None),
    }
}

/// The IRI of the name at a place; none where there is no name, or its prefix isn't declared.
fn iri_at(
    alloc: Global,
    all: &[Lexeme<'_>],
    prefixes: &Prefixes,
    i: usize,
) -> Result<Option<Text>, Memory>
    requires { Declares prefixes.now all.now }
    ensures { IfOk result (λ r. r ≡ name_iri all.now (spec.at all.now i)) }
{
    let text = text_at(all, i);
    match sign_at(all, i) {
        Sign::Iri => iri_text(alloc, text),
        Sign::PnameNs => prefix_iri(alloc, prefixes, text),
        Sign::PnameLn => prefixed_iri(alloc, prefixes, text),
        _ => Ok(None),
    }
}

/// What the token behind a string says of it.
fn kind_behind(
    alloc: Global,
    all: &[Lexeme<'_>],
    prefixes: &Prefixes,
    i: usize,
) -> Result<Option<Kind>, Memory>
    requires declared { Declares prefixes.now all.now }
    requires small { i < length all.now }
    ensures { IfOk result (λ r. option_map seen.kind_of r ≡ spec.kind_by (sign_of (spec.at all.now (i + 1))) all.now i) }
{
    match sign_at(all, i + 1) {
        Sign::LangTag => Ok(Some(Kind::Tagged(lowered(alloc, behind_one(text_at(all, i + 1)))?))),
        Sign::Carets => match iri_at(alloc, all, prefixes, i + 2)? {
            Some(datatype) => Ok(Some(Kind::Typed(datatype))),
            None => Ok(None),
        },
        _ => Ok(Some(Kind::Typed(Text::of(alloc, STRING)?))),
    }
}

const STRING: &str = "http://www.w3.org/2001/XMLSchema#string";

const BOOLEAN: &str = "http://www.w3.org/2001/XMLSchema#boolean";

const TYPE: &str = "http://www.w3.org/1999/02/22-rdf-syntax-ns#type";

/// The literal that begins at a place with its string.
fn literal(
    alloc: Global,
    all: &[Lexeme<'_>],
    prefixes: &Prefixes,
    i: usize,
) -> Result<Option<Term>, Memory>
    requires declared { Declares prefixes.now all.now }
    requires small { i < length all.now }
    ensures { IfOk result (λ r. option_map term_of r ≡ literal_at all.now i) }
{
    let Some(form) = string_text(alloc, text_at(all, i))? else {
        return Ok(None);
    };
    let Some(kind) = kind_behind(alloc, all, prefixes, i)? else {
        return Ok(None);
    };
    Ok(Some(Term::Literal(form, kind)))
}

/// The term at a place; none where there is none, or a prefix isn't declared.
pub(crate) fn term_at(
    alloc: Global,
    all: &[Lexeme<'_>],
    prefixes: &Prefixes,
    i: usize,
) -> Result<Option<Term>, Memory>
    requires { Declares prefixes.now all.now }
    ensures { IfOk result (λ r. option_map term_of r ≡ spec.term_at all.now i) }
{
    if i >= all.len() {
        return Ok(None);
    }
    match sign_at(all, i) {
        Sign::Iri | Sign::PnameNs | Sign::PnameLn => match iri_at(alloc, all, prefixes, i)? {
            Some(iri) => Ok(Some(Term::Iri(iri))),
            None => Ok(None),
        },
        Sign::TypeOf => Ok(Some(Term::Iri(Text::of(alloc, TYPE)?))),
        Sign::Text => literal(alloc, all, prefixes, i),
        Sign::True => Ok(Some(typed(alloc, "true", BOOLEAN)?)),
        Sign::False => Ok(Some(typed(alloc, "false", BOOLEAN)?)),
        Sign::Integer | Sign::Number => Ok(Some(typed(
            alloc,
            text_at(all, i),
            number_type(kind_at(all, i)),
        )?)),
        _ => Ok(None),
    }
}

/// Whether the IRI of the name at a place is known, where each IRI token is sound.
fn has_iri(all: &[Lexeme<'_>], prefixes: &Prefixes, i: usize) -> bool
    requires declared { Declares prefixes.now all.now }
    requires sound { list_all is_sound all.now ≡ true }
    ensures { result ≡ is_some (name_iri all.now (spec.at all.now i)) }
{
    let text = text_at(all, i);
    match sign_at(all, i) {
        Sign::Iri => true,
        Sign::PnameNs => prefixes.get(text).is_some(),
        Sign::PnameLn => prefixes.get(prefix_and_local(text).0).is_some(),
        _ => false,
    }
}

/// Whether a term stands at a place.
fn has_term(all: &[Lexeme<'_>], prefixes: &Prefixes, i: usize) -> bool
    requires declared { Declares prefixes.now all.now }
    requires sound { list_all is_sound all.now ≡ true }
    requires small { i < length all.now }
    ensures { result ≡ is_some (spec.term_at all.now i) }
{
    match sign_at(all, i) {
        Sign::Iri | Sign::PnameNs | Sign::PnameLn => has_iri(all, prefixes, i),
        Sign::Text => !sign_at(all, i + 1).is(Sign::Carets) || has_iri(all, prefixes, i + 2),
        Sign::TypeOf | Sign::True | Sign::False | Sign::Integer | Sign::Number => true,
        _ => false,
    }
}

/// For each token, whether a term stands there.
pub(crate) fn known_terms(
    alloc: Global,
    all: &[Lexeme<'_>],
    prefixes: &Prefixes,
) -> Result<Vec<bool>, Memory>
    requires declared { Declares prefixes.now all.now }
    requires sound { list_all is_sound all.now ≡ true }
    ensures { IfOk result (λ v. Knows v.items all.now) }
{
    let mut known = Vec::new(alloc);
    for i in 0..all.len() {
        known.push(has_term(all, prefixes, i))?;
    }
    Ok(known)
}
