//! The patterns of triples.
ghost use Rattle.std.specs.Prelude.{◌≡◌, ◌≤◌, false, IfOk, length, slice_index_or};
ghost use Rattle.std.specs.List.{list_all};
ghost use Rattle.std.specs.Option.{option_map};
ghost use Rattle.query_grammar.specs.Meaning as spec;
ghost use Rattle.query_plan.specs.Seen.{place_seen};
ghost use Rattle.query_read.specs.Reads.{Declares, Knows, has_place, has_pattern, IsPattern, ListsPatterns};
ghost use Rattle.query_read.specs.Seen.{names_seen, triple_seen, triples_seen};

use crate::block::Triple;
use crate::name::{Name, number_among};
use crate::place::sign_at;
use crate::prefixes::Prefixes;
use crate::term::term_at;
use query_plan::{Pattern, Patterns, Place};
use query_text::{Lexeme, Sign};
use std::alloc::Global;
use trie_depth::Memory;

/// The flag at a place, false behind the end.
fn flag_at(flags: &[bool], i: usize) -> bool
    ensures { result ≡ slice_index_or flags.now i false }
{
    flags.get(i).copied().unwrap_or(false)
}

/// Whether a label or a term stands at a place.
fn is_known(all: &[Lexeme<'_>], known: &[bool], i: usize) -> bool
    requires { Knows known.now all.now }
    ensures { result ≡ has_place all.now i }
{
    match sign_at(all, i) {
        Sign::Variable | Sign::Label | Sign::Open => true,
        _ => flag_at(known, i),
    }
}

/// Whether a triple has a pattern: no prefix is missing.
fn has_pattern(all: &[Lexeme<'_>], known: &[bool], triple: Triple) -> bool
    requires { Knows known.now all.now }
    ensures { result ≡ has_pattern all.now (triple_seen triple) }
{
    is_known(all, known, triple.s)
        && is_known(all, known, triple.p)
        && is_known(all, known, triple.o)
}

/// Whether each triple has a pattern.
pub(crate) fn all_known(all: &[Lexeme<'_>], known: &[bool], triples: &[Triple]) -> bool
    requires { Knows known.now all.now }
    ensures { result ≡ list_all (has_pattern all.now) (triples_seen triples.now) }
{
    for i in 0..triples.len() {
        if !has_pattern(all, known, triples[i]) {
            return false;
        }
    }
    true
}

/// What stands at a place of a pattern: a label, or a term. None where a prefix isn't declared.
fn place_at(
    alloc: Global,
    all: &[Lexeme<'_>],
    prefixes: &Prefixes,
    names: &[Name<'_>],
    i: usize,
) -> Result<Option<Place>, Memory>
    requires declared { Declares prefixes.now all.now }
    requires few { length names.now ≤ 96 }
    ensures { IfOk result (λ r. option_map place_seen r ≡ spec.place_at all.now (names_seen names.now) i) }
{
    if i >= all.len() {
        return Ok(None);
    }
    if let Some(name) = Name::of(&all[i], i) {
        return Ok(Some(Place::Label(number_among(names, name) as u8)));
    }
    match term_at(alloc, all, prefixes, i)? {
        Some(term) => Ok(Some(Place::Const(term))),
        None => Ok(None),
    }
}

fn pattern_at(
    alloc: Global,
    all: &[Lexeme<'_>],
    prefixes: &Prefixes,
    names: &[Name<'_>],
    triple: Triple,
) -> Result<Option<Pattern>, Memory>
    requires declared { Declares prefixes.now all.now }
    requires few { length names.now ≤ 96 }
    ensures { IfOk result (λ r. IsPattern all.now (names_seen names.now) (triple_seen triple) r) }
{
    let Some(s) = place_at(alloc, all, prefixes, names, triple.s)? else {
        return Ok(None);
    };
    let Some(p) = place_at(alloc, all, prefixes, names, triple.p)? else {
        return Ok(None);
    };
    let Some(o) = place_at(alloc, all, prefixes, names, triple.o)? else {
        return Ok(None);
    };
    Ok(Some(Pattern { s, p, o }))
}

/// The patterns of the triples; none where a prefix isn't declared.
pub(crate) fn patterns_of(
    alloc: Global,
    all: &[Lexeme<'_>],
    prefixes: &Prefixes,
    names: &[Name<'_>],
    triples: &[Triple],
) -> Result<Option<Patterns>, Memory>
    requires declared { Declares prefixes.now all.now }
    requires few { length names.now ≤ 96 }
    ensures { IfOk result (λ r. ListsPatterns all.now (names_seen names.now) (triples_seen triples.now) r) }
{
    let mut patterns = Patterns::new(alloc);
    for i in 0..triples.len() {
        let Some(pattern) = pattern_at(alloc, all, prefixes, names, triples[i])? else {
            return Ok(None);
        };
        patterns.push(pattern)?;
    }
    Ok(Some(patterns))
}
