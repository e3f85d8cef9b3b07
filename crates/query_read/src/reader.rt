//! The query of a text.
ghost use Rattle.std.specs.Prelude.{◌≡◌, ◌+◌, ◌≤◌, true, Some, IfOk, map, length};
ghost use Rattle.std.specs.List.{list_all};
ghost use Rattle.std.specs.Str.{chars};
ghost use Rattle.query_grammar.specs.Lexemes.{lexed};
ghost use Rattle.query_grammar.specs.Meaning as spec;
ghost use Rattle.query_grammar.specs.Signs.{OpenBrace, CloseBrace};
ghost use Rattle.query_grammar.specs.Texts.{is_sound};
ghost use Rattle.query_plan.specs.Labels.{IsLabelled};
ghost use Rattle.query_plan.specs.Seen.{pattern_seen};
ghost use Rattle.query_read.specs.LabelledBlock.{IsLabelledBlock};
ghost use Rattle.query_read.specs.Reads.{Reads, triples_behind};
ghost use Rattle.query_read.specs.Seen.{names_seen, triples_seen};

use crate::block::{Triple, triples};
use crate::column::columns;
use crate::fault::ReadFault;
use crate::lexemes::lexemes;
use crate::limit::limits;
use crate::name::{Name, names};
use crate::outline::has_outline;
use crate::pattern::{all_known, patterns_of};
use crate::place::{has_sign, place_of};
use crate::prefixes::Prefixes;
use crate::sound::all_sound;
use crate::term::known_terms;
use query_plan::{Patterns, Query};
use query_text::{Lexeme, Sign};
use std::alloc::Global;
use std::str;

/// Reads a query. Of several faults the first one counts, in the order of `ReadFault`. Each label of the query stands in
/// one of its patterns.
pub fn read(alloc: Global, text: &[u8]) -> Result<Query, ReadFault>
    ensures query { Reads (spec.query_of text.now) result }
    ensures labelled { IfOk result IsLabelled }
{
    match str::from_utf8(text) {
        Ok(valid) => read_text(alloc, valid),
        Err(_) => Err(ReadFault::NotQuery),
    }
}

/// Reads a text in UTF-8.
fn read_text(alloc: Global, text: &str) -> Result<Query, ReadFault>
    ensures query { Reads (spec.of_lexemes (lexed (chars text.now))) result }
    ensures labelled { IfOk result IsLabelled }
{
    match lexemes(alloc, text) {
        Ok(Some(all)) => read_lexemes(alloc, &all),
        Ok(None) => Err(ReadFault::NotQuery),
        Err(_) => Err(ReadFault::Memory),
    }
}

/// Reads the tokens of a text.
fn read_lexemes(alloc: Global, all: &[Lexeme<'_>]) -> Result<Query, ReadFault>
    ensures query { Reads (spec.of_lexemes (Some all.now)) result }
    ensures labelled { IfOk result IsLabelled }
{
    if !has_outline(all) || !all_sound(alloc, all)? {
        return Err(ReadFault::NotQuery);
    }
    let opening = place_of(all, Sign::OpenBrace);
    let closing = place_of(all, Sign::CloseBrace);
    match triples(alloc, all, opening + 1, closing)? {
        Some(triples) => read_triples(alloc, all, opening, closing, &triples),
        None => Err(ReadFault::NotQuery),
    }
}

/// Reads the triples of a query, which stand between the places of its braces.
fn read_triples(
    alloc: Global,
    all: &[Lexeme<'_>],
    opening: usize,
    closing: usize,
    triples: &[Triple],
) -> Result<Query, ReadFault>
    requires opening { opening ≡ spec.place_of OpenBrace all.now }
    requires closing { closing ≡ spec.place_of CloseBrace all.now }
    requires within { closing ≤ length all.now }
    requires small { opening ≤ length all.now }
    requires sound { list_all is_sound all.now ≡ true }
    requires triples { triples_behind opening all.now ≡ Some (triples_seen triples.now) }
    ensures query { Reads (spec.of_triples all.now (Some (triples_seen triples.now))) result }
    ensures labelled { IfOk result IsLabelled }
{
    let prefixes = Prefixes::of(alloc, all)?;
    let known = known_terms(alloc, all, &prefixes)?;
    if !all_known(all, &known, triples) {
        return Err(ReadFault::NoPrefix);
    }
    if triples.len() > 32 {
        return Err(ReadFault::TooManyPatterns);
    }
    let names = names(alloc, all, opening + 1, closing)?;
    match patterns_of(alloc, all, &prefixes, &names, triples)? {
        Some(patterns) => read_columns(alloc, all, opening, &names, patterns),
        None => Err(ReadFault::NoPrefix),
    }
}

/// Reads what stands outside the braces, once the labels of the patterns have their numbers.
fn read_columns(
    alloc: Global,
    all: &[Lexeme<'_>],
    opening: usize,
    names: &[Name<'_>],
    patterns: Patterns,
) -> Result<Query, ReadFault>
    requires opening { opening ≡ spec.place_of OpenBrace all.now }
    requires small { opening ≤ length all.now }
    requires names { names_seen names.now ≡ spec.names_of all.now }
    requires few_names { length names.now ≤ 96 }
    requires few_patterns { length patterns ≤ 32 }
    requires labelled { IsLabelledBlock (spec.names_of all.now) (map pattern_seen patterns) }
    ensures query { Reads (spec.of_patterns all.now (Some (map pattern_seen patterns))) result }
    ensures labelled { IfOk result IsLabelled }
{
    let Some(columns) = columns(alloc, all, opening, names)? else {
        return Err(ReadFault::TooManyColumns);
    };
    let count = names.len();
    let distinct = has_sign(all, Sign::Distinct);
    match limits(all) {
        Ok((limit, offset)) => Ok(Query {
            columns,
            labels: count as u8,
            distinct,
            patterns,
            limit,
            offset,
        }),
        Err(fault) => Err(fault),
    }
}
