//! The columns of a query's answer.
ghost use Rattle.std.specs.Prelude.{◌≡◌, ◌≤◌, [], ◌∷◌, IfOk, OnOk, map, take, length};
ghost use Rattle.query_grammar.specs.Meaning as spec;
ghost use Rattle.query_grammar.specs.Signs.{OpenBrace};
ghost use Rattle.query_plan.specs.Seen.{column_seen};
ghost use Rattle.query_read.specs.Reads.{columns_for, AddsColumnOf, ListsColumns};
ghost use Rattle.query_read.specs.Seen.{name_seen, names_seen};

use crate::name::{Name, number_among, variables};
use crate::place::place_of;
use query_plan::{Column, Columns};
use query_text::{Lexeme, Sign};
use std::alloc::Global;
use tn_io::Text;
use trie_depth::Memory;

/// The label of a variable, where a pattern has it.
fn label_of(names: &[Name<'_>], name: Name<'_>) -> Option<u8>
    requires { length names.now ≤ 96 }
    ensures { result ≡ (spec.column_of (names_seen names.now) (name_seen name.entry)).label }
{
    let number = number_among(names, name);
    if number < names.len() {
        return Some(number as u8);
    }
    None
}

/// The column of a variable.
fn column_of(alloc: Global, names: &[Name<'_>], name: &str) -> Result<Column, Memory>
    requires { length names.now ≤ 96 }
    ensures { IfOk result (λ c. column_seen c ≡ spec.column_of (names_seen names.now) (spec.VariableName name.now)) }
{
    let label = label_of(names, Name::Variable(name));
    Ok(Column {
        name: Text::of(alloc, name)?,
        label,
    })
}

/// Adds the column of a name, where it is a variable.
fn push_column(
    alloc: Global,
    names: &[Name<'_>],
    name: Name<'_>,
    columns: &mut Columns,
) -> Result<(), Memory>
    requires { length names.now ≤ 96 }
    ensures { OnOk result (AddsColumnOf (names_seen names.now) (name_seen name.entry) columns.old columns.new) }
{
    let Name::Variable(text) = name else {
        return Ok(());
    };
    columns.push(column_of(alloc, names, text)?)
}

/// The columns of the variables of a list.
fn columns_of(alloc: Global, names: &[Name<'_>], chosen: &[Name<'_>]) -> Result<Columns, Memory>
    requires { length names.now ≤ 96 }
    ensures { IfOk result (λ cs. map column_seen cs ≡ columns_for (names_seen names.now) (names_seen chosen.now)) }
{
    let mut columns = Columns::new(alloc);
    for i in 0..chosen.len() {
        push_column(alloc, names, chosen[i], &mut columns)?;
    }
    Ok(columns)
}

/// The tokens before a place.
fn up_to<'s, 'a>(all: &'s [Lexeme<'a>], end: usize) -> &'s [Lexeme<'a>]
    requires { end ≤ length all.now }
    ensures { result.now ≡ take end all.now }
{
    &all[..end]
}

/// The columns, where the tokens up to a place stand before the braces; none where there are more than 128.
pub(crate) fn columns(
    alloc: Global,
    all: &[Lexeme<'_>],
    end: usize,
    names: &[Name<'_>],
) -> Result<Option<Columns>, Memory>
    requires head { end ≡ spec.place_of OpenBrace all.now }
    requires within { end ≤ length all.now }
    requires names { names_seen names.now ≡ spec.names_of all.now }
    requires few { length names.now ≤ 96 }
    ensures { IfOk result (λ r. ListsColumns all.now r) }
{
    let head = up_to(all, end);
    if place_of(head, Sign::Star) < head.len() {
        return Ok(Some(columns_of(alloc, names, names)?));
    }
    let Some(chosen) = variables(alloc, head)? else {
        return Ok(None);
    };
    Ok(Some(columns_of(alloc, names, &chosen)?))
}
