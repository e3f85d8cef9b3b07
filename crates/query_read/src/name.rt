//! The labels of a query by their names: variables, labels of blank nodes, and pairs of brackets.
ghost use Rattle.std.specs.Prelude.{◌≡◌, ◌≤◌, ◌<◌, ◌+◌, IfOk, OnOk, [], take, length, IfSome};
ghost use Rattle.std.specs.Option.{option_map};
ghost use Rattle.query_grammar.specs.Meaning as spec;
ghost use Rattle.query_grammar.specs.Meaning.{with_some};
ghost use Rattle.query_read.specs.Reads.{block_within, variable_of, ListsVariables};
ghost use Rattle.query_read.specs.Seen.{name_seen, name_seen_in, names_seen};

use query_text::{Lexeme, Sign, behind_one, behind_two};
use std::alloc::Global;
use trie_depth::Memory;

/// What a label is known by.
#[derive(Clone, Copy)]
pub(crate) enum Name<'a> {
    Variable(&'a str),
    Label(&'a str),
    /// A pair of brackets, by its place.
    Fresh(usize),
}

impl<'a> Name<'a> {
    /// The name of the token at a place.
    pub(crate) fn of(lexeme: &Lexeme<'a>, i: usize) -> Option<Name<'a>>
        ensures { name_seen_in result ≡ spec.name_of lexeme.now i }
    {
        match lexeme.sign() {
            Sign::Variable => Some(Name::Variable(behind_one(lexeme.text()))),
            Sign::Label => Some(Name::Label(behind_two(lexeme.text()))),
            Sign::Open => Some(Name::Fresh(i)),
            _ => None,
        }
    }

    fn is(self, other: Name<'_>) -> bool
        ensures { result ≡ spec.same_name (name_seen self.entry) (name_seen other.entry) }
    {
        match (self, other) {
            (Name::Variable(a), Name::Variable(b)) => a == b,
            (Name::Label(a), Name::Label(b)) => a == b,
            (Name::Fresh(i), Name::Fresh(j)) => i == j,
            _ => false,
        }
    }
}

/// The number of a name, or how many names there are where it is not among them.
pub(crate) fn number_among(names: &[Name<'_>], name: Name<'_>) -> usize
    ensures number { result ≡ spec.number_among (names_seen names.now) (name_seen name.entry) }
    ensures within { result ≤ length names.now }
{
    for i in 0..names.len() {
        if name.is(names[i]) {
            return i;
        }
    }
    names.len()
}

/// Adds a name at the end, unless it is among the names.
fn add<'a>(names: &mut Vec<Name<'a>>, name: Option<Name<'a>>) -> Result<(), Memory>
    ensures { OnOk result (names_seen names.new.items ≡ with_some (names_seen names.old.items) (name_seen_in name.entry)) }
{
    let Some(name) = name else {
        return Ok(());
    };
    if number_among(names, name) < names.len() {
        return Ok(());
    }
    names.push(name)?;
    Ok(())
}

/// The names of the tokens from one place up to another, each at its first appearance.
pub(crate) fn names<'a>(
    alloc: Global,
    all: &[Lexeme<'a>],
    from: usize,
    to: usize,
) -> Result<Vec<Name<'a>>, Memory>
    requires { to ≤ length all.now }
    ensures { IfOk result (λ v. names_seen v.items ≡ spec.names_from [] from (block_within from to all.now)) }
{
    let mut names = Vec::new(alloc);
    for i in from..to {
        add(&mut names, Name::of(&all[i], i))?;
    }
    Ok(names)
}

/// The variables of the tokens, each at its first appearance; none where there are more than 128.
pub(crate) fn variables<'a>(
    alloc: Global,
    all: &[Lexeme<'a>],
) -> Result<Option<Vec<Name<'a>>>, Memory>
    ensures { IfOk result (λ r. ListsVariables all.now (option_map (λ v. names_seen v.items) r)) }
{
    let mut names = Vec::new(alloc);
    for lexeme in all {
        if names.len() > 128 {
            return Ok(None);
        }
        add(&mut names, variable(lexeme))?;
    }
    if names.len() > 128 {
        return Ok(None);
    }
    Ok(Some(names))
}

/// The name of a variable.
fn variable<'a>(lexeme: &Lexeme<'a>) -> Option<Name<'a>>
    ensures { name_seen_in result ≡ variable_of lexeme.now }
{
    match lexeme.sign() {
        Sign::Variable => Some(Name::Variable(behind_one(lexeme.text()))),
        _ => None,
    }
}
