//! Names: what follows a mark, and the two parts of a prefixed name.
ghost use Rattle.std.specs.Prelude.{◌≡◌, [], ◌∷◌, ◌++◌, IfOk, OnOk, map, take, drop};
ghost use Rattle.std.specs.Char.{to_ascii_lowercase};
ghost use Rattle.query_grammar.specs.Texts as spec;
ghost use Rattle.query_text.specs.Seen.{kept};

use crate::characters::first;
use std::alloc::Global;
use tn_io::Text;
use trie_depth::Memory;

/// What follows the first character.
pub fn behind_one(text: &str) -> &str
    ensures { result.now ≡ spec.behind_first 1 text.now }
{
    match first(text) {
        Some((_, rest)) => rest,
        None => text,
    }
}

/// What follows the first two characters.
pub fn behind_two(text: &str) -> &str
    ensures { result.now ≡ spec.behind_first 2 text.now }
{
    match first(text) {
        Some((_, rest)) => behind_one(rest),
        None => text,
    }
}

/// The prefix of a name with its colon, and the local name.
pub fn prefix_and_local(name: &str) -> (&str, &str)
    ensures prefix { result.0.now ≡ take (spec.prefix_length name.now) name.now }
    ensures local { result.1.now ≡ drop (spec.prefix_length name.now) name.now }
{
    match name.find(':') {
        Some(colon) => name.split_at(colon + 1),
        None => name.split_at(name.len()),
    }
}

/// Adds a character, unless it is a backslash.
fn push_kept(text: &mut Text, c: char) -> Result<(), Memory>
    ensures { OnOk result (text.new ≡ text.old ++ kept (c ∷ [])) }
{
    if c == '\\' {
        return Ok(());
    }
    text.push(c.encode_utf8(&mut [0; 4]))
}

/// What the local part of a prefixed name stands for: its text without backslashes.
pub fn local_text(alloc: Global, name: &str) -> Result<Text, Memory>
    ensures { IfOk result (λ t. t ≡ spec.local_text name.now) }
{
    let mut text = Text::new(alloc);
    let mut rest = prefix_and_local(name).1;
    while let Some((c, behind)) = first(rest) {
        push_kept(&mut text, c)?;
        rest = behind;
    }
    Ok(text)
}

/// The text with its letters of ASCII in lower case.
pub fn lowered(alloc: Global, text: &str) -> Result<Text, Memory>
    ensures { IfOk result (λ t. t ≡ map to_ascii_lowercase text.now) }
{
    Text::of(alloc, text.to_ascii_lowercase(alloc)?.as_str())
}
