//! Whether the tokens keep the rules on escapes and on IRIs.
ghost use Rattle.std.specs.Prelude.{◌≡◌, IfOk};
ghost use Rattle.std.specs.List.{list_all};
ghost use Rattle.query_grammar.specs.Texts as spec;

use query_text::{Lexeme, Sign, iri_text, string_text};
use std::alloc::Global;
use trie_depth::Memory;

/// Whether the text of an IRI or a string can be read.
fn is_sound(alloc: Global, lexeme: &Lexeme<'_>) -> Result<bool, Memory>
    ensures { IfOk result (λ r. r ≡ spec.is_sound lexeme.now) }
{
    match lexeme.sign() {
        Sign::Iri => Ok(iri_text(alloc, lexeme.text())?.is_some()),
        Sign::Text => Ok(string_text(alloc, lexeme.text())?.is_some()),
        _ => Ok(true),
    }
}

pub(crate) fn all_sound(alloc: Global, all: &[Lexeme<'_>]) -> Result<bool, Memory>
    ensures { IfOk result (λ r. r ≡ list_all spec.is_sound all.now) }
{
    for lexeme in all {
        if !is_sound(alloc, lexeme)? {
            return Ok(false);
        }
    }
    Ok(true)
}
