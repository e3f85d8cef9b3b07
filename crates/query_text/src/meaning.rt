//! What the inside of an IRI and of a string stands for.
ghost use Rattle.std.specs.Prelude.{◌≡◌, ◌<◌, IfOk, length, ◌&&◌};
ghost use Rattle.std.specs.List.{list_all};
ghost use Rattle.std.specs.Str.{chars};
ghost use Rattle.ntriples_model.specs.Characters.{is_iri_char};
ghost use Rattle.ntriples_model.specs.Terminals.{is_absolute};
ghost use Rattle.query_grammar.specs.Texts as spec;
ghost use Rattle.query_text.specs.Reads.{ReadsMeant};
ghost use Rattle.query_text.specs.Seen.{meaning};

use crate::characters::{first, trimmed};
use crate::escape::escape;
use crate::sign::byte_at;
use rdf_term::{absolute, fits_iri};
use std::alloc::Global;
use tn_io::Text;
use trie_depth::Memory;

/// The first character that is meant, and what follows what stands for it.
fn first_meant(text: &str) -> Option<(char, &str)>
    requires { 0 < length text.now }
    ensures { ReadsMeant text.now result }
{
    let (c, rest) = first(text)?;
    if c == '\\' {
        return escape(rest);
    }
    Some((c, rest))
}

/// The text with its escapes read; none where an escape stands for no character.
fn unescape(alloc: Global, text: &str) -> Result<Option<Text>, Memory>
    ensures { IfOk result (λ r. r ≡ meaning text.now) }
{
    let mut meant = Text::new(alloc);
    let mut rest = text;
    while !rest.is_empty() {
        let Some((c, behind)) = first_meant(rest) else {
            return Ok(None);
        };
        meant.push(c.encode_utf8(&mut [0; 4]))?;
        rest = behind;
    }
    Ok(Some(meant))
}

/// Whether each byte may stand in an IRI.
fn all_fit(bytes: &[u8]) -> bool
    ensures { result ≡ list_all is_iri_char bytes.now }
{
    for b in bytes {
        if !fits_iri(*b) {
            return false;
        }
    }
    true
}

/// Whether an IRI has no character that its token leaves out, and is absolute.
fn is_proper(iri: &[u8]) -> bool
    ensures { result ≡ (list_all is_iri_char iri.now && is_absolute iri.now) }
{
    all_fit(iri) && absolute(iri)
}

/// The IRI of a token; none where it isn't proper.
pub fn iri_text(alloc: Global, token: &str) -> Result<Option<Text>, Memory>
    ensures { IfOk result (λ r. r ≡ spec.iri_text token.now) }
{
    let Some(iri) = unescape(alloc, trimmed(token))? else {
        return Ok(None);
    };
    if is_proper(iri.as_str().as_bytes()) {
        return Ok(Some(iri));
    }
    Ok(None)
}

/// What stands between the quotes of a string, one of them or three on each side.
fn within_quotes(token: &str) -> &str
    ensures { chars result.now ≡ spec.within_quotes token.now }
{
    let quote = byte_at(token, 0);
    if byte_at(token, 1) == quote && byte_at(token, 2) == quote {
        return trimmed(trimmed(trimmed(token)));
    }
    trimmed(token)
}

/// The text of a string; none where an escape stands for no character.
pub fn string_text(alloc: Global, token: &str) -> Result<Option<Text>, Memory>
    ensures { IfOk result (λ r. r ≡ spec.string_text token.now) }
{
    unescape(alloc, within_quotes(token))
}
