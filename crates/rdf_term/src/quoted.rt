//! IRIREF and STRING_LITERAL_QUOTE (RDF 1.1 N-Triples, section 7), read at the front of some bytes. What they find is
//! `iri_at` and `string_at` of `ntriples_model`.
ghost use Rattle.std.specs.Prelude.{◌≡◌, ◌<◌, ◌≤◌, length};
ghost use Rattle.ntriples_model.specs.Terminals.{iri_at, string_at, is_scheme_rest, is_absolute};
ghost use Rattle.rdf_term.specs.Read.{Reads};
ghost use Rattle.rdf_term.specs.Room.{room_of};

use crate::body::{Form, behind, read_body};
use crate::classes::{fits_scheme, letter};
use crate::scratch::Scratch;

/// Whether bytes go on with the rest of a scheme and its `:`.
fn ends_scheme(bytes: &[u8]) -> bool
    ensures { result ≡ is_scheme_rest bytes.now }
{
    for b in bytes {
        if *b == b':' {
            return true;
        }
        if !fits_scheme(*b) {
            return false;
        }
    }
    false
}

/// Whether an IRI has a scheme.
#[tactic(auto, unfolding(ntriples_model::specs::Terminals::is_absolute))]
pub fn absolute(text: &[u8]) -> bool
    ensures { result ≡ is_absolute text.now }
{
    match text.split_first() {
        Some((first, rest)) => letter(*first) && ends_scheme(rest),
        None => false,
    }
}

/// Reads an IRI, and says how many bytes it has. Its text, after its escapes, is the new last one of the Scratch. An IRI
/// that isn't UTF-8 or isn't absolute counts as none.
pub fn read_iri(bytes: &[u8], to: &mut Scratch) -> Option<usize>
    requires fewer { length to.old < 8 }
    requires room { length bytes.now ≤ room_of to.old }
    ensures { Reads (iri_at bytes.now) bytes.now to.old to.new result }
{
    let body = behind(b'<', bytes)?;
    to.add();
    if let Some(size) = read_body(Form::Iri, body, to) {
        if absolute(to.last().as_bytes()) {
            return Some(size + 1);
        }
    }
    to.drop_last();
    None
}

/// Reads a string in its quotation marks, and says how many bytes it has. Its text, after its escapes, is the new last
/// one of the Scratch. A string that isn't UTF-8 counts as none.
pub fn read_string(bytes: &[u8], to: &mut Scratch) -> Option<usize>
    requires fewer { length to.old < 8 }
    requires room { length bytes.now ≤ room_of to.old }
    ensures { Reads (string_at bytes.now) bytes.now to.old to.new result }
{
    let body = behind(b'"', bytes)?;
    to.add();
    if let Some(size) = read_body(Form::Quoted, body, to) {
        return Some(size + 1);
    }
    to.drop_last();
    None
}
