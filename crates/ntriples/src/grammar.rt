//! The productions of a line (`ntriples_model`'s `specs/Line.antt`), from its front.
ghost use Rattle.std.specs.Prelude.{◌≡◌, ◌+◌, ◌<◌, ◌≤◌, length, slice_index, sum_by, IfNone};
ghost use Rattle.ntriples_model.specs.Line as line;
ghost use Rattle.text_lines.specs.Blanks as blanks;
ghost use Rattle.ntriples_model.specs.Line.{subject_at, predicate_at, literal_at, object_at, triple_at};
ghost use Rattle.ntriples.specs.Places.{FindsTerm, FindsTriple};

use crate::place::{TermPlace, TriplePlaces};
use crate::terminal::{iri, label, string, tag};
use bstr::ByteSlice;
use rdf_term::Scratch;

// What stands behind the blanks, of which there may be many.
fn skip_blanks(bytes: &[u8]) -> &[u8]
    ensures { result.now ≡ blanks.after_blanks bytes.now }
{
    &bytes[bytes.find_not_byteset(b" \t").unwrap_or(bytes.len())..]
}

/// What stands behind the blanks. Most often there is one: a set's table is made only for more.
pub(crate) fn after_blanks(bytes: &[u8]) -> &[u8]
    ensures rest { result.now ≡ blanks.after_blanks bytes.now }
    ensures within { length result.now ≤ length bytes.now }
{
    match bytes {
        [b' ' | b'\t', rest @ ..] => match rest {
            [b' ' | b'\t', ..] => skip_blanks(rest),
            _ => rest,
        },
        _ => bytes,
    }
}

// The byte at place `i`, or 0 where there is none.
fn byte_at(bytes: &[u8], i: usize) -> u8
    ensures value { result ≡ slice_index bytes.now i }
    ensures within { 0 < result → i < length bytes.now }
{
    bytes.get(i).copied().unwrap_or(0)
}

/// Whether there is nothing, or a comment.
pub(crate) fn is_note(bytes: &[u8]) -> bool
    ensures { result ≡ line.is_note bytes.now }
{
    matches!(bytes, [] | [b'#', ..])
}

/// Whether a full stop is next, and then nothing or a comment.
#[tactic(auto, unfolding(ntriples_model::specs::Line::is_end))]
fn is_end(bytes: &[u8]) -> bool
    ensures { result ≡ line.is_end bytes.now }
{
    match after_blanks(bytes) {
        [b'.', behind @ ..] => is_note(after_blanks(behind)),
        _ => false,
    }
}

/// subject ::= IRIREF | BLANK_NODE_LABEL
fn subject<'l>(bytes: &'l [u8], scope: &str, to: &mut Scratch) -> Option<(TermPlace, &'l [u8])>
    requires count { length to.old ≤ 6 }
    requires room { sum_by length to.old + length bytes.now + 64 ≤ 2098176 }
    requires scope { length scope.now ≤ 64 }
    ensures term { FindsTerm (subject_at scope.now bytes.now) bytes.now to.old to.new result }
    ensures none { IfNone result (to.new ≡ to.old) }
{
    if let Some((text, rest)) = iri(bytes, to) {
        return Some((TermPlace::Iri(text), rest));
    }
    let (label, rest) = label(bytes, scope, to)?;
    Some((TermPlace::Blank(label), rest))
}

/// predicate ::= IRIREF
fn predicate<'l>(bytes: &'l [u8], to: &mut Scratch) -> Option<(TermPlace, &'l [u8])>
    requires count { length to.old ≤ 6 }
    requires room { sum_by length to.old + length bytes.now ≤ 2098176 }
    ensures { FindsTerm (predicate_at bytes.now) bytes.now to.old to.new result }
{
    let (text, rest) = iri(bytes, to)?;
    Some((TermPlace::Iri(text), rest))
}

/// literal ::= STRING_LITERAL_QUOTE ('^^' IRIREF | LANGTAG)?
fn literal<'l>(bytes: &'l [u8], to: &mut Scratch) -> Option<(TermPlace, &'l [u8])>
    requires count { length to.old ≤ 6 }
    requires room { sum_by length to.old + length bytes.now ≤ 2098176 }
    ensures { FindsTerm (literal_at bytes.now) bytes.now to.old to.new result }
{
    let (form, rest) = string(bytes, to)?;
    let behind = after_blanks(rest);
    if byte_at(behind, 0) == b'^' {
        if byte_at(behind, 1) != b'^' {
            return None;
        }
        let (datatype, rest) = iri(after_blanks(&behind[2..]), to)?;
        return Some((TermPlace::Typed(form, datatype), rest));
    }
    if byte_at(behind, 0) == b'@' {
        let (tag, rest) = tag(behind, to)?;
        return Some((TermPlace::Tagged(form, tag), rest));
    }
    Some((TermPlace::Plain(form), rest))
}

/// object ::= IRIREF | BLANK_NODE_LABEL | literal
fn object<'l>(bytes: &'l [u8], scope: &str, to: &mut Scratch) -> Option<(TermPlace, &'l [u8])>
    requires count { length to.old ≤ 6 }
    requires room { sum_by length to.old + length bytes.now + 64 ≤ 2098176 }
    requires scope { length scope.now ≤ 64 }
    ensures { FindsTerm (object_at scope.now bytes.now) bytes.now to.old to.new result }
{
    if let Some(node) = subject(bytes, scope, to) {
        return Some(node);
    }
    literal(bytes, to)
}

/// A triple, of bytes that begin with no blank.
pub(crate) fn triple(bytes: &[u8], scope: &str, to: &mut Scratch) -> Option<TriplePlaces>
    requires empty { length to.old ≡ 0 }
    requires bytes { length bytes.now ≤ 1048576 }
    requires scope { length scope.now ≤ 64 }
    ensures { FindsTriple (triple_at scope.now bytes.now) to.new result }
{
    let (s, rest) = subject(bytes, scope, to)?;
    let (p, rest) = predicate(after_blanks(rest), to)?;
    let (o, rest) = object(after_blanks(rest), scope, to)?;
    if !is_end(rest) {
        return None;
    }
    Some(TriplePlaces { s, p, o })
}
