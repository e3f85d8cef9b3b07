//! LANGTAG (RDF 1.1 N-Triples, section 7), read at the front of some bytes. What is found is `tag_at` of
//! `ntriples_model`.
ghost use Rattle.std.specs.Prelude.{◌≡◌, ◌+◌, ◌<◌, ◌≤◌, ◌&&◌, ◌==◌, length, take, slice_index};
ghost use Rattle.ntriples_model.specs.Characters.{is_letter, is_letter_or_digit};
ghost use Rattle.ntriples_model.specs.Terminals.{tag_rest, tag_bytes, tag_at};
ghost use Rattle.rdf_term.specs.Read.{Reads};
ghost use Rattle.rdf_term.specs.Room.{room_of};
ghost use Rattle.rdf_term.specs.Tag.{fits_by};

use crate::body::behind;
use crate::classes::{letter, letter_or_digit};
use crate::scratch::Scratch;

/// Whether a byte goes on with a part of a tag, where digits may stand or not.
fn fits(digits: bool, b: u8) -> bool
    ensures { result ≡ fits_by digits b }
{
    if digits {
        letter_or_digit(b)
    } else {
        letter(b)
    }
}

/// Whether a `-` stands at a place, and a letter or digit behind it.
#[tactic(auto, unfolding(ntriples_model::specs::Characters::is_letter_or_digit))]
fn begins_part(bytes: &[u8], i: usize) -> bool
    ensures { result ≡ (slice_index bytes.now i == 45 && is_letter_or_digit (slice_index bytes.now (i + 1))) }
{
    match bytes.get(i..) {
        Some([b'-', b, ..]) => letter_or_digit(*b),
        _ => false,
    }
}

/// How many bytes of a tag stand behind its first letter.
fn rest_len(bytes: &[u8]) -> usize
    ensures within { result ≤ length bytes.now }
    ensures rest { take result bytes.now ≡ tag_rest is_letter bytes.now }
{
    let mut digits = false;
    for (i, b) in bytes.iter().enumerate() {
        if fits(digits, *b) {
            continue;
        }
        if !begins_part(bytes, i) {
            return i;
        }
        digits = true;
    }
    bytes.len()
}

/// How many bytes the longest tag has that begins the bytes behind `@`, 0 where none does.
fn tag_len(bytes: &[u8]) -> usize
    ensures within { result ≤ length bytes.now }
    ensures tag { take result bytes.now ≡ tag_bytes bytes.now }
{
    let Some((first, rest)) = bytes.split_first() else {
        return 0;
    };
    if letter(*first) {
        rest_len(rest) + 1
    } else {
        0
    }
}

/// Reads a language tag, and says how many bytes it has with its `@`. The tag in lower case is the new last text of the
/// Scratch.
pub fn read_tag(bytes: &[u8], to: &mut Scratch) -> Option<usize>
    requires fewer { length to.old < 8 }
    requires room { length bytes.now ≤ room_of to.old }
    ensures { Reads (tag_at bytes.now) bytes.now to.old to.new result }
{
    let tag = behind(b'@', bytes)?;
    let size = tag_len(tag);
    if size == 0 {
        return None;
    }
    to.add();
    let letters = &tag[..size];
    for b in letters {
        to.join(char::from(b.to_ascii_lowercase()).encode_utf8(&mut [0; 4]));
    }
    Some(size + 1)
}
