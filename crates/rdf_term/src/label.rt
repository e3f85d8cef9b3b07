//! BLANK_NODE_LABEL (RDF 1.1 N-Triples, section 7), read at the front of some bytes. What is found is `label_at` of
//! `ntriples_model`.
ghost use Rattle.std.specs.Prelude.{◌≡◌, ◌+◌, ◌<◌, ◌≤◌, length, take, encode_utf8_all};
ghost use Rattle.std.specs.Str.{continuation_len};
ghost use Rattle.ntriples_model.specs.Terminals.{front_chars, label_chars, label_at};
ghost use Rattle.rdf_term.specs.Front.{GivesFirst};
ghost use Rattle.rdf_term.specs.Read.{Reads};
ghost use Rattle.rdf_term.specs.Room.{room_of};

use crate::body::behind;
use crate::classes::{pn_chars, starts_label};
use crate::scratch::Scratch;
use std::str;

/// How many bytes a character takes that begins with this byte.
fn width(first: u8) -> usize
    ensures { result ≡ continuation_len first + 1 }
{
    match first {
        0..0x80 => 1,
        0x80..0xE0 => 2,
        0xE0..0xF0 => 3,
        _ => 4,
    }
}

/// The character that begins some bytes, and how many of them it takes.
fn first_char(bytes: &[u8]) -> Option<(char, usize)>
    ensures { GivesFirst bytes.now result }
{
    let first = *bytes.first()?;
    if first < 0x80 {
        return Some((first as char, 1));
    }
    let Ok(text) = str::from_utf8(bytes.get(..width(first))?) else {
        return None;
    };
    let c = text.chars().next()?;
    Some((c, c.len_utf8()))
}

/// How many bytes the longest label has that begins the bytes, 0 where none does.
fn label_len(bytes: &[u8]) -> usize
    ensures within { result ≤ length bytes.now }
    ensures label { take result bytes.now ≡ encode_utf8_all (label_chars (front_chars bytes.now)) }
{
    let Some((first, size)) = first_char(bytes) else {
        return 0;
    };
    if !starts_label(first) {
        return 0;
    }
    let mut end = size;
    let mut at = size;
    loop {
        let Some((c, size)) = first_char(&bytes[at..]) else {
            return end;
        };
        at += size;
        if pn_chars(c) {
            end = at;
        } else if c != '.' {
            return end;
        }
    }
}

/// Reads the label of a blank node, and says how many bytes it has with its `_:`. The label alone is the new last text
/// of the Scratch.
pub fn read_label(bytes: &[u8], to: &mut Scratch) -> Option<usize>
    requires fewer { length to.old < 8 }
    requires room { length bytes.now ≤ room_of to.old }
    ensures { Reads (label_at bytes.now) bytes.now to.old to.new result }
{
    let name = behind(b':', behind(b'_', bytes)?)?;
    let size = label_len(name);
    if size == 0 {
        return None;
    }
    let Ok(label) = str::from_utf8(&name[..size]) else {
        return None;
    };
    to.add();
    to.join(label);
    Some(size + 2)
}
