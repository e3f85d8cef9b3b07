//! Terminals at the front of some bytes, with their texts put into a Scratch.
ghost use Rattle.std.specs.Prelude.{◌≡◌, ◌+◌, ◌-◌, ◌<◌, ◌≤◌, [], ◌∷◌, ◌++◌, length, take, sum_by, IsUtf8};
ghost use Rattle.ntriples_model.specs.Terminals.{iri_at, string_at, tag_at};
ghost use Rattle.ntriples.specs.Places.{FindsText, scoped_label_at};

use rdf_term::{Scratch, read_iri, read_label, read_string, read_tag};
use std::str;

/// An IRI.
pub(crate) fn iri<'l>(bytes: &'l [u8], to: &mut Scratch) -> Option<(usize, &'l [u8])>
    requires count { length to.old < 8 }
    requires room { sum_by length to.old + length bytes.now ≤ 2098176 }
    ensures { FindsText 0 (iri_at bytes.now) bytes.now to.old to.new result }
{
    let place = to.len();
    let size = read_iri(bytes, to)?;
    Some((place, &bytes[size..]))
}

/// A string.
pub(crate) fn string<'l>(bytes: &'l [u8], to: &mut Scratch) -> Option<(usize, &'l [u8])>
    requires count { length to.old < 8 }
    requires room { sum_by length to.old + length bytes.now ≤ 2098176 }
    ensures { FindsText 0 (string_at bytes.now) bytes.now to.old to.new result }
{
    let place = to.len();
    let size = read_string(bytes, to)?;
    Some((place, &bytes[size..]))
}

/// A language tag, in lower case.
pub(crate) fn tag<'l>(bytes: &'l [u8], to: &mut Scratch) -> Option<(usize, &'l [u8])>
    requires count { length to.old < 8 }
    requires room { sum_by length to.old + length bytes.now ≤ 2098176 }
    ensures { FindsText 0 (tag_at bytes.now) bytes.now to.old to.new result }
{
    let place = to.len();
    let size = read_tag(bytes, to)?;
    Some((place, &bytes[size..]))
}

// Puts the label under its scope in place of the last text.
fn put_scoped(label: &[u8], scope: &str, to: &mut Scratch)
    requires count { (0 < length to.old) × (length to.old ≤ 8) }
    requires utf8 { IsUtf8 label.now }
    requires room { sum_by length (take (length to.old - 1) to.old) + length label.now + length scope.now + 2 ≤ 2098176 }
    ensures { to.new ≡ take (length to.old - 1) to.old ++ (scope.now ++ (46 ∷ 46 ∷ label.now)) ∷ [] }
{
    let Ok(label) = str::from_utf8(label) else {
        return;
    };
    to.drop_last();
    to.add();
    to.join(scope);
    to.join("..");
    to.join(label);
}

/// A label under a scope.
pub(crate) fn label<'l>(bytes: &'l [u8], scope: &str, to: &mut Scratch) -> Option<(usize, &'l [u8])>
    requires count { length to.old < 8 }
    requires room { sum_by length to.old + length bytes.now + 64 ≤ 2098176 }
    requires scope { length scope.now ≤ 64 }
    ensures { FindsText 64 (scoped_label_at scope.now bytes.now) bytes.now to.old to.new result }
{
    let place = to.len();
    let size = read_label(bytes, to)?;
    let rest = &bytes[size..];
    if scope.is_empty() {
        return Some((place, rest));
    }
    put_scoped(&bytes[2..size], scope, to);
    Some((place, rest))
}
