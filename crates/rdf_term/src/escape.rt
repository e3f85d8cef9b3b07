//! Escapes: ECHAR and UCHAR, read behind their backslash.
ghost use Rattle.std.specs.Prelude.{◌≡◌, ◌≤◌, length};
ghost use Rattle.ntriples_model.specs.Terminals.{hex_at, uchar_at, echar, iri_escape_at, string_escape_at};

use crate::classes::{hex_value, in_iri};

/// The number that hexadecimal digits stand for.
fn hex_number(digits: &[u8]) -> Option<u32>
    requires { length digits.now ≤ 8 }
    ensures { result ≡ hex_at (length digits.now) digits.now }
{
    let mut number: u32 = 0;
    for digit in digits {
        number = number * 16 + u32::from(hex_value(*digit)?);
    }
    Some(number)
}

/// The character of a UCHAR, and how many bytes it has behind its backslash.
fn uchar(bytes: &[u8]) -> Option<(char, usize)>
    ensures { result ≡ uchar_at bytes.now }
{
    let size = match bytes.first()? {
        b'u' => 5,
        b'U' => 9,
        _ => return None,
    };
    let number = hex_number(bytes.get(1..size)?)?;
    Some((char::from_u32(number)?, size))
}

/// The character that a letter stands for behind a backslash.
#[tactic(auto, using(std::proofs::lemmas::Bool::Decides::nat_tests), unfolding(ntriples_model::specs::Terminals::echar))]
fn named(letter: u8) -> Option<char>
    ensures { result ≡ echar letter }
{
    match letter {
        b't' => Some('\t'),
        b'b' => Some('\u{8}'),
        b'n' => Some('\n'),
        b'r' => Some('\r'),
        b'f' => Some('\u{C}'),
        b'"' => Some('"'),
        b'\'' => Some('\''),
        b'\\' => Some('\\'),
        _ => None,
    }
}

/// An escape of an IRI, which stands for no character that IRIREF leaves out.
#[tactic(auto, unfolding(ntriples_model::specs::Terminals::iri_escape_at))]
pub(crate) fn iri_escape(bytes: &[u8]) -> Option<(char, usize)>
    ensures { result ≡ iri_escape_at bytes.now }
{
    let (c, size) = uchar(bytes)?;
    if in_iri(c) { Some((c, size)) } else { None }
}

/// An escape of a string.
#[tactic(auto, unfolding(ntriples_model::specs::Terminals::string_escape_at))]
pub(crate) fn string_escape(bytes: &[u8]) -> Option<(char, usize)>
    ensures { result ≡ string_escape_at bytes.now }
{
    match named(*bytes.first()?) {
        Some(c) => Some((c, 1)),
        None => uchar(bytes),
    }
}
