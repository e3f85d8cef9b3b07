//! Escapes: ECHAR and UCHAR, read behind their backslash, in texts.
ghost use Rattle.std.specs.Prelude.{◌≡◌, ◌≤◌, ◌<◌, ℕ, true, false, drop, length, MatchOption, IfSome, Some, None};
ghost use Rattle.std.specs.Char.{digit_value};
ghost use Rattle.std.specs.Str.{chars};
ghost use Rattle.ntriples_model.specs.Characters.{is_hex};
ghost use Rattle.ntriples_model.specs.Terminals.{echar, string_escape_at};
ghost use Rattle.query_text.specs.Reads.{ReadsNumber, ReadsEscape, digit_count};

use crate::characters::first;

/// The value of a hexadecimal digit.
#[tactic(auto, using(std::proofs::lemmas::Bool::Decides::nat_tests), unfolding(ntriples_model::specs::Characters::is_hex))]
fn hex_value(c: char) -> Option<u32>
    ensures { MatchOption result (is_hex c ≡ false) (λ v. (is_hex c ≡ true) × (v ≡ digit_value c) × (v < 16)) }
{
    match c {
        '0'..='9' => Some(c as u32 - '0' as u32),
        'A'..='F' => Some(c as u32 - 'A' as u32 + 10),
        'a'..='f' => Some(c as u32 - 'a' as u32 + 10),
        _ => None,
    }
}

/// The number of so many hexadecimal digits, and what follows them.
fn hex_number(count: usize, text: &str) -> Option<(u32, &str)>
    requires { count ≤ 8 }
    ensures { ReadsNumber count text.now result }
{
    let mut number: u32 = 0;
    let mut rest = text;
    for _ in 0..count {
        let (c, behind) = first(rest)?;
        number = number * 16 + hex_value(c)?;
        rest = behind;
    }
    Some((number, rest))
}

/// The character that a letter stands for behind a backslash.
#[tactic(auto, using(std::proofs::lemmas::Bool::Decides::nat_tests), unfolding(ntriples_model::specs::Terminals::echar))]
fn named(letter: char) -> Option<char>
    ensures { result ≡ echar letter }
{
    match letter {
        't' => Some('\t'),
        'b' => Some('\u{8}'),
        'n' => Some('\n'),
        'r' => Some('\r'),
        'f' => Some('\u{C}'),
        '"' => Some('"'),
        '\'' => Some('\''),
        '\\' => Some('\\'),
        _ => None,
    }
}

/// How many digits follow the letter of a UCHAR.
#[tactic(auto, using(std::proofs::lemmas::Bool::Decides::nat_tests))]
fn digit_count(letter: char) -> Option<usize>
    ensures count { result ≡ digit_count letter }
    ensures few { IfSome result (λ n. n ≤ 8) }
{
    match letter {
        'u' => Some(4),
        'U' => Some(8),
        _ => None,
    }
}

/// The character of an escape behind its backslash, and what follows the escape.
pub(crate) fn escape(text: &str) -> Option<(char, &str)>
    ensures { ReadsEscape text.now result }
{
    let (letter, rest) = first(text)?;
    if let Some(c) = named(letter) {
        return Some((c, rest));
    }
    let (number, behind) = hex_number(digit_count(letter)?, rest)?;
    Some((char::from_u32(number)?, behind))
}
