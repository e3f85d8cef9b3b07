//! The classes of characters that the terminals are made of (`ntriples_model`'s `specs/Characters.antt`).
ghost use Rattle.std.specs.Prelude.{◌≡◌, ◌<◌, true, false, MatchOption};
ghost use Rattle.std.specs.Char.{digit_value};
ghost use Rattle.std.specs.List.{list_all};
ghost use Rattle.ntriples_model.specs.Characters.{is_letter, is_letter_or_digit, is_hex, is_label_start, is_pn_chars, is_pn_chars_base, is_iri_char, is_string_char, is_scheme_char};

/// A byte of an IRI that stands for itself.
#[tactic(auto, using(std::proofs::lemmas::Bool::Decides::nat_tests), unfolding(ntriples_model::specs::Characters::is_iri_char))]
pub fn fits_iri(b: u8) -> bool
    ensures { result ≡ is_iri_char b }
{
    (b > b' ')
        & (b != b'<')
        & (b != b'>')
        & (b != b'"')
        & (b != b'{')
        & (b != b'}')
        & (b != b'|')
        & (b != b'^')
        & (b != b'`')
        & (b != b'\\')
}

/// Whether each byte fits in an IRI. No byte ends the loop, so many are tested at once.
pub(crate) fn all_fit_iri(run: &[u8]) -> bool
    ensures { result ≡ list_all is_iri_char run.now }
{
    let mut fit = true;
    for b in run {
        fit &= fits_iri(*b);
    }
    fit
}

/// A character that IRIREF doesn't leave out.
#[tactic(auto, using(std::proofs::lemmas::Bool::Decides::nat_tests), unfolding(ntriples_model::specs::Characters::is_iri_char))]
pub(crate) fn in_iri(c: char) -> bool
    ensures { result ≡ is_iri_char c }
{
    c > ' ' && !matches!(c, '<' | '>' | '"' | '{' | '}' | '|' | '^' | '`' | '\\')
}

/// A byte of a string that stands for itself.
#[tactic(auto, using(std::proofs::lemmas::Bool::Decides::nat_tests), unfolding(ntriples_model::specs::Characters::is_string_char))]
pub(crate) fn fits_string(b: u8) -> bool
    ensures { result ≡ is_string_char b }
{
    (b != b'"') & (b != b'\\') & (b != b'\n') & (b != b'\r')
}

/// Whether each byte fits in a string; as `all_fit_iri`.
pub(crate) fn all_fit_string(run: &[u8]) -> bool
    ensures { result ≡ list_all is_string_char run.now }
{
    let mut fit = true;
    for b in run {
        fit &= fits_string(*b);
    }
    fit
}

#[tactic(auto, using(std::proofs::lemmas::Bool::Decides::nat_tests), unfolding(ntriples_model::specs::Characters::is_letter))]
pub(crate) fn letter(b: u8) -> bool
    ensures { result ≡ is_letter b }
{
    b.is_ascii_alphabetic()
}

#[tactic(auto, using(std::proofs::lemmas::Bool::Decides::nat_tests), unfolding(ntriples_model::specs::Characters::is_letter_or_digit))]
pub(crate) fn letter_or_digit(b: u8) -> bool
    ensures { result ≡ is_letter_or_digit b }
{
    b.is_ascii_alphanumeric()
}

/// A byte of a scheme behind its first letter.
#[tactic(auto, using(std::proofs::lemmas::Bool::Decides::nat_tests), unfolding(ntriples_model::specs::Characters::is_scheme_char))]
pub(crate) fn fits_scheme(b: u8) -> bool
    ensures { result ≡ is_scheme_char b }
{
    letter_or_digit(b) || matches!(b, b'+' | b'.' | b'-')
}

/// The value of a hexadecimal digit.
#[tactic(auto, using(std::proofs::lemmas::Bool::Decides::nat_tests), unfolding(ntriples_model::specs::Characters::is_hex))]
pub(crate) fn hex_value(b: u8) -> Option<u8>
    ensures { MatchOption result (is_hex b ≡ false) (λ v. (is_hex b ≡ true) × (v ≡ digit_value b) × (v < 16)) }
{
    match b {
        b'0'..=b'9' => Some(b - b'0'),
        b'A'..=b'F' => Some(b - b'A' + 10),
        b'a'..=b'f' => Some(b - b'a' + 10),
        _ => None,
    }
}

/// PN_CHARS_BASE.
#[tactic(auto, using(std::proofs::lemmas::Bool::Decides::nat_tests), unfolding(ntriples_model::specs::Characters::is_pn_chars_base))]
fn pn_chars_base(c: char) -> bool
    ensures { result ≡ is_pn_chars_base c }
{
    matches!(c,
        'A'..='Z' | 'a'..='z' | '\u{C0}'..='\u{D6}' | '\u{D8}'..='\u{F6}' | '\u{F8}'..='\u{2FF}'
        | '\u{370}'..='\u{37D}' | '\u{37F}'..='\u{1FFF}' | '\u{200C}'..='\u{200D}' | '\u{2070}'..='\u{218F}'
        | '\u{2C00}'..='\u{2FEF}' | '\u{3001}'..='\u{D7FF}' | '\u{F900}'..='\u{FDCF}' | '\u{FDF0}'..='\u{FFFD}'
        | '\u{10000}'..='\u{EFFFF}')
}

/// PN_CHARS_U or a digit, with which a label begins.
#[tactic(auto, using(std::proofs::lemmas::Bool::Decides::nat_tests), unfolding(ntriples_model::specs::Characters::is_label_start, ntriples_model::specs::Characters::is_pn_chars_u))]
pub(crate) fn starts_label(c: char) -> bool
    ensures { result ≡ is_label_start c }
{
    pn_chars_base(c) || matches!(c, '_' | ':' | '0'..='9')
}

/// PN_CHARS.
#[tactic(auto, using(std::proofs::lemmas::Bool::Decides::nat_tests), unfolding(ntriples_model::specs::Characters::is_pn_chars, ntriples_model::specs::Characters::is_label_start, ntriples_model::specs::Characters::is_pn_chars_u))]
pub(crate) fn pn_chars(c: char) -> bool
    ensures { result ≡ is_pn_chars c }
{
    starts_label(c) || matches!(c, '-' | '\u{B7}' | '\u{300}'..='\u{36F}' | '\u{203F}'..='\u{2040}')
}
