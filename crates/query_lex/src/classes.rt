//! The classes of characters that tokens are made of (`specs/Steps.antt`).
ghost use Rattle.std.specs.Prelude.{◌≡◌};
ghost use Rattle.query_lex.specs.Steps.{is_in, Letter, LetterOrDigit, Digit, Hex, OutsideIri, PrefixStart, PrefixChar, NameStart, VarChar, LocalStart, LocalChar};

#[tactic(auto, using(std::proofs::lemmas::Bool::Decides::nat_tests), unfolding(crate::specs::Steps::is_in))]
pub(crate) fn is_letter(c: char) -> bool
    ensures { result ≡ is_in Letter c }
{
    c.is_ascii_alphabetic()
}

#[tactic(auto, using(std::proofs::lemmas::Bool::Decides::nat_tests), unfolding(crate::specs::Steps::is_in))]
pub(crate) fn is_letter_or_digit(c: char) -> bool
    ensures { result ≡ is_in LetterOrDigit c }
{
    c.is_ascii_alphanumeric()
}

#[tactic(auto, using(std::proofs::lemmas::Bool::Decides::nat_tests), unfolding(crate::specs::Steps::is_in))]
pub(crate) fn is_digit(c: char) -> bool
    ensures { result ≡ is_in Digit c }
{
    c.is_ascii_digit()
}

#[tactic(auto, using(std::proofs::lemmas::Bool::Decides::nat_tests), unfolding(crate::specs::Steps::is_in))]
pub(crate) fn is_hex(c: char) -> bool
    ensures { result ≡ is_in Hex c }
{
    c.is_ascii_hexdigit()
}

/// A character that no IRI has as itself.
#[tactic(auto, using(std::proofs::lemmas::Bool::Decides::nat_tests), unfolding(crate::specs::Steps::is_in))]
pub(crate) fn is_outside_iri(c: char) -> bool
    ensures { result ≡ is_in OutsideIri c }
{
    c <= ' ' || matches!(c, '<' | '>' | '"' | '{' | '}' | '|' | '^' | '`' | '\\')
}

/// PN_CHARS_BASE.
#[tactic(auto, using(std::proofs::lemmas::Bool::Decides::nat_tests), unfolding(crate::specs::Steps::is_in))]
pub(crate) fn begins_prefix(c: char) -> bool
    ensures { result ≡ is_in PrefixStart c }
{
    matches!(c,
        'A'..='Z' | 'a'..='z' | '\u{C0}'..='\u{D6}' | '\u{D8}'..='\u{F6}' | '\u{F8}'..='\u{2FF}'
        | '\u{370}'..='\u{37D}' | '\u{37F}'..='\u{1FFF}' | '\u{200C}'..='\u{200D}' | '\u{2070}'..='\u{218F}'
        | '\u{2C00}'..='\u{2FEF}' | '\u{3001}'..='\u{D7FF}' | '\u{F900}'..='\u{FDCF}' | '\u{FDF0}'..='\u{FFFD}'
        | '\u{10000}'..='\u{EFFFF}')
}

/// PN_CHARS_U or a digit, with which a label or a variable's name begins.
#[tactic(auto, using(std::proofs::lemmas::Bool::Decides::nat_tests), unfolding(crate::specs::Steps::is_in))]
pub(crate) fn begins_name(c: char) -> bool
    ensures { result ≡ is_in NameStart c }
{
    begins_prefix(c) || matches!(c, '_' | '0'..='9')
}

/// A character of a variable's name.
#[tactic(auto, using(std::proofs::lemmas::Bool::Decides::nat_tests), unfolding(crate::specs::Steps::is_in))]
pub(crate) fn is_var_char(c: char) -> bool
    ensures { result ≡ is_in VarChar c }
{
    begins_name(c) || matches!(c, '\u{B7}' | '\u{300}'..='\u{36F}' | '\u{203F}'..='\u{2040}')
}

/// PN_CHARS.
#[tactic(auto, using(std::proofs::lemmas::Bool::Decides::nat_tests), unfolding(crate::specs::Steps::is_in))]
pub(crate) fn is_prefix_char(c: char) -> bool
    ensures { result ≡ is_in PrefixChar c }
{
    is_var_char(c) || c == '-'
}

/// A character with which a local name begins, but for escapes.
#[tactic(auto, using(std::proofs::lemmas::Bool::Decides::nat_tests), unfolding(crate::specs::Steps::is_in))]
pub(crate) fn begins_local(c: char) -> bool
    ensures { result ≡ is_in LocalStart c }
{
    begins_name(c) || c == ':'
}

/// A character with which a local name may end, but for escapes.
#[tactic(auto, using(std::proofs::lemmas::Bool::Decides::nat_tests), unfolding(crate::specs::Steps::is_in))]
pub(crate) fn is_local_char(c: char) -> bool
    ensures { result ≡ is_in LocalChar c }
{
    is_prefix_char(c) || c == ':'
}
