//! The words of a command that are free: scopes, names and numbers.
ghost use Rattle.std.specs.Prelude.{◌≡◌, ◌≤◌};
ghost use Rattle.std.specs.Char.{is_ascii_digit};
ghost use Rattle.std.specs.List.{list_all};
ghost use Rattle.std.specs.Option.{option_map};
ghost use Rattle.ntriples_model.specs.Characters.{is_letter_or_digit};
ghost use Rattle.script_model.specs.Commands.{is_name, is_scope, number_up_to};
ghost use Rattle.script_read.specs.Forms.{some_where};

// How many bytes a scope may have.
const LONGEST_SCOPE: usize = 64;

// How many digits a number may have.
const MOST_DIGITS: usize = 20;

#[tactic(auto, using(std::proofs::lemmas::Bool::Decides::nat_tests), unfolding(ntriples_model::specs::Characters::is_letter_or_digit))]
fn letter_or_digit(byte: u8) -> bool
    ensures { result ≡ is_letter_or_digit byte }
{
    byte.is_ascii_alphanumeric()
}

fn are_letters_or_digits(word: &[u8]) -> bool
    ensures { result ≡ list_all is_letter_or_digit word.now }
{
    for &byte in word {
        if !letter_or_digit(byte) {
            return false;
        }
    }
    true
}

fn are_digits(word: &[u8]) -> bool
    ensures { result ≡ list_all is_ascii_digit word.now }
{
    for byte in word {
        if !byte.is_ascii_digit() {
            return false;
        }
    }
    true
}

/// The bytes as a name, where they are one: UTF-8, and not empty.
pub(crate) fn name(bytes: &[u8]) -> Option<&str>
    ensures { option_map (λ name. name.now) result ≡ some_where (is_name bytes.now) bytes.now }
{
    if bytes.is_empty() {
        return None;
    }
    match str::from_utf8(bytes) {
        Ok(name) => Some(name),
        Err(_) => None,
    }
}

/// The word as a scope, where it is one: 1 to 64 letters or digits of ASCII.
pub(crate) fn scope(word: &[u8]) -> Option<&str>
    ensures { option_map (λ scope. scope.now) result ≡ some_where (is_scope word.now) word.now }
{
    if word.len() > LONGEST_SCOPE || !are_letters_or_digits(word) {
        return None;
    }
    name(word)
}

/// The number that the word writes with 1 to 20 digits, where it is at most so large.
pub(crate) fn number(word: &[u8], most: u64) -> Option<u64>
    ensures { result ≡ number_up_to most word.now }
{
    if word.len() > MOST_DIGITS || !are_digits(word) {
        return None;
    }
    let Some(digits) = name(word) else {
        return None;
    };
    let Ok(number) = digits.parse::<u64>() else {
        return None;
    };
    if number > most {
        return None;
    }
    Some(number)
}
