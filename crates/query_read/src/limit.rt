//! The numbers behind LIMIT and OFFSET.
ghost use Rattle.std.specs.Prelude.{◌≡◌, ◌+◌, ◌-◌, ◌*◌, ◌≤◌, ◌^◌, MatchOption};
ghost use Rattle.query_grammar.specs.Meaning as spec;
ghost use Rattle.query_read.specs.Reads.{AreLimits, IsNumberBehind};
ghost use Rattle.query_text.specs.Seen.{sign_seen};

use crate::fault::ReadFault;
use crate::place::{place_of, text_at};
use query_text::{Lexeme, Sign};

/// The number with one more digit, if it fits 64 bits.
fn with_digit(number: u64, digit: u8) -> Option<u64>
    ensures { MatchOption result (2 ^ 64 ≤ number * 10 + (digit - 48)) (λ n. n ≡ number * 10 + (digit - 48)) }
{
    number
        .checked_mul(10)?
        .checked_add(u64::from(digit.saturating_sub(48)))
}

/// The number that digits stand for, if it fits 64 bits.
fn value_of(digits: &[u8]) -> Option<u64>
    ensures { MatchOption result (2 ^ 64 ≤ spec.value_of digits.now) (λ n. n ≡ spec.value_of digits.now) }
{
    let mut number = 0;
    for digit in digits {
        number = with_digit(number, *digit)?;
    }
    Some(number)
}

/// The number behind a word, where the word is there; a fault where it doesn't fit 64 bits.
fn number_behind(all: &[Lexeme<'_>], sign: Sign) -> Result<Option<u64>, ReadFault>
    ensures { IsNumberBehind (spec.number_behind (sign_seen sign) all.now) result }
{
    let place = place_of(all, sign);
    if place == all.len() {
        return Ok(None);
    }
    match value_of(text_at(all, place + 1).as_bytes()) {
        Some(number) => Ok(Some(number)),
        None => Err(ReadFault::TooLarge),
    }
}

/// The numbers behind LIMIT and OFFSET, of which OFFSET is 0 where it isn't there; a fault where one doesn't fit 64 bits.
pub(crate) fn limits(all: &[Lexeme<'_>]) -> Result<(Option<u64>, u64), ReadFault>
    ensures { AreLimits all.now result }
{
    match number_behind(all, Sign::Limit) {
        Ok(limit) => match number_behind(all, Sign::Offset) {
            Ok(offset) => Ok((limit, offset.unwrap_or(0))),
            Err(fault) => Err(fault),
        },
        Err(fault) => Err(fault),
    }
}
