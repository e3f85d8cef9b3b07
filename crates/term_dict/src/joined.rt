//! Two texts in one, so that a literal takes one allocation, and the place where the second one begins.
ghost use Rattle.std.specs.Prelude.{◌≡◌, IfOk, take, drop};
ghost use Rattle.std.specs.String.{string_bytes};
ghost use Rattle.std.specs.Str.{IsCharBoundary};
ghost use Rattle.term_dict.specs.Places.{Joins};

use std::alloc::Global;
use trie_depth::Memory;

/// Both texts in one allocation. The first has fewer than 2^32 bytes, or there is no memory for them.
pub(crate) fn joined(alloc: Global, first: &str, second: &str) -> Result<(u32, String), Memory>
    ensures { IfOk result (λ j. Joins j.0 (string_bytes j.1) first.now second.now) }
{
    if first.len() >= 1 << 32 {
        return Err(Memory);
    }
    let mut text = String::with_capacity(alloc, first.len() + second.len())?;
    text.push_str(first)?;
    text.push_str(second)?;
    Ok((first.len() as u32, text))
}

/// The texts again.
pub(crate) fn parted(parting: u32, text: &str) -> (&str, &str)
    requires { IsCharBoundary text.now parting }
    ensures first { result.0.now ≡ take parting text.now }
    ensures second { result.1.now ≡ drop parting text.now }
{
    (&text[..parting as usize], &text[parting as usize..])
}
