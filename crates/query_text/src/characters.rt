//! The characters of a text, one by one.
ghost use Rattle.std.specs.Prelude.{◌≡◌};
ghost use Rattle.std.specs.Str.{chars};
ghost use Rattle.query_grammar.specs.Texts.{trimmed};
ghost use Rattle.query_text.specs.Reads.{ReadsFirst};

/// The first character, and what follows it.
pub(crate) fn first(text: &str) -> Option<(char, &str)>
    ensures { ReadsFirst text.now result }
{
    let mut ahead = text.chars();
    let c = ahead.next()?;
    Some((c, ahead.as_str()))
}

/// The text without its first and its last character.
pub(crate) fn trimmed(text: &str) -> &str
    ensures { chars result.now ≡ trimmed (chars text.now) }
{
    let mut ahead = text.chars();
    ahead.next();
    ahead.next_back();
    ahead.as_str()
}
