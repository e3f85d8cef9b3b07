//! The tokens of a text, in a vector.
ghost use Rattle.std.specs.Prelude.{◌≡◌, IfOk};
ghost use Rattle.std.specs.Option.{option_map};
ghost use Rattle.std.specs.Str.{chars};
ghost use Rattle.query_grammar.specs.Lexemes.{lexed};

use query_lex::Lexer;
use query_text::Lexeme;
use std::alloc::Global;
use trie_depth::Memory;

/// The tokens of a text; none where it isn't made of tokens.
pub(crate) fn lexemes(alloc: Global, text: &str) -> Result<Option<Vec<Lexeme<'_>>>, Memory>
    ensures { IfOk result (λ r. option_map (λ v. v.items) r ≡ lexed (chars text.now)) }
{
    let mut found = Vec::new(alloc);
    let mut lexer = Lexer::new(text);
    loop {
        match lexer.next() {
            Ok(Some(token)) => {
                found.push(Lexeme::new(token.kind, &text[token.from..token.to]))?;
            }
            Ok(None) => return Ok(Some(found)),
            Err(_) => return Ok(None),
        }
    }
}
