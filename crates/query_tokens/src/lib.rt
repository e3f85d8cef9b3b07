//! Definitions alone: the tokens of SPARQL queries (SPARQL 1.1, section 19). `specs/Tokens.antt` has each kind in the
//! grammar's notation, and `specs/Front.antt` the longest token at the front of a text; the functions below say that the
//! two agree, and that the kind of a token follows from its text.
#![tactic(auto)]

ghost use Rattle.query_tokens.specs.Laws.{FindsTokens, FindsGaps, OneKind};

/// What is found at the front of a text is the longest token that begins it, and nothing where none does; and so it is
/// with the blanks and comments there.
pub fn tokens_by_forms()
    ensures tokens { FindsTokens }
    ensures gaps { FindsGaps }
{}

/// No text is a token of two kinds.
pub fn tokens_have_one_kind()
    ensures { OneKind }
{}
