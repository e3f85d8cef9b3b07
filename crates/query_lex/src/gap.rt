//! What stands between tokens: blanks and comments.
ghost use Rattle.std.specs.Prelude.{◌≡◌};
ghost use Rattle.query_lex.specs.Steps.{gap_moves, run};

/// Where the characters between tokens have led to.
#[derive(Clone, Copy)]
pub(crate) enum Gap {
    Blanks,
    Comment,
}

impl Gap {
    /// What a further character leads to, or none where it is no part of the gap.
    #[tactic(auto, using(std::proofs::lemmas::Bool::Decides::nat_tests), unfolding(crate::specs::Steps::is_in))]
    pub(crate) fn step(self, c: char) -> Option<Gap>
        ensures { result ≡ run (gap_moves self) c }
    {
        match (self, c) {
            (Gap::Blanks, ' ' | '\t' | '\r' | '\n') => Some(Gap::Blanks),
            (Gap::Blanks, '#') => Some(Gap::Comment),
            (Gap::Blanks, _) => None,
            (Gap::Comment, '\r' | '\n') => Some(Gap::Blanks),
            (Gap::Comment, _) => Some(Gap::Comment),
        }
    }
}
