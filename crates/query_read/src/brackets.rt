//! The brackets that are open, from the inner to the outer.
ghost use Rattle.std.specs.Prelude.{◌≡◌, [], ◌∷◌, OnOk, MatchOption, true, false};
ghost use Rattle.query_read.specs.Seen.{frame_seen, nothing_open};

use std::alloc::Global;
use std::marker::Model;
use trie_depth::Memory;

/// What an open pair of brackets is: the subject that begins a statement, or an object of a subject and a verb. Each is
/// named by the place of its token, a pair of brackets by its opening.
#[derive(Clone, Copy)]
pub(crate) enum Frame {
    Subject(usize),
    Object(usize, usize, usize),
}

#[derive(Drop)]
pub(crate) struct Brackets {
    frames: Vec<Frame>,
}

impl Model for Brackets {
    ghost use Rattle.std.specs.Prelude.{List, map, reverse};
    ghost use Rattle.query_grammar.specs.BlockFront as front;

    ghost Value = { List front.Frame };

    ghost use Rattle.query_read.specs.Seen.{frame_seen};

    ghost view = { λ b. reverse (map frame_seen b.frames.items) };
}

impl Brackets {
    pub(crate) fn new(alloc: Global) -> Brackets
        ensures { result ≡ [] }
    {
        Brackets {
            frames: Vec::new(alloc),
        }
    }

    pub(crate) fn is_empty(&self) -> bool
        ensures { result ≡ nothing_open self.now }
    {
        self.frames.is_empty()
    }

    /// Opens a pair.
    pub(crate) fn push(&mut self, frame: Frame) -> Result<(), Memory>
        ensures { OnOk result (self.new ≡ frame_seen frame ∷ self.old) }
    {
        self.frames.push(frame)?;
        Ok(())
    }

    /// Closes the inner pair.
    pub(crate) fn pop(&mut self) -> Option<Frame>
        ensures { MatchOption result ((self.old ≡ []) × (self.new ≡ [])) (λ f. self.old ≡ frame_seen f ∷ self.new) }
    {
        self.frames.pop()
    }
}
