//! Triple patterns, and lists of them.
ghost use Rattle.std.specs.Prelude.{◌≡◌, ◌<◌, [], ◌∷◌, ◌++◌, length, OnOk, OnErr, slice_get, Some};

use rdf_term::Term;
use std::alloc::Global;
use std::marker::Model;
use trie_depth::Memory;

/// What stands at a place of a triple pattern.
#[derive(Debug, Drop)]
pub enum Place {
    /// A variable or a blank node of the query, by its number.
    Label(u8),
    Const(Term),
}

/// Subject, predicate and object.
#[derive(Debug, Drop)]
pub struct Pattern {
    pub s: Place,
    pub p: Place,
    pub o: Place,
}

/// A list of triple patterns.
#[derive(Debug, Drop)]
pub struct Patterns {
    members: Vec<Pattern>,
}

impl Model for Patterns {
    ghost use Rattle.std.specs.Prelude.{List};
    ghost use Rattle.query_plan.specs.declared.patterns.Pattern.{Pattern};

    ghost Value = { List Pattern };

    ghost view = { λ a. a.members.items };
}

impl Patterns {
    pub fn new(alloc: Global) -> Patterns
        ensures { result ≡ [] }
    {
        Patterns {
            members: Vec::new(alloc),
        }
    }

    /// Adds a member at the end. On `Memory` the list is as before.
    pub fn push(&mut self, member: Pattern) -> Result<(), Memory>
        ensures ok { OnOk result (self.new ≡ self.old ++ member ∷ []) }
        ensures err { OnErr result (self.new ≡ self.old) }
    {
        self.members.push(member)?;
        Ok(())
    }

    pub fn len(&self) -> usize
        ensures { result ≡ length self.now }
    {
        self.members.len()
    }

    pub fn at(&self, i: usize) -> &Pattern
        requires { i < length self.now }
        ensures { slice_get self.now i ≡ Some result.now }
    {
        &self.members[i]
    }
}
