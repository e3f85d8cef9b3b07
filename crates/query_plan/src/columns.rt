//! Columns of an answer, and lists of them.
ghost use Rattle.std.specs.Prelude.{◌≡◌, ◌<◌, [], ◌∷◌, ◌++◌, length, OnOk, OnErr, slice_get, Some};

use std::alloc::Global;
use std::marker::Model;
use tn_io::Text;
use trie_depth::Memory;

/// A column of an answer.
#[derive(Debug, Drop)]
pub struct Column {
    /// The name of its variable, without the mark.
    pub name: Text,
    /// None where the variable is in no pattern.
    pub label: Option<u8>,
}

/// A list of columns.
#[derive(Debug, Drop)]
pub struct Columns {
    members: Vec<Column>,
}

impl Model for Columns {
    ghost use Rattle.std.specs.Prelude.{List};
    ghost use Rattle.query_plan.specs.declared.columns.Column.{Column};

    ghost Value = { List Column };

    ghost view = { λ a. a.members.items };
}

impl Columns {
    pub fn new(alloc: Global) -> Columns
        ensures { result ≡ [] }
    {
        Columns {
            members: Vec::new(alloc),
        }
    }

    /// Adds a member at the end. On `Memory` the list is as before.
    pub fn push(&mut self, member: Column) -> Result<(), Memory>
        ensures ok { OnOk result (self.new ≡ self.old ++ member ∷ []) }
        ensures err { OnErr result (self.new ≡ self.old) }
    {
        self.members.push(member)?;
        Ok(())
    }

    pub fn len(&self) -> usize
        ensures { result ≡ length self.now }
    {
        self.members.len()
    }

    pub fn at(&self, i: usize) -> &Column
        requires { i < length self.now }
        ensures { slice_get self.now i ≡ Some result.now }
    {
        &self.members[i]
    }
}
