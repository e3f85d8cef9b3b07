//! What is shown of a store while a script is carried out: the dump of its graph, after each command.
ghost use Rattle.std.specs.Prelude.{◌≡◌, ◌<◌, [], List, Some, None, length, slice_get, ◌++◌, ◌∷◌, OnOk};
ghost use Rattle.std.specs.declared.option.Option.{Option};
ghost use Rattle.std.specs.Option.{is_some};
ghost use Rattle.rdf_model.specs.Terms.{Text};
ghost use Rattle.rdf_model.specs.Dumps.{dump_lines};
ghost use Rattle.graph_store.specs.StoreState.{IsSettled, graph};
ghost use Rattle.graph_store.specs.Watching.{IsShown};

use crate::store::Store;
use std::alloc::Global;
use tn_io::Lines;
use trie_depth::{Memory, Mix};

/// Is shown a store after each command that was carried out on it.
pub trait Watch {
    /// The dump lines of the graphs that it was shown, in order, where it tells them.
    ghost shown: { Self → Option (List (List Text)) };

    /// Is shown a store, whose dictionary has exactly the terms of its graph.
    fn seen<M: Mix>(&mut self, store: &Store<M>)
        requires settled { IsSettled store.now }
        ensures shown { IsShown (shown self.old) (shown self.new) (dump_lines (graph store.now)) };
}

/// A watch that looks at nothing, and tells nothing.
#[derive(Debug, Drop)]
pub struct NoWatch;

impl Watch for NoWatch {
    ghost use Rattle.std.specs.Prelude.{None};

    ghost shown = { λ _. None };

    fn seen<M: Mix>(&mut self, _store: &Store<M>) {}
}

/// A watch that keeps the dump lines of each graph that it is shown. Where memory runs out in that, it tells nothing from
/// then on.
#[derive(Drop)]
pub struct KeepDumps {
    alloc: Global,
    dumps: Vec<Lines>,
    tells: bool,
}

impl KeepDumps {
    ghost use Rattle.graph_store.specs.Watching.{dumps_of, kept};

    /// A watch that was shown nothing yet.
    pub fn new(alloc: Global) -> KeepDumps
        ensures { kept result ≡ Some [] }
    {
        KeepDumps {
            alloc,
            dumps: Vec::new(alloc),
            tells: true,
        }
    }

    /// Whether it still tells what it was shown.
    pub fn tells(&self) -> bool
        ensures { result ≡ is_some (kept self.now) }
    {
        self.tells
    }

    /// How many dumps are kept: while it tells, as many as it was shown.
    pub fn len(&self) -> usize
        ensures { result ≡ length (dumps_of self.now) }
    {
        self.dumps.len()
    }

    /// The lines of the dump at a place, from 0.
    pub fn at(&self, place: usize) -> &Lines
        requires { place < length (dumps_of self.now) }
        ensures { slice_get (dumps_of self.now) place ≡ Some result.now }
    {
        &self.dumps[place]
    }

    // Keeps the lines of one more dump.
    fn keep<M: Mix>(&mut self, store: &Store<M>) -> Result<(), Memory>
        ensures kept { OnOk result (dumps_of self.new ≡ dumps_of self.old ++ dump_lines (graph store.now) ∷ []) }
        ensures tells { self.new.tells ≡ self.old.tells }
    {
        let lines = store.dump(self.alloc)?;
        self.dumps.push(lines)?;
        Ok(())
    }
}

impl Watch for KeepDumps {
    ghost use Rattle.graph_store.specs.Watching.{kept};

    ghost shown = { kept };

    fn seen<M: Mix>(&mut self, store: &Store<M>) {
        if !self.tells {
            return;
        }
        match self.keep(store) {
            Ok(()) => {}
            Err(_) => self.tells = false,
        }
    }
}
