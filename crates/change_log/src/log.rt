//! The log of a change.
ghost use Rattle.std.specs.Prelude.{◌≡◌, ℕ, ◌<◌, ◌≤◌, ◌∷◌, [], OnOk};
ghost use Rattle.trie_context.specs.declared.tables.Tables.{Tables};
ghost use Rattle.trie_context.specs.Holds.{holds_of, nothing, CountsRiseBy, RowsStay};
ghost use Rattle.trie_context.specs.Opened.{HoldsAreMoved};
ghost use Rattle.change_log.specs.Log.{Leads, keeps, reserved_in, HasPlaces, frees};

use crate::settle::settle_step;
use crate::step::Step;
use crate::undo::undo_step;
use std::alloc::Global;
use std::marker::Model;
use trie_context::Context;
use trie_depth::{Memory, Mix};

/// What a change did, step by step. It must be spent, by `settle` or by `undo`.
pub struct Log {
    steps: Vec<Step>,
}

impl Model for Log {
    ghost use Rattle.std.specs.Prelude.{◌-◌, reverse, length, vec_capacity};
    ghost use Rattle.change_log.specs.Seen.{Seen, seen_code};

    ghost Value = { Seen };

    ghost coded = { seen_code };

    ghost view = { λ l. record { steps = reverse l.steps.items; spare = vec_capacity l.steps - length l.steps.items } };
}

impl Log {
    pub fn new(alloc: Global) -> Log
        ensures { result.steps ≡ [] }
    {
        Log {
            steps: Vec::new(alloc),
        }
    }

    /// Makes room for one more step.
    pub fn reserve(&mut self) -> Result<(), Memory>
        ensures room { OnOk result (0 < self.new.spare) }
        ensures same { self.new.steps ≡ self.old.steps }
    {
        self.steps.reserve(1)?;
        Ok(())
    }

    /// Logs a step that was done.
    pub fn push(&mut self, step: Step)
        requires { 0 < self.old.spare }
        ensures { self.new.steps ≡ step ∷ self.old.steps }
    {
        self.steps.push_reserved(step);
    }

    /// Gives up what the steps keep.
    pub fn settle<M: Mix>(self, context: &mut Context<M>)
        requires held { (d r : ℕ) → keeps self.steps d r ≤ holds_of context.old d r }
        requires places { HasPlaces self.steps (reserved_in context.old) }
        ensures fallen { HoldsAreMoved M.mixed context.old context.new nothing (keeps self.steps) }
        ensures counts { CountsRiseBy context.old context.new nothing }
        ensures came { RowsStay context.new context.old }
        ensures freed { (d : ℕ) → reserved_in context.new d ≡ frees self.steps (reserved_in context.old) d }
    {
        context.is_kept();
        let Log { mut steps } = self;
        while let Some(step) = steps.pop() {
            settle_step(context, step);
        }
        steps.into_iter().destroy_empty();
    }

    /// Takes the steps back, the newest first: the tables are those before. It takes no memory.
    pub fn undo<M: Mix>(self, context: &mut Context<M>)
        requires led { (t : Tables) × Leads M.mixed t self.steps context.old }
        ensures { (t : Tables) → Leads M.mixed t self.steps context.old → context.new ≡ t }
    {
        let Log { steps: mut done } = self;
        while let Some(step) = done.pop() {
            undo_step(context, step);
        }
        done.into_iter().destroy_empty();
    }
}
