//! The next key of a label at which what is left may have a solution.
ghost use Rattle.std.specs.Prelude.{◌≡◌, ◌<◌, ◌≤◌, IfSome, IsTrue, length, MatchOption};
ghost use Rattle.bag_list.specs.Levels.{lesser_of};
ghost use Rattle.bag_list.specs.Operands.{AreReady, CanEnter, IsKeptTo, IsOpenAt};
ghost use Rattle.bag_list.specs.Through.{AllAdmitNext, IsStillToTry, NoneAtBefore, NoneBefore, NoneLeftBefore, NoneRaisedBefore};

use crate::level::{Level, after};
use crate::operands::Operands;
use crate::track::n_keys;
use std::sync::ledger::Ledger;
use trie_depth::{Id, Operand, Steps};

/// A label where so many levels are fixed, and the key from which on one of its keys is sought.
#[derive(Clone, Copy)]
pub struct Sought {
    pub depth: usize,
    pub label: u8,
    pub from: Id,
}

/// The labels that a key is looked for through: those of the levels from `first` on that have at most so many keys.
#[derive(Clone, Copy)]
pub struct Tested {
    pub first: usize,
    pub most: u64,
}

impl<O: Operand> Operands<O> {
    /// A key of the label of a level that is still to be tried: the next one, or one above it before which what is left has
    /// no solution.
    pub fn next_left<W: Ledger>(
        &mut self,
        levels: &[Level],
        depth: usize,
        tested: Tested,
        reads: &mut Steps<W>,
    ) -> Option<Id>
        requires within { (depth < length levels.now) × (tested.first ≤ length levels.now) }
        requires ready { AreReady O.depth_of O.tuples depth self.old }
        requires join { IsOpenAt O.depth_of O.tuples levels.now depth self.old }
        ensures kept { IsKeptTo O.depth_of O.tuples depth self.old self.new }
        ensures from { IsStillToTry levels.now depth result }
        ensures admitted { AllAdmitNext O.tuples self.old levels.now depth result }
        ensures least { NoneLeftBefore O.tuples self.old levels.now depth result }
    {
        let from = levels[depth].from?;
        let next = self.joins[depth].next_key(from, reads)?;
        if tested.first >= levels.len() {
            return Some(next);
        }
        let raised = self.raised(levels, depth, tested, next, reads)?;
        self.joins[depth].next_key(raised, reads)
    }

    /// A key of a level's label, or one above it where what is left has no solution before that. It is raised through each
    /// label that is tested.
    fn raised<W: Ledger>(
        &mut self,
        levels: &[Level],
        depth: usize,
        tested: Tested,
        key: Id,
        reads: &mut Steps<W>,
    ) -> Option<Id>
        requires within { (depth < length levels.now) × (tested.first ≤ length levels.now) }
        requires ready { AreReady O.depth_of O.tuples depth self.old }
        ensures kept { IsKeptTo O.depth_of O.tuples depth self.old self.new }
        ensures from { IfSome result (λ r. key.0 ≤ r.0) }
        ensures least { NoneRaisedBefore O.tuples self.old levels.now depth key.0 result }
    {
        let label = levels[depth].label;
        let mut next = key;
        for i in tested.first..levels.len() {
            let other = &levels[i];
            if n_keys(&self.tracks, depth, other.label, reads) <= tested.most {
                let sought = Sought {
                    depth,
                    label,
                    from: next,
                };
                next = self.least_through(sought, other.label, reads)?;
            }
        }
        Some(next)
    }

    /// The least key, where another label is fixed at one of its keys.
    fn least_through<W: Ledger>(
        &mut self,
        sought: Sought,
        other: u8,
        reads: &mut Steps<W>,
    ) -> Option<Id>
        requires { AreReady O.depth_of O.tuples sought.depth self.old }
        ensures kept { IsKeptTo O.depth_of O.tuples sought.depth self.old self.new }
        ensures from { IfSome result (λ r. sought.from.0 ≤ r.0) }
        ensures least { NoneBefore O.tuples self.old other sought result }
    {
        self.other.gather(&self.tracks, sought.depth, other);
        let mut best = None;
        let mut start = Some(Id(0));
        while let Some(least) = start {
            let Some(key) = self.other.next_key(least, reads) else {
                return best;
            };
            let level = Level {
                label: other,
                key,
                from: after(key),
            };
            let found = self.least_at(sought, level, reads);
            if is_reached(found, sought.from) {
                return found;
            }
            best = lesser(best, found);
            start = level.from;
        }
        best
    }

    /// The least key, where the label of a level is fixed at its key, which all patterns admit.
    fn least_at<W: Ledger>(
        &mut self,
        sought: Sought,
        level: Level,
        reads: &mut Steps<W>,
    ) -> Option<Id>
        requires ready { AreReady O.depth_of O.tuples sought.depth self.old }
        requires admitted { CanEnter O.tuples sought.depth level self.old }
        ensures kept { IsKeptTo O.depth_of O.tuples sought.depth self.old self.new }
        ensures other { self.new.other ≡ self.old.other }
        ensures from { IfSome result (λ r. sought.from.0 ≤ r.0) }
        ensures least { NoneAtBefore O.tuples self.old level sought result }
    {
        self.enter(sought.depth, level, reads);
        self.behind
            .gather(&self.tracks, sought.depth + 1, sought.label);
        self.behind.next_key(sought.from, reads)
    }
}

/// The lesser of two keys, where there are two.
fn lesser(a: Option<Id>, b: Option<Id>) -> Option<Id>
    ensures { result ≡ lesser_of a b }
{
    match (a, b) {
        (Some(x), Some(y)) if y.0 < x.0 => b,
        (None, _) => b,
        _ => a,
    }
}

/// Whether there is a key, and it isn't above the other.
fn is_reached(found: Option<Id>, key: Id) -> bool
    ensures { IsTrue result → MatchOption found ⊥ (λ r. r.0 ≤ key.0) }
{
    match found {
        Some(found) => found.0 <= key.0,
        None => false,
    }
}
