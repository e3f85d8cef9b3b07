//! The patterns of a search.
ghost use Rattle.std.specs.Prelude.{◌≡◌, ◌≤◌, ℕ, true, false, IsTrue, IfOk};
ghost use Rattle.bag_list.specs.Operands.{AreReady, AreRoom, AreSameBut, CanEnter, IsEntered, IsKeptTo, IsOpened};
ghost use Rattle.bag_list.specs.Tracks.{AllAreStarts, AllHaveDoubled, AreTracks, HasEmpty, HaveStarts, SomeLacksKey};

use crate::join::{Join, joins_of};
use crate::level::Level;
use crate::track::{Start, Track, enter_all, lacks_key, tracks_of};
use std::alloc::Global;
use std::sync::ledger::Ledger;
use trie_depth::{Memory, Operand, Steps};

/// The patterns, and what is gathered of them.
#[derive(Drop)]
pub struct Operands<O: Operand> {
    pub tracks: Vec<Track<O>>,
    /// For each level, what has its label, once that is open.
    pub joins: Vec<Join<O>>,
    /// What has a label that the next key is looked for through.
    pub other: Join<O>,
    /// What has the label itself behind that one.
    pub behind: Join<O>,
}

impl<O: Operand> Operands<O> {
    /// The patterns of a search through so many labels, and whether these are all: none where one is empty.
    pub fn of(alloc: Global, starts: &[Start<O>], n: usize) -> Result<(Operands<O>, bool), Memory>
        requires few { n ≤ 96 }
        requires starts { AllAreStarts O.depth_of O.tuples n starts.now }
        ensures room { IfOk result (λ r. AreRoom n r.0) }
        ensures tracks { IfOk result (λ r. (fs : _) → AreTracks O.depth_of O.tuples n 1 fs r.0.tracks.items) }
        ensures whole { IfOk result (λ r. IsTrue r.1 → HaveStarts O.tuples starts.now r.0.tracks.items) }
        ensures empty { IfOk result (λ r. r.1 ≡ false → HasEmpty starts.now) }
    {
        let (tracks, fresh) = tracks_of(alloc, starts, n)?;
        let joins = joins_of(alloc, &tracks, n)?;
        let other = Join::of(alloc, &tracks)?;
        let behind = Join::of(alloc, &tracks)?;
        let operands = Operands {
            tracks,
            joins,
            other,
            behind,
        };
        Ok((operands, fresh))
    }

    /// Whether some pattern has a label at two places, and no key stands at both. Nothing is fixed yet.
    pub fn lacks_key<W: Ledger>(&self, reads: &mut Steps<W>) -> bool
        requires { AreReady O.depth_of O.tuples 0 self.now }
        ensures lacks { IsTrue result → SomeLacksKey O.tuples self.now.tracks.items }
        ensures has { result ≡ false → AllHaveDoubled O.tuples self.now.tracks.items }
    {
        lacks_key(&self.tracks, reads)
    }

    /// Gathers what has the label of a level.
    pub fn open(&mut self, depth: usize, label: u8)
        requires { AreReady O.depth_of O.tuples depth self.old }
        ensures tracks { self.new.tracks ≡ self.old.tracks }
        ensures room { (n : ℕ) → AreRoom n self.old → AreRoom n self.new }
        ensures join { IsOpened O.depth_of O.tuples self.old.tracks.items depth label self.new.joins.items }
        ensures others { AreSameBut depth self.old.joins.items self.new.joins.items }
    {
        self.joins[depth].gather(&self.tracks, depth, label);
    }

    /// Fixes the label of a level in every pattern at its key, which all admit.
    pub fn enter<W: Ledger>(&mut self, depth: usize, level: Level, reads: &mut Steps<W>)
        requires ready { AreReady O.depth_of O.tuples depth self.old }
        requires admitted { CanEnter O.tuples depth level self.old }
        ensures kept { IsKeptTo O.depth_of O.tuples depth self.old self.new }
        ensures other { self.new.other ≡ self.old.other }
        ensures entered { IsEntered O.depth_of O.tuples depth level self.old self.new }
    {
        enter_all(&mut self.tracks, depth, level.label, level.key, reads);
    }

    /// The same, but for the last label of all: what that leaves is asked for nowhere.
    pub fn enter_next<W: Ledger>(
        &mut self,
        depth: usize,
        is_last: bool,
        level: Level,
        reads: &mut Steps<W>,
    )
        requires ready { AreReady O.depth_of O.tuples depth self.old }
        requires admitted { CanEnter O.tuples depth level self.old }
        ensures kept { IsKeptTo O.depth_of O.tuples depth self.old self.new }
        ensures entered { is_last ≡ false → IsEntered O.depth_of O.tuples depth level self.old self.new }
    {
        if is_last {
            return;
        }
        self.enter(depth, level, reads);
    }
}
