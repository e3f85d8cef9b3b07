//! The search for solutions. Labels are fixed one after another, and the last one goes on to its next key.
ghost use Rattle.std.specs.Prelude.{◌≡◌, ◌+◌, ◌-◌, ◌<◌, ◌≤◌, ℕ, true, false, IsTrue, IfOk, IfSome, length};
ghost use Rattle.std.specs.List.{AllByRecursion};
ghost use Rattle.std.specs.List.Sorted.{IsPermutation};
ghost use Rattle.bag_list.specs.Rows.{EndsBefore, GivesRow, HasEnded, LeavesOut};
ghost use Rattle.bag_list.specs.Search.{IsKept, IsSameQuery, coming_of, id_solutions, steps_left};
ghost use Rattle.bag_list.specs.Tracks.{AllAreStarts, AreParts, AreRoomy, rests_of};

use crate::level::{Level, after, levels_of};
use crate::operands::Operands;
use crate::through::Tested;
use crate::track::{Start, Track, n_keys};
use query_plan::choose;
use std::alloc::Global;
use std::sync::ledger::Ledger;
use trie_depth::{Id, Memory, Operand, Steps};

/// As many places as there can be labels, all allowed.
static ALLOWED: [bool; 96] = [true; 96];

/// Where the search stands. The labels of the first `depth` levels are fixed.
#[derive(Drop)]
pub struct Search<O: Operand> {
    pub columns: Vec<Option<u8>>,
    pub distinct: bool,
    pub levels: Vec<Level>,
    pub depth: usize,
    /// Whether all that the fixed labels leave is still to come.
    pub fresh: bool,
    /// The labels of so many levels tell rows apart.
    pub told: usize,
    pub operands: Operands<O>,
    /// The key of each label, where it is fixed.
    pub values: Vec<Id>,
    pub counts: Vec<u64>,
    /// How many keys of the last label that tells rows apart were tried since the last row, and some of those before.
    pub tries: u64,
}

impl<O: Operand> Search<O> {
    /// Nothing is fixed. Where a pattern is empty, nothing is to come.
    pub fn of(
        alloc: Global,
        starts: &[Start<O>],
        n: u8,
        columns: Vec<Option<u8>>,
        distinct: bool,
    ) -> Result<Search<O>, Memory>
        requires few { n ≤ 96 }
        requires starts { AllAreStarts O.depth_of O.tuples n starts.now }
        requires columns { AllByRecursion (λ v. IfSome v (λ l. l < n)) columns.items }
        ensures kept { IfOk result (λ s. IsKept O.depth_of O.tuples s) }
        ensures coming { IfOk result (λ s. coming_of O.tuples s ≡ id_solutions n (rests_of O.tuples starts.now)) }
        ensures same { IfOk result (λ s. (s.columns.items ≡ columns.items) × (s.distinct ≡ distinct)) }
    {
        let (levels, told) = levels_of(alloc, n, &columns, distinct)?;
        let n = usize::from(n);
        let (operands, fresh) = Operands::of(alloc, starts, n)?;
        let values = vec![in alloc; Id(0); n]?;
        let counts = vec![in alloc; 0; n]?;
        Ok(Search {
            columns,
            distinct,
            levels,
            depth: 0,
            fresh,
            told,
            operands,
            values,
            counts,
            tries: 0,
        })
    }

    /// Goes to the next row that is chosen from. False where none is left.
    pub fn next_row<W: Ledger>(&mut self, reads: &mut Steps<W>) -> bool
        requires { IsKept O.depth_of O.tuples self.old }
        ensures kept { IsKept O.depth_of O.tuples self.new }
        ensures same { IsSameQuery O.tuples self.old self.new }
        ensures none { result ≡ false → HasEnded O.tuples self.old self.new }
        ensures some { IsTrue result → GivesRow O.tuples self.old self.new }
    {
        loop {
            if !self.fresh {
                if self.depth == 0 {
                    return false;
                }
                self.go_on(reads);
            } else if self.depth < self.levels.len() {
                self.open(reads);
            } else {
                self.fresh = false;
                self.depth = self.told;
                self.tries = fewer(self.tries);
                return true;
            }
        }
    }

    /// Chooses the label that is fixed next. Before the first one, nothing is to come where a pattern lacks a key.
    fn open<W: Ledger>(&mut self, reads: &mut Steps<W>)
        requires kept { IsKept O.depth_of O.tuples self.old }
        requires fresh { self.old.fresh ≡ true }
        requires deeper { self.old.depth < length self.old.levels.items }
        ensures kept { IsKept O.depth_of O.tuples self.new }
        ensures same { IsSameQuery O.tuples self.old self.new }
        ensures coming { coming_of O.tuples self.new ≡ coming_of O.tuples self.old }
        ensures less { steps_left self.new < steps_left self.old }
    {
        if self.depth == 0 && self.operands.lacks_key(reads) {
            self.fresh = false;
            return;
        }
        self.open_level(reads);
    }

    /// Chooses the label that is fixed next.
    fn open_level<W: Ledger>(&mut self, reads: &mut Steps<W>)
        requires kept { IsKept O.depth_of O.tuples self.old }
        requires fresh { self.old.fresh ≡ true }
        requires deeper { self.old.depth < length self.old.levels.items }
        ensures kept { IsKept O.depth_of O.tuples self.new }
        ensures same { IsSameQuery O.tuples self.old self.new }
        ensures coming { coming_of O.tuples self.new ≡ coming_of O.tuples self.old }
        ensures less { steps_left self.new < steps_left self.old }
    {
        let chosen = choice(
            &self.operands.tracks,
            &self.levels,
            self.depth,
            self.told,
            &mut self.counts,
            reads,
        );
        self.levels.swap(self.depth, chosen);
        let label = self.levels[self.depth].label;
        self.levels[self.depth] = Level {
            label,
            key: self.values[usize::from(label)],
            from: Some(Id(0)),
        };
        self.operands.open(self.depth, label);
        self.tries = tries_opened(self.depth, self.told, self.tries);
        self.depth += 1;
        self.fresh = false;
    }

    /// Fixes the last label at its next key, or gives it up where there is none.
    fn go_on<W: Ledger>(&mut self, reads: &mut Steps<W>)
        requires kept { IsKept O.depth_of O.tuples self.old }
        requires stale { self.old.fresh ≡ false }
        requires deep { 0 < self.old.depth }
        ensures kept { IsKept O.depth_of O.tuples self.new }
        ensures same { IsSameQuery O.tuples self.old self.new }
        ensures coming { IsPermutation (coming_of O.tuples self.old) (coming_of O.tuples self.new) }
        ensures less { steps_left self.new < steps_left self.old }
    {
        let last = self.depth - 1;
        let label = self.levels[last].label;
        self.tries = tries_more(self.depth, self.told, self.tries);
        let first = first_tested(last, self.told, self.levels.len(), self.tries);
        let tested = Tested {
            first,
            most: self.tries,
        };
        match self.operands.next_left(&self.levels, last, tested, reads) {
            None => self.depth = last,
            Some(key) => {
                let level = Level {
                    label,
                    key,
                    from: after(key),
                };
                self.levels[last] = level;
                self.values[usize::from(label)] = key;
                let is_last = self.depth == self.levels.len();
                self.operands.enter_next(last, is_last, level, reads);
                self.fresh = true;
            }
        }
    }
}

/// The place of the label with the fewest keys; one that tells rows apart while there is one.
fn choice<O: Operand, W: Ledger>(
    tracks: &[Track<O>],
    levels: &[Level],
    depth: usize,
    told: usize,
    counts: &mut [u64],
    reads: &mut Steps<W>,
) -> usize
    requires roomy { AreRoomy depth tracks.now }
    requires parts { AreParts O.depth_of O.tuples depth tracks.now }
    requires depth { depth < length levels.now }
    requires told { told ≤ length levels.now }
    requires few { length levels.now ≤ 96 }
    requires counts { length counts.old ≡ length levels.now }
    ensures from { depth ≤ result }
    ensures within { result < length levels.now }
    ensures telling { depth < told → result < told }
{
    let end = if depth < told { told } else { levels.len() };
    let n = counted(tracks, &levels[..end], depth, counts, reads);
    let first = choose(&counts[depth..depth + n], &ALLOWED[..n]);
    depth + first.unwrap_or(0)
}

/// Counts the keys of the labels from a level on, one after another, up to one that has a single key: how many were counted.
/// An only label isn't counted.
fn counted<O: Operand, W: Ledger>(
    tracks: &[Track<O>],
    levels: &[Level],
    depth: usize,
    counts: &mut [u64],
    reads: &mut Steps<W>,
) -> usize
    requires roomy { AreRoomy depth tracks.now }
    requires parts { AreParts O.depth_of O.tuples depth tracks.now }
    requires depth { depth < length levels.now }
    requires counts { length levels.now ≤ length counts.old }
    ensures within { result ≤ length levels.now - depth }
{
    let n = levels.len() - depth;
    if n == 1 {
        return 0;
    }
    for i in 0..n {
        let count = n_keys(tracks, depth, levels[depth + i].label, reads);
        counts[depth + i] = count;
        if count <= 1 {
            return i + 1;
        }
    }
    n
}

/// How many keys count as tried where a label is opened at this depth: fewer of one that tells rows apart.
fn tries_opened(depth: usize, told: usize, tries: u64) -> u64 {
    if depth < told { fewer(tries) } else { tries }
}

/// What counts as tried once a row is found, or another label is opened. As the next rows are likely to stand as far apart,
/// it isn't begun anew; where each key gives a row, nothing counts soon.
fn fewer(tries: u64) -> u64 {
    (tries - tries / 4).saturating_sub(2)
}

/// One more, where the label that goes on is the last one that tells rows apart.
fn tries_more(depth: usize, told: usize, tries: u64) -> u64 {
    if depth == told {
        tries.saturating_add(1)
    } else {
        tries
    }
}

/// The first level whose label the next key of the last one is looked for through, if any is. These labels don't tell rows
/// apart and stand behind all that do. They are gone through at the second, the fourth, the eighth key that is tried
/// without a row, and so on.
fn first_tested(last: usize, told: usize, n: usize, tries: u64) -> usize
    requires last { last < n }
    requires told { told ≤ n }
    ensures within { result ≤ n }
    ensures before { result < n → last + 1 < n }
{
    if last + 1 == told && tries > 1 && tries.is_power_of_two() {
        told
    } else {
        n
    }
}

/// Leaves so many rows out. False where fewer are to come.
pub fn leave_out<O: Operand, W: Ledger>(
    search: &mut Search<O>,
    n: u64,
    reads: &mut Steps<W>,
) -> bool
    requires { IsKept O.depth_of O.tuples search.old }
    ensures kept { IsKept O.depth_of O.tuples search.new }
    ensures same { IsSameQuery O.tuples search.old search.new }
    ensures none { result ≡ false → EndsBefore O.tuples n search.old search.new }
    ensures some { IsTrue result → LeavesOut O.tuples n search.old search.new }
{
    for _row in 0..n {
        if !search.next_row(reads) {
            return false;
        }
    }
    true
}
