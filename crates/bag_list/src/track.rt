//! A pattern as it is while labels are fixed.
ghost use Rattle.std.specs.Prelude.{◌≡◌, ◌+◌, ◌<◌, ◌≤◌, ℕ, List, false, IsTrue, IfOk, length, slice_index_or, slice_set};
ghost use Rattle.bag_list.specs.declared.level.Level.{Level};
ghost use Rattle.bag_list.specs.declared.track.Part.{Part};
ghost use Rattle.bag_list.specs.declared.track.Track.{Track};
ghost use Rattle.bag_list.specs.Labels.{labels_of, mask_of};
ghost use Rattle.bag_list.specs.Tracks.{AdmitsAt, AdmitsIn, AllAdmitAt, AllAreStarts, AllHaveDoubled, AreCounted, AreFixed, height_at, IsCounted, part_at, parts_of, slot_of, AreParts, AreRoomy, AreSameTo, AreTracks, HasDoubledIn, HasEmpty, HaveStarts, IsFixed, IsFixedIn, IsPart, IsPartIn, IsSameTo, LacksKeyIn, SomeLacksKey};

use crate::labels::Labels;
use std::alloc::Global;
use std::sync::ledger::Ledger;
use trie_depth::{Id, Mask, Memory, Operand, Steps};

/// A pattern after its constants were fixed: the operand that is left, None where it is empty, and the labels of the
/// operand's positions in order.
#[derive(Clone, Copy)]
pub struct Start<O> {
    pub op: Option<O>,
    pub labels: [Option<u8>; 3],
}

/// What is left of a pattern: an operand, and the labels of its positions.
#[derive(Clone, Copy)]
pub struct Part<O> {
    pub op: O,
    pub labels: Labels,
}

/// A pattern while labels are fixed. It has three at most, so it changes three times at most, and a level only says how often
/// it has.
#[derive(Drop)]
pub struct Track<O: Operand> {
    /// What is left with none of its labels fixed, and with one, two and three.
    pub start: Part<O>,
    pub one: Part<O>,
    pub two: Part<O>,
    pub three: Part<O>,
    /// How many of its labels are fixed after no level, after one, and so on.
    pub heights: Vec<u8>,
}

impl<O: Operand> Track<O> {
    /// With room for so many levels.
    pub fn of(alloc: Global, start: Part<O>, n: usize) -> Result<Track<O>, Memory>
        requires { n ≤ 96 }
        ensures start { IfOk result (λ t. t.start ≡ start) }
        ensures room { IfOk result (λ t. length (parts_of t) ≡ n + 1) }
        ensures heights { IfOk result (λ t. (j : ℕ) → height_at t j ≡ 0) }
    {
        let heights = vec![in alloc; 0u8; n + 1]?;
        Ok(Track {
            start,
            one: start,
            two: start,
            three: start,
            heights,
        })
    }

    /// What is left after so many levels.
    fn at(&self, depth: usize) -> Part<O>
        requires { depth < length (parts_of self.now) }
        ensures { (p : Part O) → result ≡ slice_index_or (parts_of self.now) depth p }
    {
        self.slot(self.heights[depth])
    }

    /// What is left with so many labels fixed.
    fn slot(&self, height: u8) -> Part<O>
        ensures { result ≡ slot_of self.now height }
    {
        match height {
            0 => self.start,
            1 => self.one,
            2 => self.two,
            _ => self.three,
        }
    }

    /// Sets how many labels are fixed after so many levels.
    fn set_height(&mut self, depth: usize, height: u8)
        requires { depth < length (parts_of self.old) }
        ensures heights { self.new.heights.items ≡ slice_set self.old.heights.items depth height }
        ensures slots { (h : ℕ) → slot_of self.new h ≡ slot_of self.old h }
        ensures start { self.new.start ≡ self.old.start }
    {
        self.heights[depth] = height;
    }

    /// Puts what is left with so many labels fixed.
    fn put(&mut self, height: u8, part: Part<O>)
        requires low { 0 < height }
        requires high { height ≤ 3 }
        ensures here { slot_of self.new height ≡ part }
        ensures below { (h : ℕ) → h < height → slot_of self.new h ≡ slot_of self.old h }
        ensures heights { self.new.heights ≡ self.old.heights }
        ensures start { self.new.start ≡ self.old.start }
    {
        match height {
            0 | 1 => self.one = part,
            2 => self.two = part,
            _ => self.three = part,
        }
    }

    /// Whether a label that stands at two places has no key there, before a label is fixed.
    fn lacks_key<W: Ledger>(&self, reads: &mut Steps<W>) -> bool
        requires room { 0 < length (parts_of self.now) }
        requires part { IsPartIn O.depth_of O.tuples 0 self.now }
        ensures lacks { IsTrue result → LacksKeyIn O.tuples self.now }
        ensures has { result ≡ false → HasDoubledIn O.tuples self.now }
    {
        let part = self.at(0);
        match part.labels.doubled() {
            Some(label) => {
                let mask = part.labels.mask(label);
                part.op.seek(mask, Id(0), reads).is_none()
            }
            None => false,
        }
    }

    /// Fixes the label of a level at a key that the pattern admits.
    fn enter<W: Ledger>(&mut self, depth: usize, label: u8, key: Id, reads: &mut Steps<W>)
        requires room { depth + 1 < length (parts_of self.old) }
        requires counted { IsCounted depth self.old }
        requires part { IsPartIn O.depth_of O.tuples depth self.old }
        requires admitted { AdmitsIn O.tuples depth label self.old key.0 }
        ensures same { IsSameTo depth self.old self.new }
        ensures counted { IsCounted (depth + 1) self.new }
        ensures fixed { IsFixedIn O.depth_of O.tuples depth label key.0 self.old self.new }
    {
        let part = self.at(depth);
        let height = self.heights[depth];
        let mask = part.labels.mask(label);
        if mask.0 == 0 {
            self.set_height(depth + 1, height);
            return;
        }
        let left = fixed(part, mask, label, key, reads);
        let higher = height + 1;
        self.set_height(depth + 1, higher);
        self.put(higher, left);
    }
}

/// What is left once a label is fixed at a key that the pattern admits. Where no label is left, nothing is fixed: the one
/// tuple of no key is left.
fn fixed<O: Operand, W: Ledger>(
    part: Part<O>,
    mask: Mask,
    label: u8,
    key: Id,
    reads: &mut Steps<W>,
) -> Part<O>
    requires mask { mask.0 ≡ mask_of label (labels_of part.labels) }
    requires there { 0 < mask.0 }
    requires part { IsPart O.depth_of O.tuples part }
    requires admitted { AdmitsAt O.tuples label part key.0 }
    ensures { IsFixed O.depth_of O.tuples label key.0 part result }
{
    let labels = part.labels.without(label);
    if labels.is_none() {
        return Part {
            op: part.op,
            labels,
        };
    }
    match part.op.fix(mask, key, reads) {
        Some(op) => Part { op, labels },
        None => unreachable!(),
    }
}

/// What is left of a pattern after so many levels.
pub fn part_of<O: Operand>(tracks: &[Track<O>], depth: usize, i: usize) -> Part<O>
    requires there { i < length tracks.now }
    requires roomy { AreRoomy depth tracks.now }
    ensures { (t : Track O) (p : Part O) → part_at tracks.now depth i t p ≡ result }
{
    tracks[i].at(depth)
}

/// Fixes the label of a level in every pattern at a key that all admit.
pub fn enter_all<O: Operand, W: Ledger>(
    tracks: &mut [Track<O>],
    depth: usize,
    label: u8,
    key: Id,
    reads: &mut Steps<W>,
)
    requires roomy { AreRoomy (depth + 1) tracks.old }
    requires counted { AreCounted depth tracks.old }
    requires parts { AreParts O.depth_of O.tuples depth tracks.old }
    requires admitted { AllAdmitAt O.tuples tracks.old depth label key.0 }
    ensures same { AreSameTo depth tracks.old tracks.new }
    ensures counted { AreCounted (depth + 1) tracks.new }
    ensures fixed { AreFixed O.depth_of O.tuples depth label key.0 tracks.old tracks.new }
{
    for i in 0..tracks.len() {
        let track = &mut tracks[i];
        track.enter(depth, label, key, reads);
    }
}

/// Whether some pattern has a label at two places, and no key stands at both.
pub fn lacks_key<O: Operand, W: Ledger>(tracks: &[Track<O>], reads: &mut Steps<W>) -> bool
    requires roomy { AreRoomy 0 tracks.now }
    requires parts { AreParts O.depth_of O.tuples 0 tracks.now }
    ensures lacks { IsTrue result → SomeLacksKey O.tuples tracks.now }
    ensures has { result ≡ false → AllHaveDoubled O.tuples tracks.now }
{
    for i in 0..tracks.len() {
        let track = &tracks[i];
        if track.lacks_key(reads) {
            return true;
        }
    }
    false
}

/// How many keys to reckon with, of those at one position of the label: a share, where the label stands at further ones, as
/// few keys stand at all.
fn reckoned(mask: Mask, count: u64) -> u64 {
    if mask.0.is_power_of_two() {
        count
    } else {
        count / 16
    }
}

/// What is reckoned on top of the keys of a label that stands at one place alone. Fixing it rules nothing out, so all other
/// labels come before it.
const ALONE: u64 = 1 << 40;

/// The least number of keys to reckon with, of a label that stands at so many places.
fn reckoned_at(places: u32, least: u64) -> u64 {
    if places == 1 {
        least.saturating_add(ALONE)
    } else {
        least
    }
}

/// The least number of keys to reckon with that a pattern has at a label.
pub fn n_keys<O: Operand, W: Ledger>(
    tracks: &[Track<O>],
    depth: usize,
    label: u8,
    reads: &mut Steps<W>,
) -> u64
    requires roomy { AreRoomy depth tracks.now }
    requires parts { AreParts O.depth_of O.tuples depth tracks.now }
{
    let mut least = u64::MAX;
    let mut places = 0u32;
    for i in 0..tracks.len() {
        let part = part_of(tracks, depth, i);
        let mask = part.labels.mask(label);
        if mask.0 > 0 {
            least = least.min(reckoned(mask, part.op.key_count(mask, reads)));
            places = places.saturating_add(mask.0.count_ones());
        }
        if least <= 1 {
            return least;
        }
    }
    reckoned_at(places, least)
}

/// The patterns of a search through so many labels, and whether these are all: none where one is empty.
pub fn tracks_of<O: Operand>(
    alloc: Global,
    starts: &[Start<O>],
    n: usize,
) -> Result<(Vec<Track<O>>, bool), Memory>
    requires few { n ≤ 96 }
    requires starts { AllAreStarts O.depth_of O.tuples n starts.now }
    ensures tracks { IfOk result (λ r. (fs : List Level) → AreTracks O.depth_of O.tuples n 1 fs r.0.items) }
    ensures whole { IfOk result (λ r. IsTrue r.1 → HaveStarts O.tuples starts.now r.0.items) }
    ensures empty { IfOk result (λ r. r.1 ≡ false → HasEmpty starts.now) }
{
    let mut tracks = Vec::new(alloc);
    for i in 0..starts.len() {
        let start = &starts[i];
        let Some(op) = start.op else {
            return Ok((Vec::new(alloc), false));
        };
        let labels = Labels(start.labels[0], start.labels[1], start.labels[2]);
        tracks.push(Track::of(alloc, Part { op, labels }, n)?)?;
    }
    Ok((tracks, true))
}
