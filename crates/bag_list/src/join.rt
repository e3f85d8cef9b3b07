//! The operands that have a label.
ghost use Rattle.std.specs.Prelude.{◌≡◌, ◌<◌, ◌≤◌, ℕ, IfOk, length, slice_set, take};
ghost use Rattle.key_join.specs.Common.{AllFit};
ghost use Rattle.key_join.specs.Least.{IsLeastFrom};
ghost use Rattle.bag_list.specs.Joins.{AllHaveRoom, AllJoined, AllTaken, HasRoom, IsJoin, IsJoinable};
ghost use Rattle.bag_list.specs.Tracks.{AllAdmitAt, AreParts, AreRoomy};

use crate::track::{Track, part_of};
use key_join::next_common;
use std::alloc::Global;
use std::sync::ledger::Ledger;
use trie_depth::{Id, Mask, Memory, Operand, Steps};

/// The first `count` operands are those that have a label, and the masks are its positions there.
#[derive(Drop)]
pub struct Join<O: Operand> {
    pub ops: Vec<O>,
    pub masks: Vec<Mask>,
    pub count: usize,
}

impl<O: Operand> Join<O> {
    /// None yet, with room for an operand of each pattern.
    pub fn of(alloc: Global, tracks: &[Track<O>]) -> Result<Join<O>, Memory>
        ensures { IfOk result (λ join. HasRoom (length tracks.now) join) }
    {
        let ops = ops_of(alloc, tracks)?;
        let masks = vec![in alloc; Mask(0); tracks.len()]?;
        Ok(Join {
            ops,
            masks,
            count: 0,
        })
    }

    /// Takes the operands of the patterns that have a label.
    pub fn gather(&mut self, tracks: &[Track<O>], depth: usize, label: u8)
        requires roomy { AreRoomy depth tracks.now }
        requires parts { AreParts O.depth_of O.tuples depth tracks.now }
        requires room { HasRoom (length tracks.now) self.old }
        ensures room { HasRoom (length tracks.now) self.new }
        ensures join { IsJoin O.depth_of O.tuples tracks.now depth label self.new }
    {
        self.count = gather(tracks, depth, label, &mut self.ops, &mut self.masks);
    }

    /// The least key from `from` on at which each of the operands can be fixed.
    pub fn next_key<W: Ledger>(&self, from: Id, reads: &mut Steps<W>) -> Option<Id>
        requires { IsJoinable O.depth_of self.now }
        ensures { IsLeastFrom from.0 (AllJoined O.tuples self.now) result }
    {
        if self.count == 0 {
            return Some(from);
        }
        next_common(
            &self.ops[..self.count],
            &self.masks[..self.count],
            from,
            reads,
        )
    }
}

/// None yet for each of so many levels.
pub fn joins_of<O: Operand>(
    alloc: Global,
    tracks: &[Track<O>],
    n: usize,
) -> Result<Vec<Join<O>>, Memory>
    ensures number { IfOk result (λ joins. length joins.items ≡ n) }
    ensures room { IfOk result (λ joins. AllHaveRoom (length tracks.now) n joins.items) }
{
    let mut joins = Vec::new(alloc);
    for _level in 0..n {
        joins.push(Join::of(alloc, tracks)?)?;
    }
    Ok(joins)
}

/// The operands and masks of the patterns that have a label, and how many these are.
fn gather<O: Operand>(
    tracks: &[Track<O>],
    depth: usize,
    label: u8,
    ops: &mut [O],
    masks: &mut [Mask],
) -> usize
    requires roomy { AreRoomy depth tracks.now }
    requires parts { AreParts O.depth_of O.tuples depth tracks.now }
    requires ops { length ops.old ≡ length tracks.now }
    requires masks { length masks.old ≡ length tracks.now }
    ensures within { result ≤ length tracks.now }
    ensures fit { AllFit O.depth_of (take result ops.new) (take result masks.new) }
    ensures asked { (k : ℕ) → AllAdmitAt O.tuples tracks.now depth label k → AllTaken O.tuples result ops.new masks.new k }
    ensures whole { (k : ℕ) → AllTaken O.tuples result ops.new masks.new k → AllAdmitAt O.tuples tracks.now depth label k }
{
    let mut count = 0;
    for i in 0..tracks.len() {
        let part = part_of(tracks, depth, i);
        let mask = part.labels.mask(label);
        if mask.0 > 0 {
            put(ops, masks, count, part.op, mask);
            count += 1;
        }
    }
    count
}

/// Puts an operand and its mask at a place.
fn put<O: Operand>(ops: &mut [O], masks: &mut [Mask], at: usize, op: O, mask: Mask)
    requires ops { at < length ops.old }
    requires masks { at < length masks.old }
    ensures ops { ops.new ≡ slice_set ops.old at op }
    ensures masks { masks.new ≡ slice_set masks.old at mask }
{
    ops[at] = op;
    masks[at] = mask;
}

/// The operand of each pattern.
fn ops_of<O: Operand>(alloc: Global, tracks: &[Track<O>]) -> Result<Vec<O>, Memory>
    ensures { IfOk result (λ ops. length ops.items ≡ length tracks.now) }
{
    let mut ops = Vec::new(alloc);
    for i in 0..tracks.len() {
        let track = &tracks[i];
        ops.push(track.start.op)?;
    }
    Ok(ops)
}
