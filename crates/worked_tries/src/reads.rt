//! What an operand answers at a mask.
ghost use Rattle.std.specs.Prelude.{◌≡◌, ◌≤◌};
ghost use Rattle.trie_depth.specs.Masks.{FitsDepth};

use std::sync::ledger::Ledger;
use trie_depth::{Id, Mask, Operand, Steps};

const FIRST: Mask = Mask(1);

/// A slice: its depth, and which of the keys 0, 1 and 2 it has at its first position.
#[derive(Clone, Copy, Debug, PartialEq, Eq)]
pub struct Slice {
    pub depth: usize,
    pub firsts: [bool; 3],
}

/// What a mask gives: for each of the keys 0, 1 and 2 the slice, if there is one; the number of keys at
/// the lowest position; and the least key from 0 on, and from 1 on.
#[derive(Clone, Copy, Debug, PartialEq, Eq)]
pub struct AtMask {
    pub fixed: [Option<Slice>; 3],
    pub count: u64,
    pub least: [Option<Id>; 2],
}

/// Whether an operand of some depth has the key at its first position.
fn has_first<O: Operand, W: Ledger>(operand: O, key: u32, reads: &mut Steps<W>) -> bool
    requires { 1 ≤ O.depth_of operand }
{
    operand.seek(FIRST, Id(key), reads) == Some(Id(key))
}

/// Which of three keys the operand has at its first position; none where it has no position.
fn firsts_of<O: Operand, W: Ledger>(operand: O, reads: &mut Steps<W>) -> [bool; 3] {
    if operand.depth() == 0 {
        return [false, false, false];
    }
    [
        has_first(operand, 0, reads),
        has_first(operand, 1, reads),
        has_first(operand, 2, reads),
    ]
}

fn slice_of<O: Operand, W: Ledger>(
    operand: O,
    mask: Mask,
    key: u32,
    reads: &mut Steps<W>,
) -> Option<Slice>
    requires { FitsDepth mask.0 (O.depth_of operand) }
{
    let slice = operand.fix(mask, Id(key), reads)?;
    Some(Slice {
        depth: slice.depth(),
        firsts: firsts_of(slice, reads),
    })
}

pub fn at_mask<O: Operand, W: Ledger>(operand: O, mask: Mask, reads: &mut Steps<W>) -> AtMask
    requires { FitsDepth mask.0 (O.depth_of operand) }
{
    AtMask {
        fixed: [
            slice_of(operand, mask, 0, reads),
            slice_of(operand, mask, 1, reads),
            slice_of(operand, mask, 2, reads),
        ],
        count: operand.key_count(mask, reads),
        least: [
            operand.seek(mask, Id(0), reads),
            operand.seek(mask, Id(1), reads),
        ],
    }
}

/// What the masks 1 to 7 of an operand of depth three give.
pub fn at_masks<O: Operand, W: Ledger>(operand: O, reads: &mut Steps<W>) -> [AtMask; 7]
    requires { O.depth_of operand ≡ 3 }
{
    [
        at_mask(operand, Mask(1), reads),
        at_mask(operand, Mask(2), reads),
        at_mask(operand, Mask(3), reads),
        at_mask(operand, Mask(4), reads),
        at_mask(operand, Mask(5), reads),
        at_mask(operand, Mask(6), reads),
        at_mask(operand, Mask(7), reads),
    ]
}
