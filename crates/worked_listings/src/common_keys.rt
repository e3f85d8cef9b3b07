//! Keys that two and three lists of triples have in common.
ghost use Rattle.std.specs.Prelude.{◌≡◌, ◌<◌};
ghost use Rattle.trie_depth.specs.Masks.{FitsDepth};

use key_join::{ListOp, next_common};
use std::marker::Brand;
use std::sync::ledger::{Blank, Ledger};
use trie_depth::{Id, Mask, Operand, Steps, Trip};

/// Subjects 0, 2, 3 and 7; predicates 1, 2, 3 and 7; subject and predicate alike for 2, 3 and 7; all three for 3.
const SOME: [Trip; 6] = [
    Trip(Id(0), Id(1), Id(2)),
    Trip(Id(0), Id(1), Id(5)),
    Trip(Id(2), Id(2), Id(3)),
    Trip(Id(3), Id(1), Id(3)),
    Trip(Id(3), Id(3), Id(3)),
    Trip(Id(7), Id(7), Id(0)),
];

/// Subjects 1, 2, 3 and 9; subject and object alike for 2, 3 and 9; predicate and object for 7 and 9.
const OTHERS: [Trip; 5] = [
    Trip(Id(1), Id(3), Id(7)),
    Trip(Id(2), Id(0), Id(2)),
    Trip(Id(3), Id(2), Id(3)),
    Trip(Id(3), Id(7), Id(7)),
    Trip(Id(9), Id(9), Id(9)),
];

/// Predicates 3, 7 and 9.
const FEW: [Trip; 3] = [
    Trip(Id(0), Id(3), Id(1)),
    Trip(Id(0), Id(7), Id(1)),
    Trip(Id(5), Id(9), Id(5)),
];

/// The least key that SOME and OTHERS have at these masks.
fn of_two<W: Ledger>(some: u8, others: u8, from: u32, blank: Blank) -> Option<Id>
    requires some { FitsDepth some 3 }
    requires others { FitsDepth others 3 }
    requires name { blank.name ≡ W.name }
    requires parts { blank.parts ≡ W.parts }
    requires whole { 0 < W.parts }
{
    let mut reads = Steps::<W>::new(blank);
    let ops = [ListOp::of(&SOME), ListOp::of(&OTHERS)];
    next_common(&ops, &[Mask(some), Mask(others)], Id(from), &mut reads)
}

/// The least key that all three have at these masks.
fn of_three<W: Ledger>(some: u8, others: u8, few: u8, from: u32, blank: Blank) -> Option<Id>
    requires some { FitsDepth some 3 }
    requires others { FitsDepth others 3 }
    requires few { FitsDepth few 3 }
    requires name { blank.name ≡ W.name }
    requires parts { blank.parts ≡ W.parts }
    requires whole { 0 < W.parts }
{
    let mut reads = Steps::<W>::new(blank);
    let ops = [ListOp::of(&SOME), ListOp::of(&OTHERS), ListOp::of(&FEW)];
    let masks = [Mask(some), Mask(others), Mask(few)];
    next_common(&ops, &masks, Id(from), &mut reads)
}

fn two(some: u8, others: u8, from: u32) -> Option<u32>
    requires some { FitsDepth some 3 }
    requires others { FitsDepth others 3 }
{
    of_two::<Brand>(some, others, from, Blank::new(1)).map(|key| key.0)
}

fn three(some: u8, others: u8, few: u8, from: u32) -> Option<u32>
    requires some { FitsDepth some 3 }
    requires others { FitsDepth others 3 }
    requires few { FitsDepth few 3 }
{
    of_three::<Brand>(some, others, few, from, Blank::new(1)).map(|key| key.0)
}

#[test]
fn common_keys_of_two(rt: HostRuntime) {
    assert_eq!(rt; two(1, 1, 0), Some(2));
    assert_eq!(rt; two(1, 1, 3), Some(3));
    assert_eq!(rt; two(1, 1, 4), None);
    assert_eq!(rt; two(3, 6, 0), Some(7));
    assert_eq!(rt; two(3, 6, 8), None);
    assert_eq!(rt; two(3, 5, 3), Some(3));
    assert_eq!(rt; two(7, 5, 0), Some(3));
    assert_eq!(rt; two(4, 2, 1), Some(2));
    assert_eq!(rt; two(1, 1, 4_294_967_295), None);
}

#[test]
fn common_keys_of_three(rt: HostRuntime) {
    assert_eq!(rt; three(3, 5, 2, 0), Some(3));
    assert_eq!(rt; three(3, 5, 2, 4), None);
    assert_eq!(rt; three(1, 4, 2, 4), Some(7));
    assert_eq!(rt; three(2, 6, 2, 0), Some(7));
    assert_eq!(rt; three(2, 6, 5, 0), None);
}

/// How many keys SOME has at the first position that is left once this subject is fixed, and its least key at both.
fn behind<W: Ledger>(subject: u32, blank: Blank) -> Option<(u64, Option<Id>)>
    requires name { blank.name ≡ W.name }
    requires parts { blank.parts ≡ W.parts }
    requires whole { 0 < W.parts }
{
    let mut reads = Steps::<W>::new(blank);
    let rest = ListOp::of(&SOME).fix(Mask(1), Id(subject), &mut reads)?;
    let count = rest.key_count(Mask(1), &mut reads);
    Some((count, rest.seek(Mask(3), Id(0), &mut reads)))
}

#[test]
fn a_list_with_a_subject_fixed(rt: HostRuntime) {
    assert_eq!(rt; behind::<Brand>(0, Blank::new(1)), Some((1, None)));
    assert_eq!(rt; behind::<Brand>(1, Blank::new(1)), None);
    assert_eq!(rt; behind::<Brand>(3, Blank::new(1)), Some((2, Some(Id(3)))));
}
