ghost use Rattle.std.specs.Prelude.{◌≡◌, ◌≤◌, length};
ghost use Rattle.trie_depth.specs.Masks.{FitsDepth};

use slice_cases::{fix_entry, order};
use trie_depth::{Id, Mask};

/// Whether these positions are taken and left.
fn gives(depth: usize, mask: u8, taken: [u8; 3], left: [u8; 3]) -> bool
    requires low { 1 ≤ depth }
    requires high { depth ≤ 3 }
    requires fits { FitsDepth mask depth }
{
    let case = order(depth, Mask(mask));
    case.taken == taken && case.left == left
}

#[test]
fn the_eleven_cases(rt: HostRuntime) {
    assert!(rt; gives(1, 1, [0, 255, 255], [255, 255, 255]));
    assert!(rt; gives(2, 1, [0, 255, 255], [1, 255, 255]));
    assert!(rt; gives(2, 2, [1, 255, 255], [0, 255, 255]));
    assert!(rt; gives(2, 3, [1, 0, 255], [255, 255, 255]));
    assert!(rt; gives(3, 1, [0, 255, 255], [1, 2, 255]));
    assert!(rt; gives(3, 2, [1, 255, 255], [0, 2, 255]));
    assert!(rt; gives(3, 4, [2, 255, 255], [0, 1, 255]));
    assert!(rt; gives(3, 3, [1, 0, 255], [2, 255, 255]));
    assert!(rt; gives(3, 5, [2, 0, 255], [1, 255, 255]));
    assert!(rt; gives(3, 6, [2, 1, 255], [0, 255, 255]));
    assert!(rt; gives(3, 7, [2, 1, 0], [255, 255, 255]));
}

/// Whether of two entries the first alone has the key 7 at each position of the mask.
fn tells_apart<const D: usize, const MASK: u8>(with: &[Id], without: &[Id]) -> bool
    requires low { 1 ≤ D }
    requires high { D ≤ 3 }
    requires with { length with.now ≡ D }
    requires without { length without.now ≡ D }
    requires fits { FitsDepth MASK D }
{
    fix_entry::<D, MASK>(with, Id(7)) && !fix_entry::<D, MASK>(without, Id(7))
}

#[test]
fn entries_at_the_eleven_cases(rt: HostRuntime) {
    assert!(rt; tells_apart::<1, 1>(&[Id(7)], &[Id(8)]));
    assert!(rt; tells_apart::<2, 1>(&[Id(7), Id(8)], &[Id(8), Id(7)]));
    assert!(rt; tells_apart::<2, 2>(&[Id(8), Id(7)], &[Id(7), Id(8)]));
    assert!(rt; tells_apart::<2, 3>(&[Id(7), Id(7)], &[Id(7), Id(8)]));
    assert!(rt; tells_apart::<3, 1>(&[Id(7), Id(8), Id(9)], &[Id(8), Id(7), Id(7)]));
    assert!(rt; tells_apart::<3, 2>(&[Id(8), Id(7), Id(9)], &[Id(7), Id(8), Id(7)]));
    assert!(rt; tells_apart::<3, 4>(&[Id(8), Id(9), Id(7)], &[Id(7), Id(7), Id(8)]));
    assert!(rt; tells_apart::<3, 3>(&[Id(7), Id(7), Id(8)], &[Id(8), Id(7), Id(7)]));
    assert!(rt; tells_apart::<3, 5>(&[Id(7), Id(8), Id(7)], &[Id(7), Id(7), Id(8)]));
    assert!(rt; tells_apart::<3, 6>(&[Id(8), Id(7), Id(7)], &[Id(7), Id(8), Id(7)]));
    assert!(rt; tells_apart::<3, 7>(&[Id(7), Id(7), Id(7)], &[Id(7), Id(7), Id(8)]));
}
