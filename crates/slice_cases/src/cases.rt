//! The cases of slicing, and the one that a depth and a mask give.
ghost use Rattle.std.specs.Prelude.{◌≡◌, ◌<◌, ◌≤◌, slice_get};
ghost use Rattle.slice_cases.specs.Cases.{case_of};
ghost use Rattle.trie_depth.specs.Masks.{FitsDepth};

use trie_depth::Mask;

/// A mask that fits a depth, with its positions and the others. 255 stands past the last position.
#[derive(Clone, Copy, Debug, PartialEq, Eq)]
pub struct Case {
    pub depth: u8,
    pub mask: u8,
    /// From the highest to the lowest: what is taken leaves the numbers of those still to be taken.
    pub taken: [u8; 3],
    pub n_taken: u8,
    /// Rising.
    pub left: [u8; 3],
    pub n_left: u8,
}

/// By depth, then by how many positions are taken, then by mask.
pub const CASES: [Case; 11] = [
    Case {
        depth: 1,
        mask: 1,
        taken: [0, 255, 255],
        n_taken: 1,
        left: [255, 255, 255],
        n_left: 0,
    },
    Case {
        depth: 2,
        mask: 1,
        taken: [0, 255, 255],
        n_taken: 1,
        left: [1, 255, 255],
        n_left: 1,
    },
    Case {
        depth: 2,
        mask: 2,
        taken: [1, 255, 255],
        n_taken: 1,
        left: [0, 255, 255],
        n_left: 1,
    },
    Case {
        depth: 2,
        mask: 3,
        taken: [1, 0, 255],
        n_taken: 2,
        left: [255, 255, 255],
        n_left: 0,
    },
    Case {
        depth: 3,
        mask: 1,
        taken: [0, 255, 255],
        n_taken: 1,
        left: [1, 2, 255],
        n_left: 2,
    },
    Case {
        depth: 3,
        mask: 2,
        taken: [1, 255, 255],
        n_taken: 1,
        left: [0, 2, 255],
        n_left: 2,
    },
    Case {
        depth: 3,
        mask: 4,
        taken: [2, 255, 255],
        n_taken: 1,
        left: [0, 1, 255],
        n_left: 2,
    },
    Case {
        depth: 3,
        mask: 3,
        taken: [1, 0, 255],
        n_taken: 2,
        left: [2, 255, 255],
        n_left: 1,
    },
    Case {
        depth: 3,
        mask: 5,
        taken: [2, 0, 255],
        n_taken: 2,
        left: [1, 255, 255],
        n_left: 1,
    },
    Case {
        depth: 3,
        mask: 6,
        taken: [2, 1, 255],
        n_taken: 2,
        left: [0, 255, 255],
        n_left: 1,
    },
    Case {
        depth: 3,
        mask: 7,
        taken: [2, 1, 0],
        n_taken: 3,
        left: [255, 255, 255],
        n_left: 0,
    },
];

/// The case of the depth and the mask.
pub fn order(depth: usize, mask: Mask) -> Case
    requires low { 1 ≤ depth }
    requires high { depth ≤ 3 }
    requires fits { FitsDepth mask.0 depth }
    ensures { result ≡ case_of depth mask.0 }
{
    CASES[row(depth, mask)]
}

/// Where the case stands in the table.
fn row(depth: usize, mask: Mask) -> usize
    requires low { 1 ≤ depth }
    requires high { depth ≤ 3 }
    requires fits { FitsDepth mask.0 depth }
    ensures there { result < 11 }
    ensures right { slice_get CASES result ≡ Some (case_of depth mask.0) }
{
    let m = usize::from(mask.0);
    match (depth, m) {
        (1, _) => m - 1,
        (2, _) => m,
        (_, 4) => 6,
        (_, 3) => 7,
        _ => m + 3,
    }
}
