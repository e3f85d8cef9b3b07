//! The two ways in which a batch changes a graph.
ghost use Rattle.std.specs.Prelude.{◌≡◌, ◌+◌, ◌-◌, ◌<◌, ◌≤◌, ◌^◌, IsTrue};
ghost use Rattle.trie_change.specs.Changes.{size_after, HasSize};

/// Whether a batch is put in or taken out.
#[derive(Clone, Copy, Debug, PartialEq, Eq)]
pub enum Change {
    Grow,
    Shrink,
}

/// The size of a set changed by so many.
pub fn changed_size(change: Change, size: u64, by: u64) -> u64
    requires { HasSize change size by }
    ensures { result ≡ size_after change size by }
{
    match change {
        Change::Grow => size + by,
        Change::Shrink => size - by,
    }
}

/// Whether a change by so many takes all of a set out.
pub(crate) fn takes_all(change: Change, size: u64, by: u64) -> bool
    ensures { IsTrue result → size_after change size by ≡ 0 }
{
    match change {
        Change::Grow => false,
        Change::Shrink => size == by,
    }
}
