//! The labels in the order in which they are fixed.
ghost use Rattle.std.specs.Prelude.{◌≡◌, ◌+◌, ◌^◌, ◌≤◌, true, false, length, IfOk, OnOk};
ghost use Rattle.bag_list.specs.Levels.{AddsLevels, from_of, labels_in_order, labels_telling, level_labels, tells};

use std::alloc::Global;
use trie_depth::{Id, Memory};

/// A label, the key at which it is fixed, and the key from which its next one is sought: none where no Id is left.
#[derive(Clone, Copy, Drop)]
pub struct Level {
    pub label: u8,
    pub key: Id,
    pub from: Option<Id>,
}

/// The Id behind a key, if there is one.
pub fn after(key: Id) -> Option<Id>
    ensures next { from_of result ≡ key.0 + 1 }
    ensures within { from_of result ≤ 2 ^ 32 }
{
    if key.0 == u32::MAX {
        None
    } else {
        Some(Id(key.0 + 1))
    }
}

/// A level for each label below n, first those that tell two rows apart, and how many those are: under DISTINCT the labels
/// of columns, and else all.
pub fn levels_of(
    alloc: Global,
    n: u8,
    columns: &[Option<u8>],
    distinct: bool,
) -> Result<(Vec<Level>, usize), Memory>
    ensures labels { IfOk result (λ r. level_labels r.0.items ≡ labels_in_order columns.now distinct n) }
    ensures told { IfOk result (λ r. r.1 ≡ length (labels_telling columns.now distinct true n)) }
{
    let mut levels = Vec::new(alloc);
    add_levels(&mut levels, n, columns, distinct, true)?;
    let told = levels.len();
    add_levels(&mut levels, n, columns, distinct, false)?;
    Ok((levels, told))
}

/// Adds a level for each label that tells rows apart, or for each other one.
fn add_levels(
    levels: &mut Vec<Level>,
    n: u8,
    columns: &[Option<u8>],
    distinct: bool,
    telling: bool,
) -> Result<(), Memory>
    ensures { OnOk result (AddsLevels columns.now distinct telling n levels.old.items levels.new.items) }
{
    for label in 0..n {
        if tells(columns, distinct, label) == telling {
            levels.push(Level {
                label,
                key: Id(0),
                from: None,
            })?;
        }
    }
    Ok(())
}

/// Whether rows that differ in the label differ.
fn tells(columns: &[Option<u8>], distinct: bool, label: u8) -> bool
    ensures { result ≡ tells columns.now distinct label }
{
    !distinct || columns.contains(&Some(label))
}
